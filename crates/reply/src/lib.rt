// What calls on a session answer, as values.
#![tactic(auto)]

pub mod action;
pub mod answer;
pub mod calls;
pub mod valuation;
