// Checks of a trace: an open check takes lines one by one, a closed check is only questioned.
#![tactic(auto)]

pub mod check;
mod fault;
pub mod judge;
mod trailer;
