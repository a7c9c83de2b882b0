// A session: clauses accepted one by one, a search over them, and its answers.
#![tactic(auto)]

pub mod report;
pub mod search;
pub mod session;
