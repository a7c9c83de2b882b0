// Clauses by arrival in the caller's memory, linked in clause order by a skip list.
#![tactic(auto)]

mod links;
mod list;
pub mod skips;
