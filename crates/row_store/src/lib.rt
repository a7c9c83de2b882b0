// Clauses in clause order in the caller's memory, numbered by arrival.
#![tactic(auto)]

pub mod ordered;
pub mod scan;
pub mod seats;
pub mod slot;
