// The clause store as an interface, by its meaning.
#![tactic(auto)]

pub mod entry;
pub mod laws;
pub mod store;
