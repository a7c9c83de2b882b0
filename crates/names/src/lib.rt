// Names of atoms, and the table that gives each new name the next atom.
#![tactic(auto)]

pub mod calls;
pub mod laws;
pub mod name;
pub mod naming;
pub mod slot;
pub mod table;
