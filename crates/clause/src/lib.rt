// Clauses as two words of atoms, and the refusals of the whole library.
#![tactic(auto)]

pub mod clause_of;
pub mod literals;
pub mod order;
pub mod refusal;
pub mod resolve;
pub mod text;
pub mod truth;
pub mod words;
