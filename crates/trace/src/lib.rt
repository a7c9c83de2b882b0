// The trace call: the refutation of an unsatisfiable session as bytes that anybody can check.
#![tactic(auto)]

pub mod call;
mod held;
pub mod laws;
mod mark;
mod number;
mod put;
