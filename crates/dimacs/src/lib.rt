// Texts of clauses in DIMACS form: their words as parts of the text, their heading, and their clauses one by one.
#![tactic(auto)]

mod body;
pub mod check;
pub mod clauses;
pub mod heading;
mod numbers;
mod preface;
pub mod reader;
mod runs;
