// Scripts: lines of words, and the requests that they are.
#![tactic(auto)]

pub mod number;
pub mod request;
pub mod text;
