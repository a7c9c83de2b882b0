// The answer call: a text in, its verdict printed into the caller's buffer.
#![tactic(auto)]

pub mod call;
pub mod host;
mod report;
mod text;
