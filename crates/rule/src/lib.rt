// The resolution rule: when a line of a trace is right.
#![tactic(auto)]

mod derived;
pub mod right;
