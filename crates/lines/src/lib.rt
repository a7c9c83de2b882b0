// The bytes of a trace: lines of a derivation, 24 bytes each, and behind them a trailer of 24 bytes that points back.
#![tactic(auto)]

pub mod line;
pub mod read;
pub mod write;
