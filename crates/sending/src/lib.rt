// A transmitter in a slice: what it sends, and what it makes of the answer.
#![tactic(auto)]

pub mod chart;
pub mod choice;
pub mod events;
pub mod hearing;
