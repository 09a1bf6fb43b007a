// A receiver in a slice: which of the rules fits, and what it answers and does by it.
#![tactic(auto)]

pub mod choice;
pub mod events;
pub mod rules;
