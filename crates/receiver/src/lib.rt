// A receiver: its record and what is its own of what both sides do, its bits in RCR and RSR, and its memory moves.
#![tactic(auto)]

pub mod bits;
pub mod moves;
pub mod side;
