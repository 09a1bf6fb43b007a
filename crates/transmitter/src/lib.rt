// A transmitter: its record and what is its own of what both sides do, its bits in TCR and TSR, its memory moves, and MST DWN.
#![tactic(auto)]

pub mod bits;
pub mod down;
pub mod moves;
pub mod side;
