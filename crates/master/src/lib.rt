// The master section of a unit: who has MASTER, and the transmitter addresses that a master gives, one a slice.
#![tactic(auto)]

pub mod registers;
pub mod ring;
pub mod section;
pub mod side;
