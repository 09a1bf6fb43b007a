// The host's reads and writes of a transmitter's registers.
#![tactic(auto)]

pub mod registers;
pub mod shown;
pub mod writes;
