// What an emulator asks of the sides after every slice, on the lent cells: which of them want service, and a whole transfer at once.
#![tactic(auto)]

pub mod levels;
mod runs;
pub mod transfers;
pub mod wants;
