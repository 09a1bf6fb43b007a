// Shares into an address load: out of a wanted number of turns for each transmitter, a list for the address silo. What each call promises
// stands in specs/, Outcomes, and is all that its `ensures` says. No call asks anything of its caller: what is bad is refused by name, and
// leaves every lent word as it was.
#![tactic(auto)]

pub mod answers;
mod arranging;
pub mod face;
mod lists;
pub mod planning;
mod spreading;
mod wanted;
