// The readings board: messages of sensor readings received from the link, the words of one collected into a memory, and the board's calls
// for C. Messages are built and read by the crate `readings`.
// What each call promises stands in specs/, Outcomes, and is all that its `ensures` says. No call asks anything of its caller: what is bad
// is refused by name, and leaves the lent room as it was.
#![tactic(auto)]

pub mod answers;
pub mod collecting;
pub mod face;
pub mod receiving;
