// What the script program reads and writes: the records of a script in a window of the input, the set-up that a fit's record
// holds, and the text of a line.
#![tactic(auto)]

mod bytes;
pub mod calls;
pub mod lines;
pub mod records;
pub mod setups;
mod text;
pub mod windows;
