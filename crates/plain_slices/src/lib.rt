// The plain cases of slices in place: on the lent cells, with no side made a record. Which are plain, nothing rests on: whatever these
// functions do not take goes by the records.
#![tactic(auto)]

mod halves;
mod in_step;
pub mod slice;
