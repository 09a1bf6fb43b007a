// What is plain of a slice before anything is carried, in place: on the lent cells, with no side made a record. Which cases are plain,
// nothing rests on: whatever these functions do not take goes by the records.
#![tactic(auto)]

pub mod idle;
pub mod places;
pub mod turn;
