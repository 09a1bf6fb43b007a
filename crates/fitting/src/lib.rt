// A fit: the rules of a set-up, and the cells that it leaves.
#![tactic(auto)]

pub mod fit;
pub mod setup;
