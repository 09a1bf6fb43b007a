// The calls of document 01, for Rattle and for C. Each asks nothing of its caller: what is bad is refused, and leaves every cell as it
// was. What each promises stands in specs/, Outcomes, and is all that its `ensures` says.
#![tactic(auto)]

pub mod calls;
pub mod face;
pub mod link;
pub mod packing;
pub mod serving;
pub mod sides;
mod units;
