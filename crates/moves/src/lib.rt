// Memory moves, periods and serials of one fitted unit, on the lent cells.
#![tactic(auto)]

pub mod moving;
pub mod periods;
pub mod serials;
