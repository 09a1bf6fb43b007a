// Where the units lie in the lent cells, when a lent state is in range, a unit's sides, the index of addresses, and the search for a unit.
#![tactic(auto)]

pub mod index;
pub mod layout;
pub mod ranges;
pub mod search;
pub mod sides;
pub mod unit;
pub mod unit_sides;
pub mod units;
