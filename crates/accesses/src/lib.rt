// A host's accesses to the registers of one fitted unit, on the lent cells: the sides that an access needs are taken out of their
// windows, the rule is run, and they are put back.
#![tactic(auto)]

pub mod masters;
pub mod offsets;
pub mod reading;
pub mod registers;
pub mod sections;
pub mod sides;
pub mod writing;
