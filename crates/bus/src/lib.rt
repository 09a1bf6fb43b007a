// One slice on the lent cells: the master's next address, the transmitter and the receiver that are addressed, and what a slice with
// no master does.
#![tactic(auto)]

pub mod damage;
pub mod masterless;
pub mod slice;
