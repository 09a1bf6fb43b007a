// How each side lies in its lent cells: windows of a slice, and each side as the cells of a window and back.
#![tactic(auto)]

pub mod end_cells;
pub mod head;
pub mod in_window;
pub mod masters;
pub mod readings;
pub mod receivers;
pub mod rings;
pub mod transmitters;
pub mod windows;
