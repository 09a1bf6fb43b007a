// Whether a lent state is in range: its header, and room. Each call asks this.
ghost use Rattle.std.specs.Prelude.{◌≡◌};
ghost use Rattle.cells.specs.Ranges.{in_range};

use crate::layout::{BLOCK, COUNT, HEADER, HOLDER, UNITS};
use crate::units::count;

pub fn in_range(cells: &[u16]) -> bool
    ensures { result ≡ in_range cells.now }
{
    if cells.len() < HEADER {
        return false;
    }
    let units = count(cells);
    if units > UNITS {
        return false;
    }
    (HEADER + units * BLOCK <= cells.len()) & (cells[HOLDER] <= cells[COUNT])
}
