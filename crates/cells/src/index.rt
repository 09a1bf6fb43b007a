// The index: which unit has an address, with no search; and how a fit fills it.
ghost use Rattle.std.specs.Prelude.{true, ◌≡◌, ◌<◌, length, IfSome};
ghost use Rattle.cells.specs.Fitted.{Fitted};
ghost use Rattle.cells.specs.Index.{unit_with, transmitter_with, receiver_with, row, looked_through, put_index};
ghost use Rattle.cells.specs.Ranges.{in_range};
ghost use Rattle.cells.specs.Search.{named};

use crate::layout::{INDEX, NUMBERS, RECEIVES_AS, SENDS_AS, UNITS};
use crate::search::find;
use crate::units::{cell_at, count};
use codec::windows::put;

// By the transmitter address where k is 0, by the receiver address where it is 1.
fn unit_with(cells: &[u16], k: usize, address: u16) -> Option<usize>
    requires cells_value { in_range cells.now ≡ true }
    requires k_bound { k < 2 }
    ensures unit { result ≡ named (unit_with cells.now k address) }
    ensures fitted { IfSome result (Fitted cells.now) }
{
    let unit = cell_at(cells, INDEX + k * NUMBERS + address as usize % NUMBERS);
    if unit < count(cells) {
        return Some(unit);
    }
    None
}

// The unit with that transmitter address.
pub fn transmitter_with(cells: &[u16], address: u16) -> Option<usize>
    requires { in_range cells.now ≡ true }
    ensures unit { result ≡ named (transmitter_with cells.now address) }
    ensures fitted { IfSome result (Fitted cells.now) }
{
    unit_with(cells, SENDS_AS, address)
}

// The unit with that receiver address.
pub fn receiver_with(cells: &[u16], address: u16) -> Option<usize>
    requires { in_range cells.now ≡ true }
    ensures unit { result ≡ named (receiver_with cells.now address) }
    ensures fitted { IfSome result (Fitted cells.now) }
{
    unit_with(cells, RECEIVES_AS, address)
}

// What the search finds, for each number as a transmitter address and then for each as a receiver address: 16 where it finds none.
fn look_through(entries: &mut [u16], cells: &[u16])
    requires cells_value { in_range cells.now ≡ true }
    requires entries_len { length entries.old ≡ 64 }
    ensures { entries.new ≡ row (looked_through cells.now) 64 0 }
{
    for (i, entry) in entries.iter_mut().enumerate() {
        *entry = find(cells, i / NUMBERS, i % NUMBERS).unwrap_or(UNITS) as u16;
    }
}

// The header's count and the units' addresses stand already.
pub fn fill_index(cells: &mut [u16])
    requires { in_range cells.old ≡ true }
    ensures { cells.new ≡ put_index cells.old }
{
    let mut entries = [0u16; 64];
    look_through(&mut entries, cells);
    put(cells, INDEX, &entries);
}
