// The header, and the cells of a unit's own.
ghost use Rattle.std.specs.Prelude.{[], ◌∷◌, ◌≡◌, ◌+◌, ◌≤◌, ◌<◌, length};
ghost use Rattle.codec.specs.Window.{cell, splice};
ghost use Rattle.cells.specs.Fitted.{Fitted, blank};
ghost use Rattle.cells.specs.Layout.{count_in, holder_in, held_by, holder_of, put_holder, address_in, memory_length, secondary_in, enc_unit};

use crate::layout::{BLOCK, COUNT, HEADER, HOLDER, MASTER, MEMORY_HIGH, MEMORY_LOW};
use codec::masters::{SEC, SECTION};
use codec::windows::put;
use words::bits::bits_at;

// A cell as a wide number, for sums.
pub fn cell_at(cells: &[u16], i: usize) -> usize
    requires { i < length cells.now }
    ensures { (result ≡ cell cells.now i) × (result < 65536) }
{
    cells[i] as usize
}

// The count of units.
pub fn count(cells: &[u16]) -> usize
    requires { 66 ≤ length cells.now }
    ensures { result ≡ count_in cells.now }
{
    cell_at(cells, COUNT)
}

// The number of the unit that is master.
pub fn master(cells: &[u16]) -> Option<usize>
    requires { 66 ≤ length cells.now }
    ensures { result ≡ held_by (holder_in cells.now) }
{
    (cells[HOLDER] as usize).checked_sub(1)
}

// In the header's cell it is 0 for nobody, else the unit's number + 1.
pub fn set_master(cells: &mut [u16], master: Option<usize>)
    requires header { 66 ≤ length cells.old }
    requires master_bound { holder_of master < 65536 }
    ensures { cells.new ≡ put_holder cells.old (holder_of master) }
{
    cells[HOLDER] = match master {
        None => 0,
        Some(unit) => (unit + 1) as u16,
    };
}

// The header of a fit: so many units, and no master.
pub fn set_header(cells: &mut [u16], count: u16)
    requires { 66 ≤ length cells.old }
    ensures { cells.new ≡ splice cells.old 0 (count ∷ 0 ∷ []) }
{
    let w = [count, 0];
    put(cells, 0, &w);
}

// The address in a unit's own cell k: at most 31.
pub fn address_in(cells: &[u16], k: usize, u: usize) -> usize
    requires { (k < 4) × Fitted cells.now u }
    ensures { result ≡ address_in cells.now k u }
{
    cell_at(cells, HEADER + u * BLOCK + k).min(30) + 1
}

// In words.
pub fn memory_length(cells: &[u16], u: usize) -> usize
    requires { Fitted cells.now u }
    ensures { result ≡ memory_length cells.now u }
{
    let at = HEADER + u * BLOCK;
    cell_at(cells, at + MEMORY_HIGH) % 2 * 65536 + cell_at(cells, at + MEMORY_LOW) + 1
}

// SEC of a unit's master section: 0 or 1.
pub fn secondary_in(cells: &[u16], u: usize) -> usize
    requires { Fitted cells.now u }
    ensures { result ≡ secondary_in cells.now u }
{
    bits_at(cells[HEADER + u * BLOCK + MASTER + SECTION], SEC, 1) as usize
}

// A unit's block of zeros.
pub fn blank_unit(cells: &mut [u16], unit: usize)
    requires { Fitted cells.old unit }
    ensures { cells.new ≡ blank cells.old unit }
{
    let zeros = [0u16; BLOCK];
    put(cells, HEADER + unit * BLOCK, &zeros);
}

// A unit's own cells into its block.
pub fn store_unit(cells: &mut [u16], at: usize, transmitter: u16, receiver: u16, memory: u32)
    requires { (at + 4 ≤ length cells.old) × (1 ≤ transmitter) × (1 ≤ receiver) × (1 ≤ memory) × (memory ≤ 131072) }
    ensures { cells.new ≡ splice cells.old at (enc_unit transmitter receiver memory) }
{
    let last = memory - 1;
    let w = [
        transmitter - 1,
        receiver - 1,
        (last / 65536) as u16,
        (last % 65536) as u16,
    ];
    put(cells, at, &w);
}
