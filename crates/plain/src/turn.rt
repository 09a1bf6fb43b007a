// The master's next address, by the cells of its section.
ghost use Rattle.std.specs.Prelude.{true, List, [], ◌∷◌, ◌≡◌, ℕ, ◌+◌, ◌*◌, ◌/◌, ◌%◌, ◌<◌, ◌≤◌, length};
ghost use Rattle.cells.specs.Fitted.{Fitted};
ghost use Rattle.codec.specs.Rings.{around};
ghost use Rattle.codec.specs.Window.{splice};
ghost use Rattle.laws.specs.Bits.{bits};
ghost use Rattle.plain.specs.Turn.{turns_by, turns_at, counted_word, first_found, went_round, turned_at};

use cells::layout::{BLOCK, HEADER, MASTER};
use codec::masters::{ADDRESSES, AUT_ADR, COUNTER, RING, SECTION, SWITCH};
use codec::windows::put;
use words::bits::{bit_at, bits_at};

// Each number within its limits, and an address held where AUT ADR is clear: then what is read is written back as it stood. A length of
// at most 50 is a cell below 51 x 64.
fn turns_by(ring: u16, word: u16) -> bool
    ensures { result ≡ turns_by ring word }
{
    let place = bits_at(word, COUNTER, 5);
    let switch = bits_at(word, SWITCH, 5);
    (ring < 3264)
        & (ring % 64 < 50)
        & (word < 8192)
        & (2 <= switch)
        & (1 <= place)
        & (place <= switch)
        & (bit_at(word, AUT_ADR) | (64 <= ring))
}

// Whether the section of a unit is such a plain one.
pub fn turns_at(cells: &[u16], unit: usize) -> bool
    requires { Fitted cells.now unit }
    ensures { result ≡ turns_at cells.now unit }
{
    let at = HEADER + unit * BLOCK + MASTER;
    turns_by(cells[at + RING], cells[at + SECTION])
}

// The section's word with the counter gone on: after 1 comes the switch.
fn count_down(word: u16) -> u16
    requires { (word < 8192) × (1 ≤ bits word 0 5) }
    ensures { result ≡ counted_word word }
{
    if bits_at(word, COUNTER, 5) == 1 {
        return word - 1 + bits_at(word, SWITCH, 5);
    }
    word - 1
}

// The counter's address.
fn count_at(cells: &mut [u16], at: usize, word: u16) -> u16
    requires at_in_bounds { at + 52 ≤ length cells.old }
    requires word_bound { (word < 8192) × (1 ≤ bits word 0 5) }
    ensures { ◌≡◌ {A = ℕ × List ℕ} (result, cells.new) (bits word 0 5, splice cells.old (at + 1) (counted_word word ∷ [])) }
{
    let counted = [count_down(word)];
    put(cells, at + SECTION, &counted);
    bits_at(word, COUNTER, 5)
}

// The ring's cell one place further on, with as many addresses.
fn next_ring(ring: u16) -> u16
    requires { (ring < 3264) × (ring % 64 < 50) }
    ensures { result ≡ around 50 (ring % 64 + 1) + ring / 64 * 64 }
{
    if ring % 64 + 1 < 50 {
        return ring + 1;
    }
    ring - 49
}

// The place behind the last address.
fn place_behind(ring: u16) -> usize
    requires { (ring < 3264) × (ring % 64 < 50) }
    ensures { (result ≡ around 50 (ring % 64 + ring / 64)) × (result < 50) }
{
    let place = ring % 64 + ring / 64;
    if place < 50 {
        return place as usize;
    }
    (place - 50) as usize
}

// The silo's oldest address, which goes to the end: one cell of the ring, and where it starts.
fn go_round(cells: &mut [u16], at: usize, ring: u16, word: u16) -> u16
    requires at_in_bounds { at + 52 ≤ length cells.old }
    requires ring_bound { (ring < 3264) × (ring % 64 < 50) }
    ensures { ◌≡◌ {A = ℕ × List ℕ} (result, cells.new) (first_found cells.old at ring, splice cells.old at (went_round cells.old at ring word)) }
{
    let start = (ring % 64) as usize;
    let address = cells[at + ADDRESSES + start] % 32;
    let back = place_behind(ring);
    let head = [next_ring(ring), word];
    put(cells, at, &head);
    let free = at + ADDRESSES + back;
    cells[free] = address;
    address
}

// The address of a slice, and the section gone on to its next. Only one cell changes, or two.
pub fn turn_at(cells: &mut [u16], unit: usize) -> u16
    requires fitted { Fitted cells.old unit }
    requires unit_value { turns_at cells.old unit ≡ true }
    ensures { ◌≡◌ {A = ℕ × List ℕ} (result, cells.new) (turned_at cells.old unit) }
{
    let at = HEADER + unit * BLOCK + MASTER;
    let ring = cells[at + RING];
    let word = cells[at + SECTION];
    if bit_at(word, AUT_ADR) {
        return count_at(cells, at, word);
    }
    go_round(cells, at, ring, word)
}
