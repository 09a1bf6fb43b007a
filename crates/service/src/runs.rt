// Runs of plain words at one side of a fitted unit: as many as lie one after the other in the silo's ring, with one look at the side. Whatever
// they do not take goes by single moves.
ghost use Rattle.std.specs.Prelude.{◌++◌, ◌≡◌, ◌+◌, ◌/◌, ◌≤◌, ◌<◌, length, drop};
ghost use Rattle.std.proofs.Math.Seq.{paste};
ghost use Rattle.cells.specs.Fitted.{Fitted};
ghost use Rattle.cells.specs.Layout.{memory_length};
ghost use Rattle.codec.specs.Window.{cell, window, splice};
ghost use Rattle.plain.specs.Places.{front, behind};
ghost use Rattle.service.specs.Laws.Heads.{with_fewer, head_on, words_put};
ghost use Rattle.service.specs.Laws.RunsIn.{RunIn};
ghost use Rattle.service.specs.Laws.RunsOut.{RunOut};

use cells::layout::{BLOCK, HEADER, RECEIVER, TRANSMITTER};
use cells::units::memory_length;
use codec::end_cells::SILO;
use codec::head::Head;
use codec::windows::put;
use plain::places::{behind_of, front_of};
use plain_moves::moving::{is_plain_in, is_plain_out, may_move_in, may_move_out, place};

// How many words can be put one after the other, by the ring's cell: there is room for them, and none goes round.
fn room_by(ring: u16) -> usize
    requires { ring < 4096 }
    ensures { (ring / 64 + result ≤ 64) × (behind ring + result ≤ 64) }
{
    (64 - (ring / 64) as usize).min(64 - behind_of(ring))
}

// How many can be taken so.
fn words_by(ring: u16) -> usize
    ensures { (result ≤ ring / 64) × (front ring + result ≤ 64) }
{
    ((ring / 64) as usize).min(64 - front_of(ring))
}

// How many words can go at once: no more than the ring says, than are left of a silo's 64, than the address and the count can go on within
// their 15 bits, and than the memory has from the place on.
fn run_length(words: usize, before: u16, head: Head, place: usize, memory: usize) -> usize
    requires { (before ≤ 64) × (head.low ≤ 32767) × (head.count ≤ 32767) × (place ≤ memory) }
    ensures { (result ≤ words) × (before + result ≤ 64) × (head.low + result ≤ 32767) × (head.count + result ≤ 32767) × (place + result ≤ memory) }
{
    words
        .min(64 - before as usize)
        .min(memory - place)
        .min(32767 - head.low as usize)
        .min(32767 - head.count as usize)
}

// So many words of a memory into the silo.
fn put_words(cells: &mut [u16], at: usize, memory: &[u16], from: usize, n: usize)
    requires { (at + 73 ≤ length cells.old) × (cell cells.old at / 64 + n ≤ 64) × (behind (cell cells.old at) + n ≤ 64) × (cell cells.old (at + 3) + n ≤ 32767) × (cell cells.old (at + 4) + n ≤ 32767) × (from + n ≤ length memory.now) }
    ensures { cells.new ≡ splice cells.old at (words_put cells.old at memory.now from n) }
{
    let head = Head::load(cells, at);
    let next = Head {
        ring: head.ring + n as u16 * 64,
        ..head.moved_on(n as u16)
    };
    next.store(cells, at);
    let end = from + n;
    put(cells, at + SILO + behind_of(head.ring), &memory[from..end]);
}

// The ring's cell without so many of the oldest words.
fn without_oldest(ring: u16, n: usize) -> u16
    requires { (n ≤ ring / 64) × (n ≤ 64) }
    ensures { result ≡ with_fewer ring n }
{
    (ring % 64 + n as u16) % 64 + (ring / 64 - n as u16) * 64
}

// So many of the oldest words into a memory. The ring stays as it is.
fn take_words(cells: &mut [u16], at: usize, memory: &mut [u16], to: usize, n: usize)
    requires { (at + 73 ≤ length cells.old) × (n ≤ cell cells.old at / 64) × (front (cell cells.old at) + n ≤ 64) × (cell cells.old (at + 3) + n ≤ 32767) × (cell cells.old (at + 4) + n ≤ 32767) × (to + n ≤ length memory.old) }
    ensures { (cells.new ≡ splice cells.old at (head_on cells.old at (with_fewer (cell cells.old at) n) n ++ window cells.old (at + 9) 64)) × (memory.new ≡ paste memory.old to (drop (at + 9 + front (cell cells.old at)) cells.old) n) }
{
    let head = Head::load(cells, at);
    let oldest = at + SILO + front_of(head.ring);
    let end = oldest + n;
    put(memory, to, &cells[oldest..end]);
    let next = Head {
        ring: without_oldest(head.ring, n),
        ..head.moved_on(n as u16)
    };
    next.store(cells, at);
}

// The plain words that a transmitter may load, after so many: how many there are then.
pub fn run_out(cells: &mut [u16], memory: &[u16], unit: usize, before: u16) -> u16
    requires { Fitted cells.old unit × (memory_length cells.old unit ≤ length memory.now) × (before ≤ 64) }
    ensures { RunOut unit memory.now before cells.old result cells.new }
{
    if !may_move_out(cells, unit) {
        return before;
    }
    let at = HEADER + unit * BLOCK + TRANSMITTER;
    if !is_plain_out(cells, at) {
        return before;
    }
    let head = Head::load(cells, at);
    let from = place(head.low, head.control);
    let fitted = memory_length(cells, unit);
    if from > fitted {
        return before;
    }
    let n = run_length(room_by(head.ring), before, head, from, fitted);
    put_words(cells, at, memory, from, n);
    before + n as u16
}

// The plain words that a receiver may store, after so many: how many there are then.
pub fn run_in(cells: &mut [u16], memory: &mut [u16], unit: usize, before: u16) -> u16
    requires { Fitted cells.old unit × (memory_length cells.old unit ≤ length memory.old) × (before ≤ 64) }
    ensures { RunIn unit before cells.old memory.old result cells.new memory.new }
{
    if !may_move_in(cells, unit) {
        return before;
    }
    let at = HEADER + unit * BLOCK + RECEIVER;
    if !is_plain_in(cells, at) {
        return before;
    }
    let head = Head::load(cells, at);
    let to = place(head.low, head.control);
    let fitted = memory_length(cells, unit);
    if to > fitted {
        return before;
    }
    let n = run_length(words_by(head.ring), before, head, to, fitted);
    take_words(cells, at, memory, to, n);
    before + n as u16
}
