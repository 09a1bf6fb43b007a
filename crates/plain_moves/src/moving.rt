// Moves: whether a side has anything to move, and the plain word.
ghost use Rattle.std.specs.Prelude.{true, List, ◌≡◌, ℕ, ◌+◌, ◌≤◌, ◌<◌, length, Result, Ok, Option, None};
ghost use Rattle.cells.specs.Fitted.{Fitted, transmitter_of, receiver_of};
ghost use Rattle.cells.specs.Layout.{memory_length};
ghost use Rattle.codec.specs.Window.{cell, splice};
ghost use Rattle.laws.specs.Pick.{pick};
ghost use Rattle.plain.specs.Places.{front};
ghost use Rattle.plain_moves.specs.Moving.{Plain, PlainOut, PlainIn, word_at, head_moved, word_put, word_taken, transmitter_loaded, receiver_stored};
ghost use Rattle.receiver.specs.Moves as R;
ghost use Rattle.transmitter.specs.Moves as T;
ghost use Rattle.words.specs.declared.answers.Refusal.{Refusal};

use cells::layout::{BLOCK, HEADER, RECEIVER, TRANSMITTER};
use cells::units::memory_length;
use codec::end_cells::{EA16, LOADED, MARK, SILO};
use codec::head::Head;
use plain::places::{behind_of, front_of, without_oldest};
use words::bits::{bit_at, bits_at, rcr, rsr, tcr, tsr};

// TX NPR, loaded, no error bit, room, RD SILO clear, and not ending, which only an open transmitter is. A length below 64 is a ring's cell
// below 64 x 64. The tests of a cell stand together: the compiler makes those of the control cell one.
pub fn may_move_out(cells: &[u16], unit: usize) -> bool
    requires { Fitted cells.now unit }
    ensures { result ≡ T.may_move (transmitter_of cells.now unit) }
{
    let head = Head::load(cells, HEADER + unit * BLOCK + TRANSMITTER);
    bit_at(head.control, tcr::TX_NPR)
        & bit_at(head.control, LOADED)
        & !bit_at(head.control, tcr::RD_SILO)
        & (bits_at(head.status, tsr::OVERUN, 6) == 0)
        & !(bit_at(head.status, tsr::DTIRDY) & bit_at(head.status, tsr::BUSY))
        & (head.ring < 4096)
}

// RC NPR, a word, and no error bit.
pub fn may_move_in(cells: &[u16], unit: usize) -> bool
    requires { Fitted cells.now unit }
    ensures { result ≡ R.may_move (receiver_of cells.now unit) }
{
    let head = Head::load(cells, HEADER + unit * BLOCK + RECEIVER);
    bit_at(head.control, rcr::RC_NPR)
        & (64 <= head.ring)
        & (bits_at(head.status, rsr::BC_OFL, 6) == 0)
}

// What a plain move asks of both heads: the numbers stand within their limits, the load is loaded and goes on with INH ADI clear, and the
// period's mark stands only where it counts. Beside it each side asks a little of its own.
fn is_plain(head: Head, limit: u16, busy: bool) -> bool
    ensures { result ≡ true → Plain head.block head.own limit head.low head.count head.control busy }
{
    (head.block < 129)
        & (head.own < limit)
        & (head.low < 32767)
        & (head.count < 32767)
        & bit_at(head.control, LOADED)
        & !bit_at(head.control, tcr::INH_ADI)
        & (!bit_at(head.control, MARK) | busy)
}

// Whether a transmitter's head at a place is plain. It is not ending, then, and awaits no verdict.
pub fn is_plain_out(cells: &[u16], at: usize) -> bool
    requires { at + 73 ≤ length cells.now }
    ensures { result ≡ true → PlainOut cells.now at }
{
    let head = Head::load(cells, at);
    let busy = bit_at(head.control, tcr::SND_WD) | bit_at(head.status, tsr::BUSY);
    is_plain(head, 32, busy) & !bit_at(head.status, tsr::DTIRDY) & !bit_at(head.status, tsr::ERR)
}

// Whether a receiver's is. A length above 64 reads as 64.
pub fn is_plain_in(cells: &[u16], at: usize) -> bool
    requires { at + 73 ≤ length cells.now }
    ensures { result ≡ true → PlainIn cells.now at }
{
    let head = Head::load(cells, at);
    is_plain(head, 1, bit_at(head.status, rsr::CHN_OPN)) & (head.ring < 4160)
}

// The word of the memory that a load names.
pub fn place(low: u16, control: u16) -> usize
    ensures { result ≡ word_at low control }
{
    bits_at(control, EA16, 2) as usize * 32768 + low as usize
}

// A word into the silo: one cell of its ring.
fn put_word(cells: &mut [u16], at: usize, word: u16)
    requires { (at + 73 ≤ length cells.old) × (cell cells.old (at + 3) < 32767) × (cell cells.old (at + 4) < 32767) × (cell cells.old at < 4096) }
    ensures { cells.new ≡ splice cells.old at (word_put cells.old at word) }
{
    let head = Head::load(cells, at);
    let next = Head {
        ring: head.ring + 64,
        ..head.moved_on(1)
    };
    next.store(cells, at);
    let free = at + SILO + behind_of(head.ring);
    cells[free] = word;
}

// The oldest word out of the silo, whose ring stays as it is.
fn take_word(cells: &mut [u16], at: usize) -> u16
    requires { (at + 73 ≤ length cells.old) × (cell cells.old (at + 3) < 32767) × (cell cells.old (at + 4) < 32767) × (64 ≤ cell cells.old at) }
    ensures { (cells.new ≡ splice cells.old at (word_taken cells.old at)) × (result ≡ cell cells.old (at + 9 + front (cell cells.old at))) }
{
    let head = Head::load(cells, at);
    let word = cells[at + SILO + front_of(head.ring)];
    let next = Head {
        ring: without_oldest(head.ring),
        ..head.moved_on(1)
    };
    next.store(cells, at);
    word
}

// A transmitter's move, where it is plain: whether it was. It is then done, and no address is missing.
pub fn load_plain(cells: &mut [u16], memory: &[u16], unit: usize) -> bool
    requires { Fitted cells.old unit × (memory_length cells.old unit ≤ length memory.now) × (T.may_move (transmitter_of cells.old unit) ≡ true) }
    ensures { ◌≡◌ {A = Result (Option ℕ) Refusal × List ℕ} (Ok None, cells.new) (pick result (transmitter_loaded cells.old memory.now unit) (Ok None, cells.old)) }
{
    let at = HEADER + unit * BLOCK + TRANSMITTER;
    if !is_plain_out(cells, at) {
        return false;
    }
    let head = Head::load(cells, at);
    let from = place(head.low, head.control);
    if from < memory_length(cells, unit) {
        put_word(cells, at, memory[from]);
        return true;
    }
    false
}

// A receiver's move, where it is plain: whether it was. It is then done, and no address is missing.
pub fn store_plain(cells: &mut [u16], memory: &mut [u16], unit: usize) -> bool
    requires { Fitted cells.old unit × (memory_length cells.old unit ≤ length memory.old) × (R.may_move (receiver_of cells.old unit) ≡ true) }
    ensures { ◌≡◌ {A = Result (Option ℕ) Refusal × List ℕ × List ℕ} (Ok None, cells.new, memory.new) (pick result (receiver_stored cells.old memory.old unit) (Ok None, cells.old, memory.old)) }
{
    let at = HEADER + unit * BLOCK + RECEIVER;
    if !is_plain_in(cells, at) {
        return false;
    }
    let head = Head::load(cells, at);
    let to = place(head.low, head.control);
    if to < memory_length(cells, unit) {
        let oldest = take_word(cells, at);
        memory[to] = oldest;
        return true;
    }
    false
}
