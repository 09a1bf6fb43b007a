// Which sides want service, one bit for each: bit u for the transmitter of unit u, bit 16 + u for its receiver. Nothing changes.
ghost use Rattle.std.specs.Prelude.{true, ◌≡◌};
ghost use Rattle.cells.specs.Fitted.{Fitted, transmitter_of, receiver_of};
ghost use Rattle.cells.specs.Ranges.{in_range};
ghost use Rattle.cells.specs.Layout.{count_in};
ghost use Rattle.receiver.specs.Moves as R;
ghost use Rattle.receiver.specs.Requests as RR;
ghost use Rattle.service.specs.Wants.{mask_of, moves_wanted, interrupts_wanted};
ghost use Rattle.transmitter.specs.Moves as T;
ghost use Rattle.transmitter.specs.Requests as TR;

use crate::levels::{receiver_level, transmitter_level};
use cells::layout::{BLOCK, HEADER, RECEIVER, TRANSMITTER};
use cells::units::count;
use codec::end_cells::{CONTROL, RING};
use codec::head::Head;
use plain_moves::moving::{may_move_in, may_move_out};
use words::bits::{bit_at, rcr, tcr};

// Whether a transmitter may move. TX NPR and room are looked at first, one after the other and each by its cell alone: most sides have TX
// NPR clear, or send and have a full silo. Of a head that is loaded at once the compiler tests the ring before the bit.
fn wants_out(cells: &[u16], unit: usize) -> bool
    requires { Fitted cells.now unit }
    ensures { result ≡ T.may_move (transmitter_of cells.now unit) }
{
    let at = HEADER + unit * BLOCK + TRANSMITTER;
    if !bit_at(cells[at + CONTROL], tcr::TX_NPR) {
        return false;
    }
    if cells[at + RING] >= 4096 {
        return false;
    }
    may_move_out(cells, unit)
}

// Whether a receiver may, by RC NPR first.
fn wants_in(cells: &[u16], unit: usize) -> bool
    requires { Fitted cells.now unit }
    ensures { result ≡ R.may_move (receiver_of cells.now unit) }
{
    let head = Head::load(cells, HEADER + unit * BLOCK + RECEIVER);
    if !bit_at(head.control, rcr::RC_NPR) {
        return false;
    }
    may_move_in(cells, unit)
}

// What may be asked of the two sides of a fitted unit.
trait Asked {
    ghost use Rattle.std.specs.Prelude.{◌≡◌, Bool, List, ℕ};
    ghost use Rattle.cells.specs.Fitted.{Fitted};

    ghost sends: { List ℕ → ℕ → Bool };

    ghost receives: { List ℕ → ℕ → Bool };

    fn of_transmitter(cells: &[u16], unit: usize) -> bool
        requires { Fitted cells.now unit }
        ensures { result ≡ sends cells.now unit };

    fn of_receiver(cells: &[u16], unit: usize) -> bool
        requires { Fitted cells.now unit }
        ensures { result ≡ receives cells.now unit };
}

// Whether it may move.
struct Moves;

impl Asked for Moves {
    ghost sends = { λ cells unit. T.may_move (transmitter_of cells unit) };

    ghost receives = { λ cells unit. R.may_move (receiver_of cells unit) };

    fn of_transmitter(cells: &[u16], unit: usize) -> bool {
        wants_out(cells, unit)
    }

    fn of_receiver(cells: &[u16], unit: usize) -> bool {
        wants_in(cells, unit)
    }
}

// Whether its interrupt level stands.
struct Interrupts;

impl Asked for Interrupts {
    ghost sends = { λ cells unit. TR.level_of (transmitter_of cells unit) };

    ghost receives = { λ cells unit. RR.level_of (receiver_of cells unit) };

    fn of_transmitter(cells: &[u16], unit: usize) -> bool {
        transmitter_level(cells, unit)
    }

    fn of_receiver(cells: &[u16], unit: usize) -> bool {
        receiver_level(cells, unit)
    }
}

// The sides that say yes, a bit for each. The last unit's bits are the highest.
fn mask_by<A: Asked>(cells: &[u16]) -> u32
    requires { in_range cells.now ≡ true }
    ensures { result ≡ mask_of (A.sends cells.now) (A.receives cells.now) (count_in cells.now) }
{
    let units = count(cells);
    let mut senders: u32 = 0;
    let mut receivers: u32 = 0;
    for unit in (0..units).rev() {
        senders = senders * 2 + A::of_transmitter(cells, unit) as u32;
        receivers = receivers * 2 + A::of_receiver(cells, unit) as u32;
    }
    senders + receivers * 65536
}

// The sides at which a move would not answer 4.
pub fn wants_moves(cells: &[u16]) -> u32
    requires { in_range cells.now ≡ true }
    ensures { result ≡ moves_wanted cells.now }
{
    mask_by::<Moves>(cells)
}

// The sides whose interrupt level stands.
pub fn wants_interrupts(cells: &[u16]) -> u32
    requires { in_range cells.now ≡ true }
    ensures { result ≡ interrupts_wanted cells.now }
{
    mask_by::<Interrupts>(cells)
}
