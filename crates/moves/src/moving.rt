// A memory move at one side of a fitted unit. The lent memory may have more words than were fitted: those are not looked at.
ghost use Rattle.std.specs.Prelude.{◌≡◌, List, ℕ, ◌≤◌, length, true, Result, Ok, Option};
ghost use Rattle.cells.specs.Fitted.{Fitted, transmitter_of, receiver_of};
ghost use Rattle.cells.specs.Layout.{memory_length};
ghost use Rattle.moves.specs.Laws.Nothing.{has_moved};
ghost use Rattle.moves.specs.Moving.{transmitter_moved_by, transmitter_moved, receiver_moved_by, receiver_moved};
ghost use Rattle.receiver.specs.Moves as R;
ghost use Rattle.transmitter.specs.Moves as T;

use cells::sides::{put, side};
use cells::units::memory_length;
use plain_moves::moving::{load_plain, may_move_in, may_move_out, store_plain};
use receiver::side::Receiver;
use transmitter::side::Transmitter;
use words::answers::Refusal;

// The address in an answer that is no refusal.
fn missing_in(answer: Result<Option<u32>, Refusal>) -> Option<u32>
    ensures { has_moved answer ≡ true → Ok result ≡ answer }
{
    answer.unwrap_or(None)
}

// A transmitter's move by value, where there is something to move: the address that was missing. That is so few bits that it stands in
// no memory, where this function is not compiled into its caller.
fn move_out(cells: &mut [u16], memory: &[u16], unit: usize) -> Option<u32>
    requires { Fitted cells.old unit × (memory_length cells.old unit ≤ length memory.now) × (T.may_move (transmitter_of cells.old unit) ≡ true) }
    ensures { ◌≡◌ {A = Result (Option ℕ) Refusal × List ℕ} (Ok result, cells.new) (transmitter_moved_by cells.old unit (T.moved (transmitter_of cells.old unit) memory.now (memory_length cells.old unit))) }
{
    let t = side::<Transmitter>(cells, unit);
    let moved = transmitter::moves::move_word(t, memory, memory_length(cells, unit));
    put(cells, unit, moved.side);
    missing_in(moved.answer)
}

// The same with no look at whether it is plain, for a transfer after its runs of plain words. With two callers the move by value is no part
// of `move_transmitter`, which is then short enough to be compiled into the call of a single move.
pub fn move_transmitter_by_value(
    cells: &mut [u16],
    memory: &[u16],
    unit: usize,
) -> Result<Option<u32>, Refusal>
    requires { Fitted cells.old unit × (memory_length cells.old unit ≤ length memory.now) }
    ensures { ◌≡◌ {A = Result (Option ℕ) Refusal × List ℕ} (result, cells.new) (transmitter_moved cells.old memory.now unit) }
{
    if !may_move_out(cells, unit) {
        return Err(Refusal::Nothing);
    }
    Ok(move_out(cells, memory, unit))
}

// Most often there is nothing to move, or the move is plain.
pub fn move_transmitter(
    cells: &mut [u16],
    memory: &[u16],
    unit: usize,
) -> Result<Option<u32>, Refusal>
    requires { Fitted cells.old unit × (memory_length cells.old unit ≤ length memory.now) }
    ensures { ◌≡◌ {A = Result (Option ℕ) Refusal × List ℕ} (result, cells.new) (transmitter_moved cells.old memory.now unit) }
{
    if !may_move_out(cells, unit) {
        return Err(Refusal::Nothing);
    }
    if load_plain(cells, memory, unit) {
        return Ok(None);
    }
    Ok(move_out(cells, memory, unit))
}

// A receiver's move by value, likewise.
fn move_in(cells: &mut [u16], memory: &mut [u16], unit: usize) -> Option<u32>
    requires { Fitted cells.old unit × (memory_length cells.old unit ≤ length memory.old) × (R.may_move (receiver_of cells.old unit) ≡ true) }
    ensures { ◌≡◌ {A = Result (Option ℕ) Refusal × List ℕ × List ℕ} (Ok result, cells.new, memory.new) (receiver_moved_by cells.old unit (R.moved (receiver_of cells.old unit) memory.old (memory_length cells.old unit))) }
{
    let r = side::<Receiver>(cells, unit);
    let moved = receiver::moves::move_word(r, memory, memory_length(cells, unit));
    put(cells, unit, moved.side);
    missing_in(moved.answer)
}

pub fn move_receiver_by_value(
    cells: &mut [u16],
    memory: &mut [u16],
    unit: usize,
) -> Result<Option<u32>, Refusal>
    requires { Fitted cells.old unit × (memory_length cells.old unit ≤ length memory.old) }
    ensures { ◌≡◌ {A = Result (Option ℕ) Refusal × List ℕ × List ℕ} (result, cells.new, memory.new) (receiver_moved cells.old memory.old unit) }
{
    if !may_move_in(cells, unit) {
        return Err(Refusal::Nothing);
    }
    Ok(move_in(cells, memory, unit))
}

pub fn move_receiver(
    cells: &mut [u16],
    memory: &mut [u16],
    unit: usize,
) -> Result<Option<u32>, Refusal>
    requires { Fitted cells.old unit × (memory_length cells.old unit ≤ length memory.old) }
    ensures { ◌≡◌ {A = Result (Option ℕ) Refusal × List ℕ × List ℕ} (result, cells.new, memory.new) (receiver_moved cells.old memory.old unit) }
{
    if !may_move_in(cells, unit) {
        return Err(Refusal::Nothing);
    }
    if store_plain(cells, memory, unit) {
        return Ok(None);
    }
    Ok(move_in(cells, memory, unit))
}
