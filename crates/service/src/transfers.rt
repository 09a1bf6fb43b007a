// A whole transfer at one side of a fitted unit: its plain words in a run, and in a second where the ring goes round; then single moves, one
// after the other.
ghost use Rattle.std.specs.Prelude.{List, ◌≡◌, ℕ, ◌-◌, ◌≤◌, length, Result};
ghost use Rattle.cells.specs.Fitted.{Fitted};
ghost use Rattle.cells.specs.Layout.{memory_length};
ghost use Rattle.service.specs.Transfers.{lent, left_by, cells_left_by, words_out, words_with, words_in, transmitter_transferred, receiver_transferred};
ghost use Rattle.service.specs.Laws.Turns.{is_done, ended_by};

use crate::runs::{run_in, run_out};
use cells::layout::{BLOCK, HEADER, RECEIVER};
use codec::end_cells::LOADED;
use codec::head::Head;
use moves::moving::{move_receiver_by_value, move_transmitter_by_value};
use plain_moves::moving::{may_move_in, may_move_out};
use words::answers::Refusal;
use words::bits::bits_at;

// So many words were moved, and where a move found no memory at its address, that address: the last one's.
#[derive(Clone, Copy)]
pub struct Transfer {
    pub words: u16,
    pub missing: Option<u32>,
}

// A silo holds 64 words, so that the last of so many moves finds nothing to move.
const MOST: u16 = 65;

fn is_done(answer: Result<Option<u32>, Refusal>) -> bool
    ensures { result ≡ is_done answer }
{
    matches!(answer, Ok(None))
}

// What the move that ended it makes of the words moved before it.
fn ended_by(answer: Result<Option<u32>, Refusal>, words: u16) -> Result<Transfer, Refusal>
    ensures { result ≡ ended_by answer words }
{
    Ok(Transfer {
        words,
        missing: answer.unwrap_or(None),
    })
}

// Single moves by value from here on, after so many words. The next one is not plain, or there is none; plain ones behind it, as where an
// address goes on past 64 KB in mid-transfer, are few, and go the same way.
fn go_on_out(
    cells: &mut [u16],
    memory: &[u16],
    unit: usize,
    before: u16,
) -> Result<Transfer, Refusal>
    requires { Fitted cells.old unit × (memory_length cells.old unit ≤ length memory.now) × (before ≤ 65) }
    ensures { ◌≡◌ {A = Result Transfer Refusal × List ℕ} (result, cells.new) (cells_left_by (words_out unit (65 - before) before (lent cells.old memory.now))) }
{
    for words in before..MOST {
        let answer = move_transmitter_by_value(cells, memory, unit);
        if !is_done(answer) {
            return ended_by(answer, words);
        }
    }
    Ok(Transfer {
        words: MOST,
        missing: None,
    })
}

pub fn move_all_out(cells: &mut [u16], memory: &[u16], unit: usize) -> Result<Transfer, Refusal>
    requires { Fitted cells.old unit × (memory_length cells.old unit ≤ length memory.now) }
    ensures { ◌≡◌ {A = Result Transfer Refusal × List ℕ} (result, cells.new) (transmitter_transferred cells.old memory.now unit) }
{
    if !may_move_out(cells, unit) {
        return Err(Refusal::Nothing);
    }
    let first = run_out(cells, memory, unit, 0);
    let words = run_out(cells, memory, unit, first);
    go_on_out(cells, memory, unit, words)
}

// 1 where RDBC is loaded, so that a word goes with a move that is done.
fn words_with(cells: &[u16], unit: usize) -> u16
    requires { Fitted cells.now unit }
    ensures { result ≡ words_with cells.now unit }
{
    let head = Head::load(cells, HEADER + unit * BLOCK + RECEIVER);
    bits_at(head.control, LOADED, 1)
}

// The same, after so many that each moved a word.
fn go_on_in(
    cells: &mut [u16],
    memory: &mut [u16],
    unit: usize,
    before: u16,
) -> Result<Transfer, Refusal>
    requires { Fitted cells.old unit × (memory_length cells.old unit ≤ length memory.old) × (before ≤ 65) }
    ensures { ◌≡◌ {A = Result Transfer Refusal × List ℕ × List ℕ} (result, cells.new, memory.new) (left_by (words_in unit (65 - before) before (lent cells.old memory.old))) }
{
    let mut words = before;
    for _moves in before..MOST {
        let with = words_with(cells, unit);
        let answer = move_receiver_by_value(cells, memory, unit);
        if !is_done(answer) {
            return ended_by(answer, words);
        }
        words += with;
    }
    Ok(Transfer {
        words,
        missing: None,
    })
}

pub fn move_all_in(cells: &mut [u16], memory: &mut [u16], unit: usize) -> Result<Transfer, Refusal>
    requires { Fitted cells.old unit × (memory_length cells.old unit ≤ length memory.old) }
    ensures { ◌≡◌ {A = Result Transfer Refusal × List ℕ × List ℕ} (result, cells.new, memory.new) (receiver_transferred cells.old memory.old unit) }
{
    if !may_move_in(cells, unit) {
        return Err(Refusal::Nothing);
    }
    let first = run_in(cells, memory, unit, 0);
    let words = run_in(cells, memory, unit, first);
    go_on_in(cells, memory, unit, words)
}
