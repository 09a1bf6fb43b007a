// A call of a script: performed, and the line that it prints.
#![tactic(auto)]

ghost use Rattle.std.specs.Prelude.{List, Result, ◌≡◌, ℕ, ◌≤◌, ◌<◌, length, drop};
ghost use Rattle.words.specs.declared.answers.Refusal.{Refusal};
ghost use Rattle.pcl.specs.Link.{fit_call};
ghost use Rattle.pcl.specs.Numbers.{read_packed, level_packed};
ghost use Rattle.script.specs.SetUps.{set_up_of};
ghost use Rattle.performing.specs.Laws.LineLaws.{slice_says, move_says};
ghost use Rattle.performing.specs.Perform.{call_line, read_line, level_line, Outcome, fit_performed, move_performed, performed};

use bus::slice::Given;
use pcl::calls::{pass_period, read, reset, write, write_byte};
use pcl::link::{fit, slice};
use pcl::packing::Value;
use pcl::sides::{level, move_word};
use script::calls::Call;
use script::lines::Line;
use script::setups::{NUMBERS, put_set_up};
use words::answers::{Refusal, word_read};

// Document 01's number of an answer.
fn number_of<V: Value>(answer: Result<V, Refusal>) -> u32
    ensures number { result ≡ V.number_in answer }
    ensures low { result < 65536 }
{
    match answer {
        Ok(value) => value.number() as u32,
        Err(refusal) => refusal.into(),
    }
}

// A call that shows its number alone.
fn call_line<V: Value>(kind: u32, answer: Result<V, Refusal>) -> Line
    ensures { result ≡ call_line kind (V.number_in answer) }
{
    Line::Call {
        kind,
        number: number_of(answer),
    }
}

// A read shows the word, 0 where there is none.
#[tactic(auto, using(crate::specs::Laws::LineLaws::read_line_lem))]
fn read_line(answer: Result<u16, Refusal>) -> Line
    ensures { result ≡ read_line (read_packed answer) }
{
    Line::Read {
        number: number_of(answer),
        word: word_read(answer) as u32,
    }
}

// An interrupt level shows 0 or 1.
#[tactic(auto, using(crate::specs::Laws::LineLaws::level_line_lem))]
fn level_line(answer: Result<bool, Refusal>) -> Line
    ensures { result ≡ level_line (level_packed answer) }
{
    Line::Level {
        number: number_of(answer),
        level: u32::from(answer.unwrap_or(false)),
    }
}

// A slice shows the address, A and B; one that gave none of them shows zeros behind its number.
fn slice_line(answer: Result<Option<Given>, Refusal>) -> Line
    ensures { result ≡ slice_says answer }
{
    match answer {
        Ok(Some(given)) => Line::Slice {
            number: 0,
            address: given.address as u32,
            a: given.codes.a as u32,
            b: given.codes.b as u32,
        },
        _ => Line::Slice {
            number: number_of(answer),
            address: 0,
            a: 0,
            b: 0,
        },
    }
}

// A move that missed an address shows it, and any other its number alone.
fn move_line(answer: Result<Option<u32>, Refusal>) -> Line
    ensures { result ≡ move_says answer }
{
    match answer {
        Ok(Some(address)) => Line::Missing { address },
        _ => Line::Call {
            kind: 5,
            number: number_of(answer),
        },
    }
}

// Where the set-ups of a fit stand in its record: behind length, kind and count.
const SET_UPS: usize = 5;

fn fit_cells(bytes: &[u8], count: u8, cells: &mut [u16]) -> Result<(), Refusal>
    ensures { ◌≡◌ {A = Result (Unit {0}) Refusal × List ℕ} (result, cells.new) (fit_call cells.old (set_up_of (drop 5 bytes.now) count)) }
{
    let mut numbers = [0u32; NUMBERS];
    let held = put_set_up(bytes, SET_UPS, count, &mut numbers);
    fit(cells, &numbers[..held])
}

// A fit that is done gives zero memories again.
fn perform_fit(bytes: &[u8], count: u8, cells: &mut [u16], memories: &mut [u16]) -> Line
    ensures { ◌≡◌ {A = Outcome} (result, cells.new, memories.new) (fit_performed (drop 5 bytes.now) count cells.old memories.old) }
{
    let answer = fit_cells(bytes, count, cells);
    if answer.is_ok() {
        memories.fill(0);
    }
    call_line(1, answer)
}

fn perform_move(unit: u8, side: u8, cells: &mut [u16], memories: &mut [u16]) -> Line
    requires { 1024 ≤ length memories.old }
    ensures { ◌≡◌ {A = Outcome} (result, cells.new, memories.new) (move_performed unit side cells.old memories.old) }
{
    let from = unit as usize % 16 * 64;
    let to = from + 64;
    move_line(move_word(cells, &mut memories[from..to], unit as u32, side as u32))
}

// The bytes begin with the call's record, where a fit has its set-ups.
pub fn perform(call: Call, bytes: &[u8], cells: &mut [u16], memories: &mut [u16]) -> Line
    requires { 1024 ≤ length memories.old }
    ensures { ◌≡◌ {A = Outcome} (result, cells.new, memories.new) (performed bytes.now cells.old memories.old call) }
{
    match call {
        Call::Fit { count } => perform_fit(bytes, count, cells, memories),
        Call::WordWrite { unit, offset, word } => call_line(
            2,
            write(cells, unit as u32, offset as u32, word),
        ),
        Call::WordRead { unit, offset } => read_line(read(cells, unit as u32, offset as u32)),
        Call::Slice { mask, parity } => slice_line(slice(cells, mask, parity as u32)),
        Call::Move { unit, side } => perform_move(unit, side, cells, memories),
        Call::Period { unit } => call_line(6, pass_period(cells, unit as u32)),
        Call::Reset { unit } => call_line(7, reset(cells, unit as u32)),
        Call::ByteWrite { unit, offset, byte } => call_line(
            8,
            write_byte(cells, unit as u32, offset as u32, byte),
        ),
        Call::Level { unit, side } => level_line(level(cells, unit as u32, side as u32)),
    }
}
