// A word or a byte written at one fitted unit, and its reset. A write that changes nothing puts nothing back.
ghost use Rattle.std.specs.Prelude.{◌≡◌, List, ℕ, Result, Ok};
ghost use Rattle.cells.specs.Fitted.{Fitted};
ghost use Rattle.cells.specs.Unit.{Same};
ghost use Rattle.accesses.specs.Writing.{transmitter_reset, unit_reset, unit_written, unit_byte_written};

use crate::offsets::{RCR, TCR, TMMR, TMMR_HIGH};
use crate::sections::{reset_section, write_section, write_section_high, write_section_low};
use crate::sides::{write_side, write_side_byte};
use cells::unit::Unit;
use ends::sides::Side;
use receiver::side::Receiver;
use transmitter::side::Transmitter;
use transmitter_registers::registers::asks_init;
use words::answers::{Refusal, Write};

// ---- TX INIT and reset: a side as it starts, but for its serial, which stays

fn reset_transmitter(unit: &mut Unit<'_>)
    ensures reset { unit.new.cells.now ≡ transmitter_reset unit.old.cells.now unit.old.number }
    ensures same { Same unit.old unit.new }
{
    let before = unit.side::<Transmitter>();
    reset_section(unit);
    unit.put(Transmitter::start(before.end.serial));
}

fn reset_fitted(unit: &mut Unit<'_>)
    ensures reset { unit.new.cells.now ≡ unit_reset unit.old.cells.now unit.old.number }
    ensures same { Same unit.old unit.new }
{
    let before = unit.side::<Receiver>();
    reset_transmitter(unit);
    unit.put(Receiver::start(before.end.serial));
}

// Both sides of a unit reset.
pub fn reset_unit(cells: &mut [u16], unit: usize)
    requires { Fitted cells.old unit }
    ensures { cells.new ≡ unit_reset cells.old unit }
{
    reset_fitted(&mut Unit::new(cells, unit));
}

// ---- a word

fn write_fitted(unit: &mut Unit<'_>, offset: u32, word: u16) -> Result<Write, Refusal>
    ensures answer { ◌≡◌ {A = Result Write Refusal × List ℕ} (result, unit.new.cells.now) (unit_written unit.old.cells.now unit.old.number offset word) }
    ensures same { Same unit.old unit.new }
{
    if (offset == TCR) & asks_init(word) {
        reset_transmitter(unit);
        return Ok(Write::Done);
    }
    if offset == TMMR {
        return write_section(unit, word);
    }
    if offset < RCR {
        return write_side::<Transmitter>(unit, offset, word);
    }
    write_side::<Receiver>(unit, offset, word)
}

// A word written at an offset of a unit.
pub fn write_unit(cells: &mut [u16], unit: usize, offset: u32, word: u16) -> Result<Write, Refusal>
    requires { Fitted cells.old unit }
    ensures { ◌≡◌ {A = Result Write Refusal × List ℕ} (result, cells.new) (unit_written cells.old unit offset word) }
{
    write_fitted(&mut Unit::new(cells, unit), offset, word)
}

// ---- a byte

fn write_fitted_byte(unit: &mut Unit<'_>, offset: u32, byte: u8) -> Result<Write, Refusal>
    ensures answer { ◌≡◌ {A = Result Write Refusal × List ℕ} (result, unit.new.cells.now) (unit_byte_written unit.old.cells.now unit.old.number offset byte) }
    ensures same { Same unit.old unit.new }
{
    if (offset == TCR) & asks_init(byte as u16) {
        reset_transmitter(unit);
        return Ok(Write::Done);
    }
    if offset == TMMR {
        return write_section_low(unit, byte);
    }
    if offset == TMMR_HIGH {
        return write_section_high(unit, byte);
    }
    if offset < RCR {
        return write_side_byte::<Transmitter>(unit, offset, byte);
    }
    write_side_byte::<Receiver>(unit, offset, byte)
}

// A byte written at an offset of a unit.
pub fn write_unit_byte(
    cells: &mut [u16],
    unit: usize,
    offset: u32,
    byte: u8,
) -> Result<Write, Refusal>
    requires { Fitted cells.old unit }
    ensures { ◌≡◌ {A = Result Write Refusal × List ℕ} (result, cells.new) (unit_byte_written cells.old unit offset byte) }
{
    write_fitted_byte(&mut Unit::new(cells, unit), offset, byte)
}
