// The calls at a unit: each is refused before its rules are looked at, or is one function on a fitted unit.
ghost use Rattle.pcl.specs.Outcomes.{ReadOutcome, WriteOutcome, ByteOutcome, ResetOutcome, PeriodOutcome};

use crate::units::admit;
use accesses::reading::read_unit;
use accesses::writing::{reset_unit, write_unit, write_unit_byte};
use words::answers::{Refusal, Write};

// A word read at an offset of the unit.
pub fn read(cells: &mut [u16], unit: u32, offset: u32) -> Result<u16, Refusal>
    ensures { ReadOutcome cells.old unit offset (result, cells.new) }
{
    admit(cells, unit)?;
    read_unit(cells, unit as usize, offset)
}

// A word written at an offset of the unit.
pub fn write(cells: &mut [u16], unit: u32, offset: u32, word: u16) -> Result<Write, Refusal>
    ensures { WriteOutcome cells.old unit offset word (result, cells.new) }
{
    admit(cells, unit)?;
    write_unit(cells, unit as usize, offset, word)
}

// A byte written at an offset of the unit.
pub fn write_byte(cells: &mut [u16], unit: u32, offset: u32, byte: u8) -> Result<Write, Refusal>
    ensures { ByteOutcome cells.old unit offset byte (result, cells.new) }
{
    admit(cells, unit)?;
    write_unit_byte(cells, unit as usize, offset, byte)
}

// The reset of the unit, both its sides.
pub fn reset(cells: &mut [u16], unit: u32) -> Result<(), Refusal>
    ensures { ResetOutcome cells.old unit (result, cells.new) }
{
    admit(cells, unit)?;
    reset_unit(cells, unit as usize);
    Ok(())
}

// A period of the unit, which its time-outs count.
pub fn pass_period(cells: &mut [u16], unit: u32) -> Result<(), Refusal>
    ensures { PeriodOutcome cells.old unit (result, cells.new) }
{
    admit(cells, unit)?;
    moves::periods::pass_period(cells, unit as usize);
    Ok(())
}
