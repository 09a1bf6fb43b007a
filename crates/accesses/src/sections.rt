// A host's accesses to the master section of one fitted unit: TMMR, and what TX INIT does there.
ghost use Rattle.std.specs.Prelude.{◌≡◌, List, ℕ, Result};
ghost use Rattle.master.specs.Side.{Within};
ghost use Rattle.cells.specs.Layout.{holder_in};
ghost use Rattle.cells.specs.Unit.{Same};
ghost use Rattle.accesses.specs.Masters.{mastership_of};
ghost use Rattle.accesses.specs.Reading.{master_read};
ghost use Rattle.accesses.specs.Writing.{section_reset, after_master, master_written, master_low_written, master_high_written};

use crate::masters::{next_holder, release, see_master};
use cells::unit::Unit;
use cells::units::set_master;
use master::registers::{Written, removes, takes_address};
use master::side::{Master, Mastership};
use transmitter::side::Transmitter;
use words::answers::{Refusal, Write};

pub fn read_section(unit: &mut Unit<'_>) -> Result<u16, Refusal>
    ensures answer { ◌≡◌ {A = Result ℕ Refusal × List ℕ} (result, unit.new.cells.now) (master_read unit.old.cells.now unit.old.number) }
    ensures same { Same unit.old unit.new }
{
    let mastership = mastership(unit);
    let t = unit.side::<Transmitter>();
    let silo = t.modes.read_silo;
    let section = unit.side::<Master>();
    let reading = section.read(mastership, t.end.opened, silo);
    if removes(section, silo) {
        unit.put(reading.side);
        return Ok(reading.word);
    }
    Ok(reading.word)
}

// Who has MASTER, seen from the unit.
fn mastership(unit: &Unit<'_>) -> Mastership
    ensures { result ≡ mastership_of (holder_in unit.now.cells.now) unit.now.number }
{
    let number = unit.number;
    let cells = &*unit.cells;
    see_master(cells, number)
}

// The section is put back, and the header says who has MASTER.
fn store_section(unit: &mut Unit<'_>, written: Written) -> Result<Write, Refusal>
    requires { Within written.side }
    ensures answer { ◌≡◌ {A = Result Write Refusal × List ℕ} (result, unit.new.cells.now) (after_master unit.old.cells.now unit.old.number written) }
    ensures same { Same unit.old unit.new }
{
    let number = unit.number;
    let cells = &mut *unit.cells;
    let next = next_holder(cells, number, written.mastership);
    unit.put(written.side);
    set_master(unit.cells, next);
    written.answer
}

pub fn write_section(unit: &mut Unit<'_>, word: u16) -> Result<Write, Refusal>
    ensures answer { ◌≡◌ {A = Result Write Refusal × List ℕ} (result, unit.new.cells.now) (master_written unit.old.cells.now unit.old.number word) }
    ensures same { Same unit.old unit.new }
{
    let mastership = mastership(unit);
    let silo = unit.side::<Transmitter>().modes.read_silo;
    let section = unit.side::<Master>();
    let written = section.write_word(mastership, silo, word);
    store_section(unit, written)
}

pub fn write_section_low(unit: &mut Unit<'_>, byte: u8) -> Result<Write, Refusal>
    ensures answer { ◌≡◌ {A = Result Write Refusal × List ℕ} (result, unit.new.cells.now) (master_low_written unit.old.cells.now unit.old.number byte) }
    ensures same { Same unit.old unit.new }
{
    let silo = unit.side::<Transmitter>().modes.read_silo;
    let section = unit.side::<Master>();
    if !takes_address(section, silo) {
        return Ok(Write::Dropped);
    }
    let mastership = mastership(unit);
    let written = section.write_low(mastership, silo, byte);
    store_section(unit, written)
}

pub fn write_section_high(unit: &mut Unit<'_>, byte: u8) -> Result<Write, Refusal>
    ensures answer { ◌≡◌ {A = Result Write Refusal × List ℕ} (result, unit.new.cells.now) (master_high_written unit.old.cells.now unit.old.number byte) }
    ensures same { Same unit.old unit.new }
{
    let mastership = mastership(unit);
    let section = unit.side::<Master>();
    let written = section.write_high(mastership, byte);
    store_section(unit, written)
}

pub fn reset_section(unit: &mut Unit<'_>)
    ensures reset { unit.new.cells.now ≡ section_reset unit.old.cells.now unit.old.number }
    ensures same { Same unit.old unit.new }
{
    let number = unit.number;
    let cells = &mut *unit.cells;
    let next = release(cells, number);
    let section = unit.side::<Master>();
    unit.put(section.init());
    set_master(unit.cells, next);
}
