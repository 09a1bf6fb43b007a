// A word read at one fitted unit. Only a read that removes something puts its side back.
ghost use Rattle.std.specs.Prelude.{◌≡◌, List, ℕ, Result};
ghost use Rattle.cells.specs.Fitted.{Fitted};
ghost use Rattle.cells.specs.Unit.{Same};
ghost use Rattle.accesses.specs.Reading.{unit_read};

use crate::offsets::{RCR, TMMR};
use crate::sections::read_section;
use crate::sides::read_side;
use cells::unit::Unit;
use receiver::side::Receiver;
use transmitter::side::Transmitter;
use words::answers::Refusal;

fn read_fitted(unit: &mut Unit<'_>, offset: u32) -> Result<u16, Refusal>
    ensures answer { ◌≡◌ {A = Result ℕ Refusal × List ℕ} (result, unit.new.cells.now) (unit_read unit.old.cells.now unit.old.number offset) }
    ensures same { Same unit.old unit.new }
{
    if offset == TMMR {
        return read_section(unit);
    }
    if offset < RCR {
        return read_side::<Transmitter>(unit, offset);
    }
    read_side::<Receiver>(unit, offset)
}

// A word read at an offset of a unit.
pub fn read_unit(cells: &mut [u16], unit: usize, offset: u32) -> Result<u16, Refusal>
    requires { Fitted cells.old unit }
    ensures { ◌≡◌ {A = Result ℕ Refusal × List ℕ} (result, cells.new) (unit_read cells.old unit offset) }
{
    read_fitted(&mut Unit::new(cells, unit), offset)
}
