// A host's accesses to the registers of one side of a fitted unit: the side out of its window, the rule, and the side put back where the rule
// changes it. An access that changes nothing puts nothing back.
ghost use Rattle.std.specs.Prelude.{◌≡◌, List, ℕ, Result};
ghost use Rattle.cells.specs.Unit.{Same};
ghost use Rattle.words.specs.declared.answers.Refusal.{Refusal};
ghost use Rattle.words.specs.declared.answers.Write.{Write};
ghost use Rattle.accesses.specs.Sides.{found, accessed};

use crate::registers::Registers;
use cells::unit::Unit;
use words::answers::{Refusal, Write};

// A word read at an offset of the side.
pub fn read_side<S: Registers>(unit: &mut Unit<'_>, offset: u32) -> Result<u16, Refusal>
    ensures answer { ◌≡◌ {A = Result ℕ Refusal × List ℕ} (result, unit.new.cells.now) (accessed S.encoded S.PLACE S.SIZE unit.old.cells.now unit.old.number (S.removes (found S.decoded S.PLACE S.SIZE unit.old.cells.now unit.old.number) offset) (S.read_of (found S.decoded S.PLACE S.SIZE unit.old.cells.now unit.old.number) offset)) }
    ensures same { Same unit.old unit.new }
{
    let side = unit.side::<S>();
    if side.removes(offset) {
        let after = side.read(offset);
        unit.put(after.side);
        return after.answer;
    }
    side.read(offset).answer
}

// A word written at an offset of the side.
pub fn write_side<S: Registers>(
    unit: &mut Unit<'_>,
    offset: u32,
    word: u16,
) -> Result<Write, Refusal>
    ensures answer { ◌≡◌ {A = Result Write Refusal × List ℕ} (result, unit.new.cells.now) (accessed S.encoded S.PLACE S.SIZE unit.old.cells.now unit.old.number (S.changes offset) (S.written (found S.decoded S.PLACE S.SIZE unit.old.cells.now unit.old.number) offset word)) }
    ensures same { Same unit.old unit.new }
{
    let after = unit.side::<S>().write(offset, word);
    if S::changes(offset) {
        unit.put(after.side);
        return after.answer;
    }
    after.answer
}

// A byte written at an offset of the side.
pub fn write_side_byte<S: Registers>(
    unit: &mut Unit<'_>,
    offset: u32,
    byte: u8,
) -> Result<Write, Refusal>
    ensures answer { ◌≡◌ {A = Result Write Refusal × List ℕ} (result, unit.new.cells.now) (accessed S.encoded S.PLACE S.SIZE unit.old.cells.now unit.old.number (S.changes_byte offset) (S.byte_written (found S.decoded S.PLACE S.SIZE unit.old.cells.now unit.old.number) offset byte)) }
    ensures same { Same unit.old unit.new }
{
    let after = unit.side::<S>().write_byte(offset, byte);
    if S::changes_byte(offset) {
        unit.put(after.side);
        return after.answer;
    }
    after.answer
}
