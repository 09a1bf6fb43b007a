// The calls of the crate board as C has them, by the names of include/board.h: this crate's archive is libboard.a. Each export calls the
// function of its name in the face of board, and says its clauses again.
#![tactic(auto)]

ghost use Rattle.board.specs.Outcomes.{ReadFaceOutcome, BuildFaceOutcome, ReceiveFaceOutcome, CollectFaceOutcome};

#[unsafe(no_mangle)]
pub extern "C" fn board_build(kind: u32, readings: &[u32], message: &mut [u16]) -> u32
    ensures { BuildFaceOutcome kind readings.now message.old (result, message.new) }
{
    board::face::board_build(kind, readings, message)
}

#[unsafe(no_mangle)]
pub extern "C" fn board_read(kind: u32, complete: u32, message: &[u16], readings: &mut [u32]) -> u32
    ensures { ReadFaceOutcome kind complete message.now readings.old (result, readings.new) }
{
    board::face::board_read(kind, complete, message, readings)
}

#[unsafe(no_mangle)]
pub extern "C" fn board_receive(
    kind: u32,
    cells: &mut [u16],
    memory: &[u16],
    unit: u32,
    first: u32,
    readings: &mut [u32],
) -> u64
    ensures { ReceiveFaceOutcome kind cells.old memory.now unit first readings.old (result, cells.new, readings.new) }
{
    board::face::board_receive(kind, cells, memory, unit, first, readings)
}

#[unsafe(no_mangle)]
pub extern "C" fn board_collect(cells: &mut [u16], memory: &mut [u16], unit: u32) -> u64
    ensures { CollectFaceOutcome cells.old memory.old unit (result, cells.new, memory.new) }
{
    board::face::board_collect(cells, memory, unit)
}
