// What an emulator asks after every slice: which sides want service, and a whole transfer at once.
ghost use Rattle.pcl.specs.Outcomes.{WantsMovesOutcome, WantsInterruptsOutcome, TransferOutcome};

use crate::units::{Which, admit};
use cells::ranges::in_range;
use cells::units::memory_length;
use service::transfers::{Transfer, move_all_in, move_all_out};
use words::answers::Refusal;

// A bit for each side at which a move would find anything to move.
pub fn wants_moves(cells: &[u16]) -> Result<u32, Refusal>
    ensures { WantsMovesOutcome cells.now result }
{
    if !in_range(cells) {
        return Err(Refusal::BadState);
    }
    Ok(service::wants::wants_moves(cells))
}

// A bit for each side whose interrupt level stands.
pub fn wants_interrupts(cells: &[u16]) -> Result<u32, Refusal>
    ensures { WantsInterruptsOutcome cells.now result }
{
    if !in_range(cells) {
        return Err(Refusal::BadState);
    }
    Ok(service::wants::wants_interrupts(cells))
}

// A whole transfer at a side. The memory is that of the unit, of its fitted length or more; a unit that is not fitted asks for none.
pub fn move_all(
    cells: &mut [u16],
    memory: &mut [u16],
    unit: u32,
    side: u32,
) -> Result<Transfer, Refusal>
    ensures { TransferOutcome cells.old memory.old unit side (result, cells.new, memory.new) }
{
    admit(cells, unit)?;
    let unit = unit as usize;
    if memory.len() < memory_length(cells, unit) {
        return Err(Refusal::BadState);
    }
    match Which::try_from(side)? {
        Which::Transmitter => move_all_out(cells, memory, unit),
        Which::Receiver => move_all_in(cells, memory, unit),
    }
}
