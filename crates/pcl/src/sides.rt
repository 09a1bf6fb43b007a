// The calls at one side of a unit: 0 its transmitter, 1 its receiver.
ghost use Rattle.pcl.specs.Outcomes.{MoveOutcome, LevelOutcome, SerialOutcome};

use crate::units::{Which, admit};
use cells::units::memory_length;
use moves::moving::{move_receiver, move_transmitter};
use moves::serials::serial as serial_of;
use receiver::side::Receiver;
use service::levels::{receiver_level, transmitter_level};
use transmitter::side::Transmitter;
use words::answers::Refusal;

// A memory move, and the address where one was missing. The memory is that of the unit, of its fitted length or more; a unit that is not
// fitted asks for none.
pub fn move_word(
    cells: &mut [u16],
    memory: &mut [u16],
    unit: u32,
    side: u32,
) -> Result<Option<u32>, Refusal>
    ensures { MoveOutcome cells.old memory.old unit side (result, cells.new, memory.new) }
{
    admit(cells, unit)?;
    let unit = unit as usize;
    if memory.len() < memory_length(cells, unit) {
        return Err(Refusal::BadState);
    }
    match Which::try_from(side)? {
        Which::Transmitter => move_transmitter(cells, memory, unit),
        Which::Receiver => move_receiver(cells, memory, unit),
    }
}

// Whether the interrupt level of a side stands.
pub fn level(cells: &[u16], unit: u32, side: u32) -> Result<bool, Refusal>
    ensures { LevelOutcome cells.now unit side result }
{
    admit(cells, unit)?;
    match Which::try_from(side)? {
        Which::Transmitter => Ok(transmitter_level(cells, unit as usize)),
        Which::Receiver => Ok(receiver_level(cells, unit as usize)),
    }
}

// The serial of a side.
pub fn serial(cells: &[u16], unit: u32, side: u32) -> Result<u16, Refusal>
    ensures { SerialOutcome cells.now unit side result }
{
    admit(cells, unit)?;
    match Which::try_from(side)? {
        Which::Transmitter => Ok(serial_of::<Transmitter>(cells, unit as usize)),
        Which::Receiver => Ok(serial_of::<Receiver>(cells, unit as usize)),
    }
}
