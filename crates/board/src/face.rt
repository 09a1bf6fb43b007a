// The calls as C has them: plain numbers and slices, and an answer's number with its value above it.
ghost use Rattle.std.specs.Prelude.{◌≡◌};
ghost use Rattle.board.specs.Outcomes.{ReadFaceOutcome, BuildFaceOutcome, ReceiveFaceOutcome, CollectFaceOutcome};
ghost use Rattle.board.specs.Numbers.{receive_packed, collect_packed};
ghost use Rattle.readings.specs.Numbers.{read_number, read_call_packed, built_number, built_packed};

use crate::answers::{CollectError, ReceiveError, Received};
use crate::collecting::collect;
use crate::receiving::receive;
use readings::answers::{BuildError, ReadError, View};
use readings::building::build;
use readings::reading::{count_of, read_numbers};

fn number_read(answer: Result<View, ReadError>) -> u32
    ensures { result ≡ read_number answer }
{
    match answer {
        Ok(_) => 0,
        Err(error) => error.into(),
    }
}

fn pack_read(answer: Result<View, ReadError>) -> u32
    ensures { result ≡ read_call_packed answer }
{
    let Ok(view) = answer else {
        return number_read(answer);
    };
    u32::from(count_of(view)) * 65536
}

// A count and a serial take 16 bits each.
fn pack_receive(answer: Result<Received, ReceiveError>) -> u64
    ensures { result ≡ receive_packed answer }
{
    match answer {
        Ok(received) => (u64::from(count_of(received.view)) + u64::from(received.serial) * 65536)
            * 65536,
        Err(ReceiveError::NoRoom) => 9,
        Err(ReceiveError::Link(refusal)) => u64::from(u32::from(refusal)) + 16,
        Err(ReceiveError::Message(error, _)) => u64::from(u32::from(error)),
    }
}

fn number_built(answer: Result<u16, BuildError>) -> u32
    ensures { result ≡ built_number answer }
{
    match answer {
        Ok(_) => 0,
        Err(error) => error.into(),
    }
}

fn pack_built(answer: Result<u16, BuildError>) -> u32
    ensures { result ≡ built_packed answer }
{
    let Ok(words) = answer else {
        return number_built(answer);
    };
    u32::from(words) * 65536
}

// An address takes 18 bits.
fn pack_collected(answer: Result<u16, CollectError>) -> u64
    ensures { result ≡ collect_packed answer }
{
    match answer {
        Ok(moves) => u64::from(moves) * 65536,
        Err(CollectError::Missing(address)) => u64::from(address) * 65536 + 8,
        Err(CollectError::Link(refusal)) => u64::from(u32::from(refusal)) + 16,
    }
}

#[unsafe(no_mangle)]
pub extern "C" fn board_build(kind: u32, readings: &[u32], message: &mut [u16]) -> u32
    ensures { BuildFaceOutcome kind readings.now message.old (result, message.new) }
{
    pack_built(build(kind, readings, message))
}

#[unsafe(no_mangle)]
pub extern "C" fn board_read(kind: u32, complete: u32, message: &[u16], readings: &mut [u32]) -> u32
    ensures { ReadFaceOutcome kind complete message.now readings.old (result, readings.new) }
{
    pack_read(read_numbers(kind, complete != 0, message, readings))
}

#[unsafe(no_mangle)]
pub extern "C" fn board_receive(
    kind: u32,
    cells: &mut [u16],
    memory: &[u16],
    unit: u32,
    first: u32,
    readings: &mut [u32],
) -> u64
    ensures { ReceiveFaceOutcome kind cells.old memory.now unit first readings.old (result, cells.new, readings.new) }
{
    pack_receive(receive(kind, cells, memory, unit, first, readings))
}

#[unsafe(no_mangle)]
pub extern "C" fn board_collect(cells: &mut [u16], memory: &mut [u16], unit: u32) -> u64
    ensures { CollectFaceOutcome cells.old memory.old unit (result, cells.new, memory.new) }
{
    pack_collected(collect(cells, memory, unit))
}
