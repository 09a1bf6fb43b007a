// The calls as C has them: plain numbers and slices.
ghost use Rattle.pcl.specs.Outcomes.{FitFaceOutcome, ReadFaceOutcome, WriteFaceOutcome, ByteFaceOutcome, ResetFaceOutcome, SliceFaceOutcome, MoveFaceOutcome, PeriodFaceOutcome, LevelFaceOutcome, SerialFaceOutcome, WantsMovesFaceOutcome, WantsInterruptsFaceOutcome, TransferFaceOutcome};

use crate::calls::{pass_period, read, reset, write, write_byte};
use crate::link::{fit, slice};
use crate::packing::pack;
use crate::serving::{move_all, wants_interrupts, wants_moves};
use crate::sides::{level, move_word, serial};

#[unsafe(no_mangle)]
pub extern "C" fn pcl_fit(cells: &mut [u16], setup: &[u32]) -> u32
    ensures { FitFaceOutcome cells.old setup.now (result, cells.new) }
{
    pack(fit(cells, setup)) as u32
}

#[unsafe(no_mangle)]
pub extern "C" fn pcl_read(cells: &mut [u16], unit: u32, offset: u32) -> u32
    ensures { ReadFaceOutcome cells.old unit offset (result, cells.new) }
{
    pack(read(cells, unit, offset)) as u32
}

#[unsafe(no_mangle)]
pub extern "C" fn pcl_write(cells: &mut [u16], unit: u32, offset: u32, word: u16) -> u32
    ensures { WriteFaceOutcome cells.old unit offset word (result, cells.new) }
{
    pack(write(cells, unit, offset, word)) as u32
}

#[unsafe(no_mangle)]
pub extern "C" fn pcl_write_byte(cells: &mut [u16], unit: u32, offset: u32, byte: u8) -> u32
    ensures { ByteFaceOutcome cells.old unit offset byte (result, cells.new) }
{
    pack(write_byte(cells, unit, offset, byte)) as u32
}

#[unsafe(no_mangle)]
pub extern "C" fn pcl_reset(cells: &mut [u16], unit: u32) -> u32
    ensures { ResetFaceOutcome cells.old unit (result, cells.new) }
{
    pack(reset(cells, unit)) as u32
}

#[unsafe(no_mangle)]
pub extern "C" fn pcl_slice(cells: &mut [u16], mask: u16, parity: u32) -> u32
    ensures { SliceFaceOutcome cells.old mask parity (result, cells.new) }
{
    pack(slice(cells, mask, parity)) as u32
}

#[unsafe(no_mangle)]
pub extern "C" fn pcl_move(cells: &mut [u16], memory: &mut [u16], unit: u32, side: u32) -> u64
    ensures { MoveFaceOutcome cells.old memory.old unit side (result, cells.new, memory.new) }
{
    pack(move_word(cells, memory, unit, side))
}

#[unsafe(no_mangle)]
pub extern "C" fn pcl_period(cells: &mut [u16], unit: u32) -> u32
    ensures { PeriodFaceOutcome cells.old unit (result, cells.new) }
{
    pack(pass_period(cells, unit)) as u32
}

#[unsafe(no_mangle)]
pub extern "C" fn pcl_level(cells: &[u16], unit: u32, side: u32) -> u32
    ensures { LevelFaceOutcome cells.now unit side result }
{
    pack(level(cells, unit, side)) as u32
}

#[unsafe(no_mangle)]
pub extern "C" fn pcl_serial(cells: &[u16], unit: u32, side: u32) -> u32
    ensures { SerialFaceOutcome cells.now unit side result }
{
    pack(serial(cells, unit, side)) as u32
}

#[unsafe(no_mangle)]
pub extern "C" fn pcl_wants_moves(cells: &[u16]) -> u64
    ensures { WantsMovesFaceOutcome cells.now result }
{
    pack(wants_moves(cells))
}

#[unsafe(no_mangle)]
pub extern "C" fn pcl_wants_interrupts(cells: &[u16]) -> u64
    ensures { WantsInterruptsFaceOutcome cells.now result }
{
    pack(wants_interrupts(cells))
}

#[unsafe(no_mangle)]
pub extern "C" fn pcl_move_all(cells: &mut [u16], memory: &mut [u16], unit: u32, side: u32) -> u64
    ensures { TransferFaceOutcome cells.old memory.old unit side (result, cells.new, memory.new) }
{
    pack(move_all(cells, memory, unit, side))
}
