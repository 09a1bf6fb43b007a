// The calls of the crate pcl as C has them, by the names of include/pcl.h: this crate's archive is libpcl.a. Each export calls the
// function of its name in the face of pcl, and says its clauses again.
#![tactic(auto)]

ghost use Rattle.pcl.specs.Outcomes.{FitFaceOutcome, ReadFaceOutcome, WriteFaceOutcome, ByteFaceOutcome, ResetFaceOutcome, SliceFaceOutcome, MoveFaceOutcome, PeriodFaceOutcome, LevelFaceOutcome, SerialFaceOutcome, WantsMovesFaceOutcome, WantsInterruptsFaceOutcome, TransferFaceOutcome};

#[unsafe(no_mangle)]
pub extern "C" fn pcl_fit(cells: &mut [u16], setup: &[u32]) -> u32
    ensures { FitFaceOutcome cells.old setup.now (result, cells.new) }
{
    pcl::face::pcl_fit(cells, setup)
}

#[unsafe(no_mangle)]
pub extern "C" fn pcl_read(cells: &mut [u16], unit: u32, offset: u32) -> u32
    ensures { ReadFaceOutcome cells.old unit offset (result, cells.new) }
{
    pcl::face::pcl_read(cells, unit, offset)
}

#[unsafe(no_mangle)]
pub extern "C" fn pcl_write(cells: &mut [u16], unit: u32, offset: u32, word: u16) -> u32
    ensures { WriteFaceOutcome cells.old unit offset word (result, cells.new) }
{
    pcl::face::pcl_write(cells, unit, offset, word)
}

#[unsafe(no_mangle)]
pub extern "C" fn pcl_write_byte(cells: &mut [u16], unit: u32, offset: u32, byte: u8) -> u32
    ensures { ByteFaceOutcome cells.old unit offset byte (result, cells.new) }
{
    pcl::face::pcl_write_byte(cells, unit, offset, byte)
}

#[unsafe(no_mangle)]
pub extern "C" fn pcl_reset(cells: &mut [u16], unit: u32) -> u32
    ensures { ResetFaceOutcome cells.old unit (result, cells.new) }
{
    pcl::face::pcl_reset(cells, unit)
}

#[unsafe(no_mangle)]
pub extern "C" fn pcl_slice(cells: &mut [u16], mask: u16, parity: u32) -> u32
    ensures { SliceFaceOutcome cells.old mask parity (result, cells.new) }
{
    pcl::face::pcl_slice(cells, mask, parity)
}

#[unsafe(no_mangle)]
pub extern "C" fn pcl_move(cells: &mut [u16], memory: &mut [u16], unit: u32, side: u32) -> u64
    ensures { MoveFaceOutcome cells.old memory.old unit side (result, cells.new, memory.new) }
{
    pcl::face::pcl_move(cells, memory, unit, side)
}

#[unsafe(no_mangle)]
pub extern "C" fn pcl_period(cells: &mut [u16], unit: u32) -> u32
    ensures { PeriodFaceOutcome cells.old unit (result, cells.new) }
{
    pcl::face::pcl_period(cells, unit)
}

#[unsafe(no_mangle)]
pub extern "C" fn pcl_level(cells: &[u16], unit: u32, side: u32) -> u32
    ensures { LevelFaceOutcome cells.now unit side result }
{
    pcl::face::pcl_level(cells, unit, side)
}

#[unsafe(no_mangle)]
pub extern "C" fn pcl_serial(cells: &[u16], unit: u32, side: u32) -> u32
    ensures { SerialFaceOutcome cells.now unit side result }
{
    pcl::face::pcl_serial(cells, unit, side)
}

#[unsafe(no_mangle)]
pub extern "C" fn pcl_wants_moves(cells: &[u16]) -> u64
    ensures { WantsMovesFaceOutcome cells.now result }
{
    pcl::face::pcl_wants_moves(cells)
}

#[unsafe(no_mangle)]
pub extern "C" fn pcl_wants_interrupts(cells: &[u16]) -> u64
    ensures { WantsInterruptsFaceOutcome cells.now result }
{
    pcl::face::pcl_wants_interrupts(cells)
}

#[unsafe(no_mangle)]
pub extern "C" fn pcl_move_all(cells: &mut [u16], memory: &mut [u16], unit: u32, side: u32) -> u64
    ensures { TransferFaceOutcome cells.old memory.old unit side (result, cells.new, memory.new) }
{
    pcl::face::pcl_move_all(cells, memory, unit, side)
}
