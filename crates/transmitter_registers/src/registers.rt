// The host's reads and writes of a transmitter's registers, by their offsets.
ghost use Rattle.std.specs.Prelude.{◌≡◌};
ghost use Rattle.transmitter.specs.Side.{Within};
ghost use Rattle.transmitter_registers.specs.Reading.{data_read, show_of, read_of, removes};
ghost use Rattle.transmitter_registers.specs.Writing.{initialises, written, byte_written, changes, changes_byte};

use crate::shown::{control_word, status_word};
use crate::writes::{write_control, write_data, write_status};
use ends::sides::{Answered, Side, written};
use transmitter::side::Transmitter;
use words::answers::{Refusal, Write, word_read};
use words::bits::{bit_at, tcr};
use words::halves::{register_offset, with_half};

// The transmitter after a read, and the answer.
pub type Reading = Answered<Transmitter, Result<u16, Refusal>>;

// The transmitter after a write, and the answer.
pub type Written = Answered<Transmitter, Result<Write, Refusal>>;

// ---- reading

// TSDB: the oldest word, removed only with RD SILO set.
fn read_data(t: Transmitter) -> Reading
    ensures { result ≡ data_read t }
{
    t.read_oldest(t.modes.read_silo)
}

// What a register other than TSDB shows.
fn show(t: Transmitter, offset: u32) -> Result<u16, Refusal>
    requires { Within t }
    ensures { result ≡ show_of t offset }
{
    let load = t.end.load;
    let count = load.count;
    let address = load.address;
    match offset {
        0 => Ok(control_word(t)),
        2 => Ok(status_word(t)),
        6 => Ok(count.0),
        8 => Ok(address.low()),
        12 => Ok(t.end.crc),
        _ => Err(Refusal::NoRegister),
    }
}

// A word read: the transmitter after it, and what it shows or why it is refused.
pub fn read(t: Transmitter, offset: u32) -> Reading
    requires { Within t }
    ensures { result ≡ read_of t offset }
{
    if offset == 4 {
        return read_data(t);
    }
    Answered {
        side: t,
        answer: show(t, offset),
    }
}

// Whether a read removes a word.
pub fn removes(t: Transmitter, offset: u32) -> bool
    ensures { result ≡ removes t offset }
{
    let silo = t.end.silo;
    (offset == 4) & t.modes.read_silo & !silo.is_empty()
}

// ---- writing

// Whether a word written to TCR has TX INIT set: such a write is the work of the crate that has the master section beside it.
pub fn asks_init(word: u16) -> bool
    ensures { result ≡ initialises word }
{
    bit_at(word, tcr::TX_INIT)
}

// A word written: the transmitter after it, and the answer. A write of TSCRC changes nothing.
pub fn write(t: Transmitter, offset: u32, word: u16) -> Written
    requires { Within t }
    ensures { result ≡ written t offset word }
{
    match offset {
        0 => written(write_control(t, word)),
        2 => written(write_status(t, word)),
        4 => write_data(t, word),
        6 => written(t.write_count(word)),
        8 => written(t.write_address(word)),
        12 => written(t),
        _ => Answered {
            side: t,
            answer: Err(Refusal::NoRegister),
        },
    }
}

// Whether a write changes the register.
pub fn changes(offset: u32) -> bool
    ensures { result ≡ changes offset }
{
    matches!(offset, 0 | 2 | 4 | 6 | 8)
}

// A byte is written as its register's word with that half changed; a byte of TSDB is refused.
pub fn write_byte(t: Transmitter, offset: u32, byte: u8) -> Written
    requires { Within t }
    ensures { result ≡ byte_written t offset byte }
{
    let register = register_offset(offset);
    if register == 4 {
        return Answered {
            side: t,
            answer: Err(Refusal::ByteRefused),
        };
    }
    let before = word_read(show(t, register));
    write(t, register, with_half(before, offset, byte))
}

// Whether a byte written changes its register.
pub fn changes_byte(offset: u32) -> bool
    ensures { result ≡ changes_byte offset }
{
    let register = register_offset(offset);
    (register != 4) & changes(register)
}
