// The host's reads and writes of a receiver's registers, by their offsets.
ghost use Rattle.std.specs.Prelude.{◌≡◌};
ghost use Rattle.receiver.specs.Side.{Within};
ghost use Rattle.receiver_registers.specs.Reading.{data_read, show_of, read_of, removes};
ghost use Rattle.receiver_registers.specs.Writing.{initialises, written, byte_written, changes, changes_byte};

use crate::shown::{control_word, status_word};
use crate::writes::{write_control, write_status};
use ends::sides::{Answered, Side, written};
use receiver::side::Receiver;
use words::answers::{Refusal, Write, word_read};
use words::bits::{bit_at, rcr};
use words::halves::{register_offset, with_half};

// The receiver after a read, and the answer.
pub type Reading = Answered<Receiver, Result<u16, Refusal>>;

// The receiver after a write, and the answer.
pub type Written = Answered<Receiver, Result<Write, Refusal>>;

// ---- reading

// RDDB: the oldest word, removed unless RC NPR is set.
fn read_data(r: Receiver) -> Reading
    ensures { result ≡ data_read r }
{
    r.read_oldest(!r.modes.memory_requests)
}

// What a register other than RDDB shows.
fn show(r: Receiver, offset: u32) -> Result<u16, Refusal>
    requires { Within r }
    ensures { result ≡ show_of r offset }
{
    let load = r.end.load;
    let count = load.count;
    let address = load.address;
    match offset {
        16 => Ok(control_word(r)),
        18 => Ok(status_word(r)),
        22 => Ok(count.0),
        24 => Ok(address.low()),
        26 => Ok(r.end.crc),
        _ => Err(Refusal::NoRegister),
    }
}

// A word read: the receiver after it, and what it shows or why it is refused.
pub fn read(r: Receiver, offset: u32) -> Reading
    requires { Within r }
    ensures { result ≡ read_of r offset }
{
    if offset == 20 {
        return read_data(r);
    }
    Answered {
        side: r,
        answer: show(r, offset),
    }
}

// Whether a read removes a word.
pub fn removes(r: Receiver, offset: u32) -> bool
    ensures { result ≡ removes r offset }
{
    let silo = r.end.silo;
    (offset == 20) & !r.modes.memory_requests & !silo.is_empty()
}

// ---- writing

// Whether a word written to RCR has RC INIT set.
pub fn asks_init(word: u16) -> bool
    ensures { result ≡ initialises word }
{
    bit_at(word, rcr::RC_INIT)
}

// A word written: the receiver after it, and the answer. A write of RDDB or RDCRC changes nothing.
pub fn write(r: Receiver, offset: u32, word: u16) -> Written
    requires { Within r }
    ensures { result ≡ written r offset word }
{
    match offset {
        16 => written(write_control(r, word)),
        18 => written(write_status(r, word)),
        22 => written(r.write_count(word)),
        24 => written(r.write_address(word)),
        20 | 26 => written(r),
        _ => Answered {
            side: r,
            answer: Err(Refusal::NoRegister),
        },
    }
}

// Whether a write changes the register.
pub fn changes(offset: u32) -> bool
    ensures { result ≡ changes offset }
{
    matches!(offset, 16 | 18 | 22 | 24)
}

// A byte is written as its register's word with that half changed; a byte of RDDB is refused.
pub fn write_byte(r: Receiver, offset: u32, byte: u8) -> Written
    requires { Within r }
    ensures { result ≡ byte_written r offset byte }
{
    let register = register_offset(offset);
    if register == 20 {
        return Answered {
            side: r,
            answer: Err(Refusal::ByteRefused),
        };
    }
    let before = word_read(show(r, register));
    write(r, register, with_half(before, offset, byte))
}

// Whether a byte written changes its register.
pub fn changes_byte(offset: u32) -> bool
    ensures { result ≡ changes_byte offset }
{
    changes(register_offset(offset))
}
