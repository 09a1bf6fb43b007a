// TMMR: what a host's write does and what a read shows.
ghost use Rattle.std.specs.Prelude.{◌≡◌, ◌<◌};
ghost use Rattle.silos.specs.Silo.{Sized};
ghost use Rattle.master.specs.Side.{Within};
ghost use Rattle.master.specs.Writing.{silo_found, refused_at, place_found, high_written, takes_address, loaded, answer_of, word_written, high_byte_written, low_byte_written};
ghost use Rattle.master.specs.Reading.{tmmr_of, tmmr_word, removes, removed, read_of};

use crate::ring::may_start;
use crate::section::{has_master, write_master};
use crate::side::{Master, Mastership};
use silos::{ADDRESSES, Silo};
use words::answers::{Refusal, Write};
use words::bits::{bit_at, set_at, tmmr};

// What a write of TMMR is answered, and what it leaves.
#[derive(Clone, Copy)]
pub struct Written {
    pub answer: Result<Write, Refusal>,
    pub mastership: Mastership,
    pub side: Master,
}

// What a read of TMMR shows, and what it leaves.
#[derive(Clone, Copy)]
pub struct Reading {
    pub word: u16,
    pub side: Master,
}

// What a write of the high byte leaves, and whether the address silo may not start.
#[derive(Clone, Copy)]
struct High {
    refused: bool,
    mastership: Mastership,
    side: Master,
}

// What a write of the low byte leaves, and whether the address is dropped.
#[derive(Clone, Copy)]
struct Low {
    dropped: bool,
    side: Master,
}

// ---- writing

// The silo as CLR ADR leaves it.
fn find_silo(addresses: Silo, clear: bool) -> Silo
    ensures { result ≡ silo_found addresses clear }
{
    if clear {
        return Silo::empty();
    }
    addresses
}

// Whether a try to clear AUT ADR fails.
fn is_refused(addresses: Silo, tried: bool) -> bool
    requires { Sized 50 addresses }
    ensures { result ≡ refused_at addresses tried }
{
    if tried {
        return !may_start(addresses);
    }
    false
}

// The counter, which a write may restart.
fn find_place(m: Master, restarts: bool) -> u16
    ensures { result ≡ place_found m restarts }
{
    if restarts {
        return m.switch;
    }
    m.place
}

// The high byte, by its bits in the word: CLR ADR, then AUT ADR; MASTER, SEC and NOW MST.
fn write_flags(m: Master, mastership: Mastership, word: u16) -> High
    requires { Within m }
    ensures { result ≡ high_written m mastership word }
{
    let wanted = bit_at(word, tmmr::AUT_ADR);
    let addresses = find_silo(m.addresses, bit_at(word, tmmr::CLR_ADR));
    let found = addresses.is_empty() | m.auto_address;
    let refused = is_refused(addresses, found & !wanted);
    let auto_address = wanted | refused;
    let after = write_master(mastership, bit_at(word, tmmr::MASTER));
    let had = has_master(mastership);
    let has = has_master(after);
    let master_rises = !had & has;
    let auto_rises = !m.auto_address & auto_address;
    let place = find_place(m, master_rises | auto_rises);
    High {
        refused,
        mastership: after,
        side: Master {
            addresses,
            auto_address,
            secondary: bit_at(word, tmmr::SEC),
            now_master: bit_at(word, tmmr::NOW_MST),
            place,
            ..m
        },
    }
}

// AIP RDY.
pub fn takes_address(m: Master, reading: bool) -> bool
    ensures { result ≡ takes_address m reading }
{
    m.auto_address & !reading & m.addresses.has_room(ADDRESSES)
}

// The low byte: an address, loaded or dropped.
fn load(m: Master, reading: bool, byte: u16) -> Low
    ensures { result ≡ loaded m reading byte }
{
    if takes_address(m, reading) {
        return Low {
            dropped: false,
            side: Master {
                addresses: m.addresses.put(ADDRESSES, byte % 32),
                ..m
            },
        };
    }
    Low {
        dropped: true,
        side: m,
    }
}

// A write that meets both 5 and 6 answers 5.
fn answer_of(refused: bool, dropped: bool) -> Result<Write, Refusal>
    ensures { result ≡ answer_of refused dropped }
{
    if refused {
        return Ok(Write::NotStarted);
    }
    if dropped {
        return Ok(Write::Dropped);
    }
    Ok(Write::Done)
}

impl Master {
    // The high byte first, then the low one.
    pub fn write_word(self, mastership: Mastership, reading: bool, word: u16) -> Written
        requires { Within self }
        ensures { result ≡ word_written self mastership reading word }
    {
        let high = write_flags(self, mastership, word);
        let refused = high.refused;
        let after = high.mastership;
        let low = load(high.side, reading, word % 256);
        let side = low.side;
        Written {
            answer: answer_of(refused, low.dropped),
            mastership: after,
            side,
        }
    }

    pub fn write_high(self, mastership: Mastership, byte: u8) -> Written
        requires { Within self }
        ensures { result ≡ high_byte_written self mastership byte }
    {
        let high = write_flags(self, mastership, byte as u16 * 256);
        let after = high.mastership;
        let side = high.side;
        Written {
            answer: answer_of(high.refused, false),
            mastership: after,
            side,
        }
    }

    pub fn write_low(self, mastership: Mastership, reading: bool, byte: u8) -> Written
        ensures { result ≡ low_byte_written self mastership reading byte }
    {
        let low = load(self, reading, byte as u16);
        let side = low.side;
        Written {
            answer: answer_of(false, low.dropped),
            mastership,
            side,
        }
    }
}

// ---- reading

// Each part of the sum fits since the whole does: that is why this asks for the whole.
fn tmmr_sum(
    m: Master,
    address: u16,
    master: bool,
    opened: bool,
    input_ready: bool,
    output_ready: bool,
) -> u16
    requires { tmmr_of m address master opened input_ready output_ready < 65536 }
    ensures { result ≡ tmmr_of m address master opened input_ready output_ready }
{
    address
        + set_at(tmmr::MASTER, master)
        + set_at(tmmr::SEC, m.secondary)
        + set_at(tmmr::NOW_MST, m.now_master)
        + set_at(tmmr::CHN_OPN, opened)
        + set_at(tmmr::AUT_ADR, m.auto_address)
        + set_at(tmmr::AIP_RDY, input_ready)
        + set_at(tmmr::AOP_RDY, output_ready)
}

fn tmmr_word(m: Master, mastership: Mastership, opened: bool, reading: bool) -> u16
    ensures { result ≡ tmmr_word m mastership opened reading }
{
    tmmr_sum(
        m,
        m.addresses.oldest() % 32,
        has_master(mastership),
        opened,
        takes_address(m, reading),
        !m.addresses.is_empty(),
    )
}

// Whether a read removes an address: the oldest one held, with RD SILO and AUT ADR set.
pub fn removes(m: Master, reading: bool) -> bool
    ensures { result ≡ removes m reading }
{
    reading & m.auto_address & !m.addresses.is_empty()
}

fn remove(m: Master, reading: bool) -> Master
    ensures { result ≡ removed m reading }
{
    if removes(m, reading) {
        return Master {
            addresses: m.addresses.take(),
            ..m
        };
    }
    m
}

impl Master {
    // What stood before the removal is shown. CHN OPN and RD SILO are the transmitter's.
    pub fn read(self, mastership: Mastership, opened: bool, reading: bool) -> Reading
        ensures { result ≡ read_of self mastership opened reading }
    {
        Reading {
            word: tmmr_word(self, mastership, opened, reading),
            side: remove(self, reading),
        }
    }
}
