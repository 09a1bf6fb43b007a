// A master section as the cells of its window, and the section that a window holds.
ghost use Rattle.std.specs.Prelude.{◌≡◌, ◌+◌, ◌<◌, ◌≤◌, length};
ghost use Rattle.master.specs.Side.{Within};
ghost use Rattle.codec.specs.Masters.{section_word, master_head, master_from, enc_master, enc_next, addresses_in, switch_in, counter_in, section_of, dec_master};
ghost use Rattle.codec.specs.Window.{window, splice};
ghost use Rattle.std.proofs.Common.{rules};

use crate::in_window::InWindow;
use crate::rings::{lay_silo, silo_of, start_for, start_next};
use master::side::Master;
use silos::Silo;
use words::bits::{bit_at, bits_at};

// The cells of a master section: where the addresses start in the ring and how many they are, the section's word, and the ring's 50.
pub const MASTER: usize = 52;

pub const RING: usize = 0;

pub const SECTION: usize = 1;

pub const ADDRESSES: usize = 2;

// The parts of the section's word: the counter's next address and the switch, of 5 bits each, and three flags.
pub const COUNTER: u16 = 0;

pub const SWITCH: u16 = 5;

pub const AUT_ADR: u16 = 10;

pub const SEC: u16 = 11;

const NOW_MST: u16 = 12;

// ---- out

// Each part of the sum fits since the whole does: that is why this asks for the whole.
fn section_sum(m: Master) -> u16
    requires { section_word m < 65536 }
    ensures { result ≡ section_word m }
{
    let place = m.place;
    let switch = m.switch;
    let auto_address = m.auto_address;
    let secondary = m.secondary;
    let now_master = m.now_master;
    place * (1 << COUNTER)
        + switch * (1 << SWITCH)
        + auto_address as u16 * (1 << AUT_ADR)
        + secondary as u16 * (1 << SEC)
        + now_master as u16 * (1 << NOW_MST)
}

// The cells before the ring's.
fn head(start: u16, m: Master) -> [u16; ADDRESSES]
    requires { (start < 50) × Within m }
    ensures { result ≡ master_head start m }
{
    let addresses = m.addresses;
    [start + addresses.held * 64, section_sum(m)]
}

// In the place of a window that stood there, the addresses from a place on.
fn encode_from(cells: &mut [u16], start: u16, m: Master)
    requires whole { length cells.old ≡ 52 }
    requires within { (start < 50) × Within m }
    ensures { cells.new ≡ master_from start cells.old m }
{
    lay_silo(&mut cells[ADDRESSES..], m.addresses, start);
    let head = head(start, m);
    cells[..ADDRESSES].copy_from_slice(&head);
}

// After a slice: in silo mode the oldest address was taken and came to the end.
fn encode_next(cells: &mut [u16], m: Master)
    requires whole { length cells.old ≡ 52 }
    requires within { Within m }
    ensures { cells.new ≡ enc_next cells.old m }
{
    if m.auto_address {
        m.encode(cells);
        return;
    }
    let start = start_next(50, cells[RING]);
    encode_from(cells, start, m);
}

// ---- in

// The addresses in order.
fn addresses_in(cells: &[u16]) -> Silo
    requires { length cells.now ≡ 52 }
    ensures { result ≡ addresses_in cells.now }
{
    silo_of::<50>(cells[RING], &cells[ADDRESSES..])
}

// At least 2.
fn switch_in(word: u16) -> u16
    ensures { result ≡ switch_in word }
{
    let switch = bits_at(word, SWITCH, 5);
    if switch < 2 {
        return 2;
    }
    switch
}

// Between 1 and the switch.
fn counter_in(place: u16, switch: u16) -> u16
    ensures { result ≡ counter_in place switch }
{
    if (1 <= place) & (place <= switch) {
        return place;
    }
    switch
}

// With no address held AUT ADR is set.
fn section_of(addresses: Silo, word: u16) -> Master
    ensures { result ≡ section_of addresses word }
{
    let switch = switch_in(word);
    Master {
        addresses,
        auto_address: addresses.is_empty() | bit_at(word, AUT_ADR),
        secondary: bit_at(word, SEC),
        now_master: bit_at(word, NOW_MST),
        place: counter_in(bits_at(word, COUNTER, 5), switch),
        switch,
    }
}

impl InWindow for Master {
    ghost PLACE = { 150 };

    ghost SIZE = { 52 };

    ghost decoded = { dec_master };

    ghost encoded = { enc_master };

    ghost Within = { Within };

    ghost inside = { Prim.search rules };

    const PLACE: usize = 150;

    const SIZE: usize = MASTER;

    fn decode(cells: &[u16]) -> Self {
        section_of(addresses_in(cells), cells[SECTION])
    }

    fn encode(self, cells: &mut [u16]) {
        let addresses = self.addresses;
        let start = start_for(50, cells[RING], addresses.held);
        encode_from(cells, start, self);
    }
}

// The section into the cells at `at`, after a slice.
pub fn store_next(cells: &mut [u16], at: usize, m: Master)
    requires { (at + 52 ≤ length cells.old) × Within m }
    ensures { cells.new ≡ splice cells.old at (enc_next (window cells.old at 52) m) }
{
    encode_next(&mut cells[at..at + MASTER], m);
}
