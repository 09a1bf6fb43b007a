// MASTER, and the address of each slice.
ghost use Rattle.std.specs.Prelude.{◌≡◌};
ghost use Rattle.master.specs.Section.{has_master, master_of, master_written, counted_down, returned, next_of, taken_over};

use crate::side::{Master, Mastership};
use silos::{ADDRESSES, Silo};

// The address of a slice, and the master after it.
#[derive(Clone, Copy)]
pub struct Next {
    pub address: u16,
    pub side: Master,
}

// Whether this unit has MASTER.
pub fn has_master(mastership: Mastership) -> bool
    ensures { result ≡ has_master mastership }
{
    mastership == Mastership::Own
}

fn own_master(bit: bool) -> Mastership
    ensures { result ≡ master_of bit }
{
    if bit {
        return Mastership::Own;
    }
    Mastership::Nobody
}

// MASTER written by this unit. Nothing changes where another has it.
pub fn write_master(mastership: Mastership, bit: bool) -> Mastership
    ensures { result ≡ master_written mastership bit }
{
    match mastership {
        Mastership::Nobody => own_master(bit),
        Mastership::Own => own_master(bit),
        Mastership::Other => Mastership::Other,
    }
}

// The counter's next address: after 1 comes the switch.
fn count_down(place: u16, switch: u16) -> u16
    ensures { result ≡ counted_down place switch }
{
    if place <= 1 {
        return switch;
    }
    place - 1
}

// The silo with its oldest address at the end.
pub fn turn(addresses: Silo) -> Silo
    ensures { result ≡ returned addresses }
{
    if addresses.is_empty() {
        return addresses;
    }
    let address = addresses.oldest() % 32;
    addresses.take().put(ADDRESSES, address)
}

impl Master {
    // The address of a slice: the counter's, or the silo's oldest.
    pub fn next_address(self) -> Next
        ensures { result ≡ next_of self }
    {
        if self.auto_address {
            return Next {
                address: self.place,
                side: Master {
                    place: count_down(self.place, self.switch),
                    ..self
                },
            };
        }
        Next {
            address: self.addresses.oldest() % 32,
            side: Master {
                addresses: turn(self.addresses),
                ..self
            },
        }
    }

    // At a slice with no master, for the lowest unit with SEC. MASTER, which it takes too, is held outside.
    pub fn take_over(self) -> Master
        ensures { result ≡ taken_over self }
    {
        Master {
            secondary: false,
            now_master: true,
            place: self.switch,
            ..self
        }
    }
}
