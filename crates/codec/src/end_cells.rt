// What the windows of a transmitter and of a receiver have in common.
ghost use Rattle.std.specs.Prelude.{◌≡◌, ◌≤◌, ◌<◌, length};
ghost use Rattle.codec.specs.Ends.{head_of, window_of, silo_in, load_of, codes_of, end_in};

use crate::readings::read_most;
use crate::rings::{lay_silo, silo_of, start_for};
use ends::End;
use silos::Silo;
use words::address::Address;
use words::bits::{bit_at, bits_at};
use words::codes::Codes;
use words::count::ByteCount;
use words::load::Load;

// The cells of a transmitter, and those of a receiver: the head, and the 64 of the silo's ring.
pub const SIDE: usize = 73;

// The head's cells: where the silo's words start in the ring and how many they are, the words since the last CRC, what only one side has (the destination latched at the opening, or
// whether the message is truncated), the low half of the address / 2, the byte count / 2, two cells of bits, the CRC, and the serial.
pub const RING: usize = 0;

const BLOCK: usize = 1;

pub const OWN: usize = 2;

const LOW: usize = 3;

const COUNT: usize = 4;

pub const CONTROL: usize = 5;

pub const STATUS: usize = 6;

const CRC: usize = 7;

const SERIAL: usize = 8;

pub const SILO: usize = 9;

// In the control cell: whether the count is loaded, the period's mark, and EA16 with EA17 above it.
pub const LOADED: u16 = 1;

pub const MARK: u16 = 3;

pub const EA16: u16 = 4;

// The cells before the ring's: where it starts, the values of an end, the cell of one side only, and the two cells of bits.
fn head(start: u16, end: End, own: u16, control: u16, status: u16) -> [u16; SILO]
    requires { (start < 64) × (end.silo.held ≤ 64) }
    ensures { result ≡ head_of start end own control status }
{
    let held = end.silo.held;
    let block = end.block;
    let load = end.load;
    let address = load.address;
    let count = load.count.0;
    let crc = end.crc;
    let serial = end.serial;
    [
        start + held * 64,
        block,
        own,
        address.low() / 2,
        count / 2,
        control,
        status,
        crc,
        serial,
    ]
}

// In the place of a window that stood there.
pub fn window_of(cells: &mut [u16], end: End, own: u16, control: u16, status: u16)
    requires whole { length cells.old ≡ 73 }
    requires room { end.silo.held ≤ 64 }
    ensures { cells.new ≡ window_of cells.old end own control status }
{
    let silo = end.silo;
    let start = start_for(64, cells[RING], silo.held);
    lay_silo(&mut cells[SILO..], silo, start);
    let head = head(start, end, own, control, status);
    cells[..SILO].copy_from_slice(&head);
}

// Its words in order.
fn silo_in(cells: &[u16]) -> Silo
    requires { length cells.now ≡ 73 }
    ensures { result ≡ silo_in cells.now }
{
    silo_of::<64>(cells[RING], &cells[SILO..])
}

fn load_of(low: u16, count: u16, control: u16) -> Load
    ensures { result ≡ load_of low count control }
{
    Load {
        count: ByteCount(count % 32768 * 2),
        loaded: bit_at(control, LOADED),
        address: Address(bits_at(control, EA16, 2) as u32 * 65536 + (low % 32768) as u32 * 2),
    }
}

fn codes_of(status: u16) -> Codes
    ensures { result ≡ codes_of status }
{
    Codes {
        a: bits_at(status, 0, 2),
        b: bits_at(status, 2, 2),
    }
}

// At most 128 words since the last CRC. Where the channel's bit stands, and where a period's mark counts, is each side's own matter.
pub fn end_in(w: &[u16], opened: bool, mark: bool) -> End
    requires { length w.now ≡ 73 }
    ensures { result ≡ end_in w.now opened mark }
{
    End {
        silo: silo_in(w),
        load: load_of(w[LOW], w[COUNT], w[CONTROL]),
        shown: codes_of(w[STATUS]),
        opened,
        block: read_most(w[BLOCK], 128),
        crc: w[CRC],
        mark,
        serial: w[SERIAL],
    }
}
