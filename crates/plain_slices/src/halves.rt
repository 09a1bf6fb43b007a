// What each case of a plain slice writes at each end.
ghost use Rattle.std.specs.Prelude.{◌≡◌, ◌+◌, ◌*◌, ◌/◌, ◌≤◌, ◌<◌, length};
ghost use Rattle.codec.specs.Window.{cell};
ghost use Rattle.plain_slices.specs.Heads.{unmarked, word_sent, word_stored, due_sent, due_taken, sender_restarted, receiver_restarted};

use codec::end_cells::{MARK, SILO};
use codec::head::Head;
use plain::places::{behind_of, without_oldest};
use words::bits::bits_at;

// A verdict is awaited: the bit at ERR of TSR. One is owed, at BUSY of RSR, and it is good, at DTORDY.
const AWAITED: u16 = 32768;

const OWED: u16 = 64;

const GOOD: u16 = 256;

// The control cell without the period's mark.
fn unmarked(control: u16) -> u16
    ensures { result ≡ unmarked control }
{
    control - bits_at(control, MARK, 1) * 8
}

// The status cell with the codes A and B.
fn showing(status: u16, a: u16, b: u16) -> u16
    requires { (a < 4) × (b < 4) }
    ensures { result ≡ status / 16 * 16 + (a + b * 4) }
{
    status / 16 * 16 + a + b * 4
}

// ---- a word

pub fn send_word(cells: &mut [u16], t: usize, crc: u16)
    requires t_in_bounds { (t + 73 ≤ length cells.old) × (64 ≤ cell cells.old t) }
    requires t_bound { (cell cells.old (t + 1) < 128) × (cell cells.old (t + 6) < 32768) }
    ensures { cells.new ≡ word_sent cells.old t crc }
{
    let head = Head::load(cells, t);
    let next = Head {
        ring: without_oldest(head.ring),
        block: head.block + 1,
        control: unmarked(head.control),
        status: showing(head.status, 2, 3),
        crc,
        ..head
    };
    next.store(cells, t);
}

pub fn store_word(cells: &mut [u16], r: usize, word: u16, crc: u16)
    requires r_in_bounds { (r + 73 ≤ length cells.old) × (cell cells.old r < 4096) }
    requires r_bound { (cell cells.old (r + 1) < 128) × (cell cells.old (r + 6) < 512) }
    ensures { cells.new ≡ word_stored cells.old r word crc }
{
    let head = Head::load(cells, r);
    let next = Head {
        ring: head.ring + 64,
        block: head.block + 1,
        control: unmarked(head.control),
        status: showing(head.status, 2, 3),
        crc,
        ..head
    };
    next.store(cells, r);
    let free = r + SILO + behind_of(head.ring);
    cells[free] = word;
}

// ---- a due CRC

pub fn send_due(cells: &mut [u16], t: usize)
    requires { (t + 73 ≤ length cells.old) × (cell cells.old (t + 6) < 32768) }
    ensures { cells.new ≡ due_sent cells.old t }
{
    let head = Head::load(cells, t);
    let next = Head {
        status: showing(head.status, 2, 1) + AWAITED,
        ..head
    };
    next.store(cells, t);
}

pub fn take_due(cells: &mut [u16], r: usize)
    requires { (r + 73 ≤ length cells.old) × (cell cells.old (r + 6) < 512) }
    ensures { cells.new ≡ due_taken cells.old r }
{
    let head = Head::load(cells, r);
    let next = Head {
        status: showing(head.status, 2, 1) + OWED + GOOD,
        ..head
    };
    next.store(cells, r);
}

// ---- its good verdict

pub fn restart_sender(cells: &mut [u16], t: usize)
    requires { t + 73 ≤ length cells.old }
    ensures { cells.new ≡ sender_restarted cells.old t }
{
    let head = Head::load(cells, t);
    let next = Head {
        block: 0,
        status: showing(head.status % AWAITED, 2, 3),
        crc: 0,
        ..head
    };
    next.store(cells, t);
}

pub fn restart_receiver(cells: &mut [u16], r: usize)
    requires { (r + 73 ≤ length cells.old) × (320 ≤ cell cells.old (r + 6)) × (cell cells.old (r + 6) < 512) }
    ensures { cells.new ≡ receiver_restarted cells.old r }
{
    let head = Head::load(cells, r);
    let next = Head {
        block: 0,
        status: showing(head.status, 2, 3) - (OWED + GOOD),
        crc: 0,
        ..head
    };
    next.store(cells, r);
}
