// The plain slice: an open transmitter and the receiver that it is open with, in step, and nothing damaged. A word is accepted and stored,
// a due CRC is taken, or it is found good.
ghost use Rattle.std.specs.Prelude.{true, ◌≡◌, ◌+◌, ◌≤◌, ◌<◌};
ghost use Rattle.codec.specs.Window.{cell};
ghost use Rattle.plain_slices.specs.Carried.{Placed, Tried};
ghost use Rattle.plain_slices.specs.Heads.{word_carried, due_sent, due_taken, sender_restarted, receiver_restarted};
ghost use Rattle.plain_slices.specs.Tests.{in_step_at, Sixteen};

use crate::halves::{restart_receiver, restart_sender, send_due, send_word, store_word, take_due};
use crate::in_step::in_step;
use codec::end_cells::SILO;
use codec::head::Head;
use plain::places::front_of;
use words::bits::{bit_at, rsr, tsr};
use words::crc::crc_with_word;

// A word, accepted and stored.
fn carry_word(cells: &mut [u16], t: usize, r: usize)
    requires placed { Placed cells.old t r }
    requires bound { ((64 ≤ cell cells.old t) × (cell cells.old (t + 1) < 128) × (cell cells.old (t + 6) < 32768)) × ((cell cells.old r < 4096) × (cell cells.old (r + 1) < 128) × (cell cells.old (r + 6) < 512)) }
    ensures { cells.new ≡ word_carried cells.old t r }
{
    let sender = Head::load(cells, t);
    let word = cells[t + SILO + front_of(sender.ring)];
    let crc = crc_with_word(sender.crc, word);
    send_word(cells, t, crc);
    store_word(cells, r, word, crc);
}

// A due CRC, sent and taken.
fn carry_due(cells: &mut [u16], t: usize, r: usize)
    requires placed { Placed cells.old t r }
    requires t_bound { (cell cells.old (t + 6) < 32768) × (cell cells.old (r + 6) < 512) }
    ensures { cells.new ≡ due_taken (due_sent cells.old t) r }
{
    send_due(cells, t);
    take_due(cells, r);
}

// Its good verdict.
fn carry_verdict(cells: &mut [u16], t: usize, r: usize)
    requires placed { Placed cells.old t r }
    requires bound { (320 ≤ cell cells.old (r + 6)) × (cell cells.old (r + 6) < 512) }
    ensures { cells.new ≡ receiver_restarted (sender_restarted cells.old t) r }
{
    restart_sender(cells, t);
    restart_receiver(cells, r);
}

// Fewer than 128 words since the last CRC: a word, if there is room for it. With 64 words held the ring's cell is 64 x 64 or more.
fn try_word(cells: &mut [u16], t: usize, r: usize, from: u16) -> Option<u16>
    requires placed { Placed cells.old t r }
    requires from_value { (in_step_at cells.old t r from ≡ true) × Sixteen cells.old × (cell cells.old (t + 1) < 128) }
    ensures { Tried cells.old t r from result cells.new }
{
    let sender = Head::load(cells, t);
    let receiver = Head::load(cells, r);
    if bit_at(sender.status, tsr::ERR) {
        return None;
    }
    if receiver.ring >= 4096 {
        return None;
    }
    carry_word(cells, t, r);
    Some(3)
}

// 128 words, and no verdict awaited: the due CRC, if none is owed and no good one stands from before.
fn try_due(cells: &mut [u16], t: usize, r: usize, from: u16) -> Option<u16>
    requires placed { Placed cells.old t r }
    requires from_value { (in_step_at cells.old t r from ≡ true) × Sixteen cells.old × (cell cells.old (t + 1) ≡ 128) × (cell cells.old (t + 6) < 32768) }
    ensures { Tried cells.old t r from result cells.new }
{
    let receiver = Head::load(cells, r);
    if bit_at(receiver.status, rsr::BUSY) {
        return None;
    }
    if bit_at(receiver.status, rsr::DTORDY) {
        return None;
    }
    carry_due(cells, t, r);
    Some(1)
}

// A verdict awaited: a good one, if that is owed.
fn try_verdict(cells: &mut [u16], t: usize, r: usize, from: u16) -> Option<u16>
    requires placed { Placed cells.old t r }
    requires from_value { (in_step_at cells.old t r from ≡ true) × Sixteen cells.old × (cell cells.old (t + 1) ≡ 128) × (32768 ≤ cell cells.old (t + 6)) }
    ensures { Tried cells.old t r from result cells.new }
{
    let receiver = Head::load(cells, r);
    if !bit_at(receiver.status, rsr::BUSY) {
        return None;
    }
    if !bit_at(receiver.status, rsr::DTORDY) {
        return None;
    }
    carry_verdict(cells, t, r);
    Some(3)
}

// By what has been sent since the last CRC.
fn carry_in_step(cells: &mut [u16], t: usize, r: usize, from: u16) -> Option<u16>
    requires { Placed cells.old t r × (in_step_at cells.old t r from ≡ true) × Sixteen cells.old }
    ensures { Tried cells.old t r from result cells.new }
{
    let sender = Head::load(cells, t);
    if sender.block < 128 {
        return try_word(cells, t, r, from);
    }
    if sender.block != 128 {
        return None;
    }
    if bit_at(sender.status, tsr::ERR) {
        return try_verdict(cells, t, r, from);
    }
    try_due(cells, t, r, from)
}

// The slice between the transmitter at `t` and the receiver at `r`, with nothing damaged: its code B, or None where it is not plain and
// nothing is done.
pub fn carry(cells: &mut [u16], t: usize, r: usize, from: u16) -> Option<u16>
    requires { Placed cells.old t r }
    ensures { Tried cells.old t r from result cells.new }
{
    if in_step(cells, t, r, from) {
        return carry_in_step(cells, t, r, from);
    }
    None
}
