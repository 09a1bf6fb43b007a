// Whether two windows are those of two ends in step: open with each other, with the same count of 128 and the same CRC, and with no error.
// The numbers of each head stand within their limits, so that its cells are those that a call writes.
ghost use Rattle.std.specs.Prelude.{◌≡◌, ◌+◌, ◌≤◌, ◌<◌, length};
ghost use Rattle.plain_slices.specs.Tests.{talks_by, listens_by, agree_by, in_step_at, Sixteen};

use codec::head::Head;
use words::bits::{bit_at, bits_at, rcr, rsr, tcr, tsr};

// A word held and at most 64, by the ring's cell of start + 64 x length; the latched destination, the two halves of the load; ST TXM; BUSY,
// which here is that the channel is open; and neither DTIRDY, which is ending, nor an error bit.
fn talks(head: Head) -> bool
    ensures { result ≡ talks_by head.ring head.own head.low head.count head.control head.status }
{
    (64 <= head.ring)
        & (head.ring < 4160)
        & (head.own < 32)
        & (head.low < 32768)
        & (head.count < 32768)
        & bit_at(head.control, tcr::ST_TXM)
        & bit_at(head.status, tsr::BUSY)
        & (bits_at(head.status, tsr::DTIRDY, 7) == 0)
}

// At most 64 words held, whether truncated, the two halves of the load; RCV DAT, no REJ, the sender in IB 00 to IB 04; CHN OPN; and neither
// an error bit nor ERR, which here is that the word before had bad parity.
fn listens(head: Head, from: u16) -> bool
    ensures { result ≡ listens_by head.ring head.own head.low head.count head.control head.status from }
{
    (head.ring < 4160)
        & (head.own < 2)
        & (head.low < 32768)
        & (head.count < 32768)
        & bit_at(head.control, rcr::RCV_DAT)
        & (head.control < 32768)
        & (bits_at(head.control, rcr::IB_00, 5) == from)
        & bit_at(head.status, rsr::CHN_OPN)
        & (head.status < 512)
}

// The same count of 128 and the same CRC.
fn agree(sender: Head, receiver: Head) -> bool
    ensures { result ≡ agree_by sender.block receiver.block sender.crc receiver.crc }
{
    (sender.block == receiver.block) & (sender.crc == receiver.crc)
}

// Whether the windows at `t` and `r` are those of two ends in step.
pub fn in_step(cells: &[u16], t: usize, r: usize, from: u16) -> bool
    requires { (t + 73 ≤ length cells.now) × (r + 73 ≤ length cells.now) }
    ensures { (result ≡ in_step_at cells.now t r from) × Sixteen cells.now }
{
    let sender = Head::load(cells, t);
    let receiver = Head::load(cells, r);
    talks(sender) & listens(receiver, from) & agree(sender, receiver)
}
