// Which of the receiver's rules a slice meets: first that fits.
ghost use Rattle.std.specs.Prelude.{◌≡◌};
ghost use Rattle.answering.specs.Choice.{open_with_another, reopening, decided_closed, decided_crc, decided_word, decided_open, decided};

use ends::sides::Side;
use receiver::side::{Receiver, is_data_in_ready, is_data_out_ready};
use words::lines::Sent;

// The rule that fits.
#[derive(Clone, Copy)]
pub enum Rule {
    // 1. Open with another.
    Other,
    // Document 02, No. 1. Open with the transmitter that sends an opening word.
    Reopened,
    // 2. Closed: an opening word opens it, or not.
    Opens,
    Refuses,
    // 3. An error bit other than BC OFL.
    Faulted,
    // 4. The word before had bad parity.
    BadParity,
    // 5. The transmitter is off line.
    OffLine,
    // 6. REJ without RCV DAT.
    Rejects,
    // 7. REJ with RCV DAT.
    Truncates,
    // 8. A CRC, the first time, and the next time: bad, a good due one, a good last one.
    TakesCrc,
    BadCrc,
    Restarts,
    Waits,
    Succeeds,
    // 9. A word: it is stored, or not.
    Stores,
    NotReady,
    // 10. Nothing sent.
    Null,
}

fn decide_closed(r: Receiver, sent: Sent) -> Rule
    ensures { result ≡ decided_closed r sent }
{
    if sent.opening & r.commands.receive_word & !r.has_error() & is_data_in_ready(r) {
        return Rule::Opens;
    }
    Rule::Refuses
}

// A CRC, due or the last. The verdict is on the one first taken.
fn decide_crc(r: Receiver, due: bool) -> Rule
    ensures { result ≡ decided_crc r due }
{
    if !r.channel.owed {
        return Rule::TakesCrc;
    }
    if !r.channel.good {
        return Rule::BadCrc;
    }
    if due {
        return Rule::Restarts;
    }
    if is_data_out_ready(r) & !r.channel.truncated {
        return Rule::Waits;
    }
    Rule::Succeeds
}

fn decide_word(r: Receiver) -> Rule
    ensures { result ≡ decided_word r }
{
    if (r.commands.receive_data | r.commands.receive_word) & is_data_in_ready(r) {
        return Rule::Stores;
    }
    Rule::NotReady
}

fn decide_open(r: Receiver, sent: Sent) -> Rule
    ensures { result ≡ decided_open r sent }
{
    // An error bit other than BC OFL.
    let fault = r.faults.time_out
        | r.faults.parity
        | r.faults.transmission_error
        | r.faults.memory_overflow
        | r.faults.nonexistent_location;
    if fault {
        return Rule::Faulted;
    }
    if r.channel.bad_parity {
        return Rule::BadParity;
    }
    let code = sent.code;
    if code == 0 {
        return Rule::OffLine;
    }
    if r.modes.reject & !r.commands.receive_data {
        return Rule::Rejects;
    }
    if r.modes.reject & r.commands.receive_data & (code != 3) & !r.channel.owed {
        return Rule::Truncates;
    }
    match code {
        3 => decide_crc(r, false),
        2 => {
            if r.end.block == 128 {
                return decide_crc(r, true);
            }
            decide_word(r)
        }
        _ => Rule::Null,
    }
}

// Rule 1, open with another than the transmitter `from`.
pub fn is_open_with_another(r: Receiver, from: u16) -> bool
    ensures { result ≡ open_with_another r from }
{
    r.end.opened & (r.modes.sender != from)
}

// Document 02, No. 1: an opening word, where rule 1 does not fit.
fn is_reopening(r: Receiver, sent: Sent) -> bool
    ensures { result ≡ reopening r sent }
{
    r.end.opened & sent.opening
}

// The transmitter `from` has sent this to the receiver.
pub fn decide(r: Receiver, from: u16, sent: Sent) -> Rule
    ensures { result ≡ decided r from sent }
{
    if is_open_with_another(r, from) {
        return Rule::Other;
    }
    if is_reopening(r, sent) {
        return Rule::Reopened;
    }
    if !r.end.opened {
        return decide_closed(r, sent);
    }
    decide_open(r, sent)
}
