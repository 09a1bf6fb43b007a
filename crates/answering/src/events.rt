// What can happen to a receiver in a slice of its channel.
ghost use Rattle.std.specs.Prelude.{◌≡◌, ◌≤◌};
ghost use Rattle.answering.specs.Events.{closed, parity_failed, transmission_failed, reject_completed, succeeded, word_kept, word_stored, opening, crc_taken, restarted, truncated_now};

use ends::End;
use ends::sides::Side;
use receiver::side::{Channel, Commands, Faults, Modes, Outcome, Receiver};
use silos::WORDS;
use words::codes::Codes;
use words::lines::Sent;
use words::parity::parity_is_good;

// The channel closes, which clears RCV WD, RCV DAT and REJ. No longer open, it is not truncated and has no mark of the period.
pub fn close(r: Receiver) -> Receiver
    ensures { result ≡ closed r }
{
    Receiver {
        end: End {
            opened: false,
            mark: false,
            ..r.end
        },
        commands: Commands::default(),
        modes: Modes {
            reject: false,
            ..r.modes
        },
        channel: Channel {
            truncated: false,
            ..r.channel
        },
        ..r
    }
}

// PAR.
pub fn fail_parity(r: Receiver) -> Receiver
    ensures { result ≡ parity_failed r }
{
    r.fail(Faults {
        parity: true,
        ..r.faults
    })
}

// TXM ERR.
pub fn fail_transmission(r: Receiver) -> Receiver
    ensures { result ≡ transmission_failed r }
{
    r.fail(Faults {
        transmission_error: true,
        ..r.faults
    })
}

// RECOM.
pub fn complete_reject(r: Receiver) -> Receiver
    ensures { result ≡ reject_completed r }
{
    let outcome = Outcome {
        reject_complete: true,
        ..r.outcome
    };
    let next = Receiver { outcome, ..r };
    next.request()
}

// SUC TXF, which clears the codes shown, and RECOM if the message was truncated.
pub fn succeed(r: Receiver) -> Receiver
    ensures { result ≡ succeeded r }
{
    let next = Receiver {
        end: End {
            shown: Codes::none(),
            ..r.end
        },
        outcome: Outcome {
            reject_complete: r.channel.truncated | r.outcome.reject_complete,
            success: true,
        },
        ..r
    };
    next.request()
}

// The word is in the silo and counted, and its parity is noted.
fn keep_word(r: Receiver, sent: Sent) -> Receiver
    requires { r.end.block ≤ 128 }
    ensures { result ≡ word_kept r sent }
{
    let end = r.end;
    let silo = end.silo.put(WORDS, sent.word);
    let stored = End { silo, ..end };
    Receiver {
        end: stored.count(sent.word),
        channel: Channel {
            bad_parity: !parity_is_good(sent.word, sent.parity),
            ..r.channel
        },
        ..r
    }
}

// A word stored with RCV DAT clear makes a request.
pub fn store_word(r: Receiver, sent: Sent) -> Receiver
    requires { r.end.block ≤ 128 }
    ensures { result ≡ word_stored r sent }
{
    let next = keep_word(r, sent);
    if r.commands.receive_data {
        return next;
    }
    next.request()
}

// The channel opens with the transmitter `from`, everything afresh, with the serial that came with the opening word.
pub fn open_channel(r: Receiver, from: u16, serial: u16) -> Receiver
    ensures { result ≡ opening r from serial }
{
    let end = r.end;
    Receiver {
        end: end.open(serial),
        modes: Modes {
            sender: from,
            ..r.modes
        },
        channel: Channel::default(),
        ..r
    }
}

// A CRC is taken: its verdict, from now on owed, is whether it is the receiver's own. Its parity is not checked.
pub fn take_crc(r: Receiver, sent: Sent) -> Receiver
    ensures { result ≡ crc_taken r sent }
{
    let good = sent.word == r.end.crc;
    let channel = Channel {
        owed: true,
        good,
        ..r.channel
    };
    Receiver { channel, ..r }
}

// A good due CRC: the count of 128 and the CRC start again, and no verdict is owed.
pub fn restart(r: Receiver) -> Receiver
    ensures { result ≡ restarted r }
{
    let end = r.end;
    Receiver {
        end: end.restart(),
        channel: Channel {
            owed: false,
            good: false,
            ..r.channel
        },
        ..r
    }
}

// Truncation: it is marked until the receiver closes.
pub fn mark_truncated(r: Receiver) -> Receiver
    ensures { result ≡ truncated_now r }
{
    let channel = Channel {
        truncated: true,
        ..r.channel
    };
    Receiver { channel, ..r }
}
