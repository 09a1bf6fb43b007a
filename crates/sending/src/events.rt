// What can happen to a transmitter in its slice.
ghost use Rattle.std.specs.Prelude.{◌≡◌, ◌≤◌};
ghost use Rattle.sending.specs.Events.{closed, succeeded, failed_to_send, was_rejected, met_busy, restarted, counted, opening, word_accepted};

use ends::sides::Side;
use ends::{End, raise};
use transmitter::side::{Channel, Faults, Outcome, Transmitter};
use words::codes::Codes;

// The channel closes: it is no longer open, nor ending.
pub fn close(t: Transmitter) -> Transmitter
    ensures { result ≡ closed t }
{
    Transmitter {
        end: End {
            opened: false,
            ..t.end
        },
        channel: Channel {
            ending: false,
            ..t.channel
        },
        ..t
    }
}

// SUC TXF, which clears the codes shown.
pub fn succeed(t: Transmitter) -> Transmitter
    ensures { result ≡ succeeded t }
{
    let next = Transmitter {
        end: End {
            shown: Codes::none(),
            ..t.end
        },
        outcome: Outcome {
            success: true,
            ..t.outcome
        },
        ..t
    };
    next.request()
}

// TXM ERR.
pub fn fail_to_send(t: Transmitter) -> Transmitter
    ensures { result ≡ failed_to_send t }
{
    let faults = Faults {
        transmission_error: true,
        ..t.faults
    };
    t.with_faults(faults).request()
}

// SORE.
pub fn be_rejected(t: Transmitter) -> Transmitter
    ensures { result ≡ was_rejected t }
{
    let outcome = Outcome {
        software_reject: true,
        ..t.outcome
    };
    let next = Transmitter { outcome, ..t };
    next.request()
}

// TBS BSY, which makes a request only with RIB clear.
pub fn meet_busy(t: Transmitter) -> Transmitter
    ensures { result ≡ met_busy t }
{
    let outcome = Outcome {
        bus_busy: true,
        ..t.outcome
    };
    let next = Transmitter { outcome, ..t };
    if t.modes.retry_if_busy {
        return next;
    }
    next.request()
}

// The count of 128 and the CRC start again, and no verdict is awaited.
pub fn restart(t: Transmitter) -> Transmitter
    ensures { result ≡ restarted t }
{
    let end = t.end;
    Transmitter {
        end: end.restart(),
        channel: Channel {
            awaiting: false,
            ..t.channel
        },
        ..t
    }
}

// The oldest word is counted and leaves the silo.
fn count_word(t: Transmitter) -> Transmitter
    requires { t.end.block ≤ 128 }
    ensures { result ≡ counted t }
{
    let silo = t.end.silo;
    let end = End {
        silo: silo.take(),
        ..t.end
    };
    Transmitter {
        end: end.count(silo.oldest()),
        ..t
    }
}

// 11 to a word: if ST TXM is clear, SUC TXF.
pub fn accept_word(t: Transmitter) -> Transmitter
    requires { t.end.block ≤ 128 }
    ensures { result ≡ word_accepted t }
{
    let next = count_word(t);
    if t.commands.start_transmission {
        return next;
    }
    succeed(next)
}

// The channel opens with the destination of the moment, everything afresh, the serial is raised by one, and TBS BSY is cleared.
pub fn open_channel(t: Transmitter) -> Transmitter
    ensures { result ≡ opening t }
{
    let end = t.end;
    Transmitter {
        end: end.open(raise(end.serial)),
        outcome: Outcome {
            bus_busy: false,
            ..t.outcome
        },
        channel: Channel {
            destination: t.modes.destination,
            ..Channel::default()
        },
        ..t
    }
}
