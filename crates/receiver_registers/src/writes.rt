// What a write of each register of a receiver does; RDBC and RDBA are written as at every side.
ghost use Rattle.std.specs.Prelude.{◌≡◌};
ghost use Rattle.receiver_registers.specs.Writing.{modes_written, faults_written, rises, control_written, status_set, status_written};

use crate::registers::asks_init;
use ends::End;
use ends::sides::Side;
use receiver::bits::{commands_in, faults_in, modes_in, outcome_in};
use receiver::side::{Faults, Modes, Receiver};
use words::bits::{bit_at, bits_at, rcr, rsr};

// The modes as written: the sender is read-only.
fn modes_written(before: Modes, word: u16) -> Modes
    ensures { result ≡ modes_written before word }
{
    Modes {
        sender: before.sender,
        ..modes_in(word)
    }
}

// RCR. RC INIT gives the initial state but for the serial, and the rest of the write is ignored.
pub fn write_control(r: Receiver, word: u16) -> Receiver
    ensures { result ≡ control_written r word }
{
    if asks_init(word) {
        return Receiver::start(r.end.serial);
    }
    let load = r.end.load;
    let next = Receiver {
        end: End {
            load: load.with_extension(bits_at(word, rcr::EA16, 2)),
            ..r.end
        },
        commands: commands_in(word),
        modes: modes_written(r.modes, word),
        ..r
    };
    next.settle()
}

// The error bits as written: NXL is cleared by a 0 and not set by a 1.
fn faults_written(before: Faults, word: u16) -> Faults
    ensures { result ≡ faults_written before word }
{
    Faults {
        nonexistent_location: before.nonexistent_location & bit_at(word, rsr::NXL),
        ..faults_in(word)
    }
}

fn set_status(r: Receiver, word: u16) -> Receiver
    ensures { result ≡ status_set r word }
{
    let shown = r.end.shown;
    let outcome = outcome_in(word);
    Receiver {
        end: End {
            shown: shown.clear(!r.outcome.success & outcome.success),
            ..r.end
        },
        faults: faults_written(r.faults, word),
        outcome,
        ..r
    }
}

// Whether a write of RSR took a bit of a request from clear to set.
fn makes_request(before: Receiver, after: Receiver) -> bool
    ensures { result ≡ rises before after }
{
    let error = !before.has_error() & after.has_error();
    let success = !before.outcome.success & after.outcome.success;
    let reject = !before.outcome.reject_complete & after.outcome.reject_complete;
    error | success | reject
}

// RSR.
pub fn write_status(r: Receiver, word: u16) -> Receiver
    ensures { result ≡ status_written r word }
{
    let after = set_status(r, word);
    after.request_if(makes_request(r, after))
}
