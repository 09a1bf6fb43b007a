// What a write of each register of a transmitter does; TSBC and TSBA are written as at every side.
ghost use Rattle.std.specs.Prelude.{◌≡◌};
ghost use Rattle.transmitter_registers.specs.Writing.{faults_written, rises, control_written, status_set, status_written, data_written};

use crate::registers::Written;
use ends::End;
use ends::sides::{Answered, Side, written};
use silos::WORDS;
use transmitter::bits::{commands_in, faults_in, modes_in, outcome_in};
use transmitter::side::{Faults, Transmitter, is_data_in_ready};
use words::answers::Write;
use words::bits::{bit_at, bits_at, tcr, tsr};

// TCR, without TX INIT.
pub fn write_control(t: Transmitter, word: u16) -> Transmitter
    ensures { result ≡ control_written t word }
{
    let load = t.end.load;
    let next = Transmitter {
        end: End {
            load: load.with_extension(bits_at(word, tcr::EA16, 2)),
            ..t.end
        },
        commands: commands_in(word),
        modes: modes_in(word),
        ..t
    };
    next.settle()
}

// The error bits as written: NXL is cleared by a 0 and not set by a 1.
fn faults_written(before: Faults, word: u16) -> Faults
    ensures { result ≡ faults_written before word }
{
    Faults {
        nonexistent_location: before.nonexistent_location & bit_at(word, tsr::NXL),
        ..faults_in(word)
    }
}

fn set_status(t: Transmitter, word: u16) -> Transmitter
    ensures { result ≡ status_set t word }
{
    let shown = t.end.shown;
    let outcome = outcome_in(word);
    Transmitter {
        end: End {
            shown: shown.clear(!t.outcome.success & outcome.success),
            ..t.end
        },
        faults: faults_written(t.faults, word),
        outcome,
        ..t
    }
}

// Whether a write of TSR took a bit of a request from clear to set.
fn makes_request(before: Transmitter, after: Transmitter) -> bool
    ensures { result ≡ rises before after }
{
    let error = !before.has_error() & after.has_error();
    let success = !before.outcome.success & after.outcome.success;
    let reject = !before.outcome.software_reject & after.outcome.software_reject;
    let busy = !before.outcome.bus_busy & after.outcome.bus_busy & !after.modes.retry_if_busy;
    error | success | reject | busy
}

// TSR.
pub fn write_status(t: Transmitter, word: u16) -> Transmitter
    ensures { result ≡ status_written t word }
{
    let after = set_status(t, word);
    after.request_if(makes_request(t, after))
}

// TSDB: taken, or dropped with OVERUN.
pub fn write_data(t: Transmitter, word: u16) -> Written
    ensures { result ≡ data_written t word }
{
    if is_data_in_ready(t) {
        let silo = t.end.silo.put(WORDS, word);
        return written(t.with_end(End { silo, ..t.end }));
    }
    Answered {
        side: t.fail(Faults {
            overrun: true,
            ..t.faults
        }),
        answer: Ok(Write::Dropped),
    }
}
