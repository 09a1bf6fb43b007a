// The record of a transmitter, in small groups, and what the rules ask of it.
ghost use Rattle.std.specs.Prelude.{◌≡◌, refl, true};
ghost use Rattle.transmitter.specs.Fields.{with_time_out};
ghost use Rattle.transmitter.specs.Groups.{with_end, with_faults};
ghost use Rattle.transmitter.specs.Requests.{requested, settled};
ghost use Rattle.transmitter.specs.Side.{initial, is_busy, has_error, data_in_ready};

use ends::End;
use ends::sides::Side;
use silos::WORDS;

// TCR: the two commands that a request clears.
#[derive(Clone, Copy, Default)]
pub struct Commands {
    pub start_transmission: bool,
    pub send_word: bool,
}

// TCR: the rest, but for EA17 and EA16, which are part of the load's address.
#[derive(Clone, Copy, Default)]
pub struct Modes {
    pub inhibit_increment: bool,
    pub interrupt_enable: bool,
    pub read_silo: bool,
    pub memory_requests: bool,
    pub retry_if_busy: bool,
    pub destination: u16,
}

// TSR: the error bits.
#[derive(Clone, Copy, Default)]
pub struct Faults {
    pub overrun: bool,
    pub time_out: bool,
    pub master_down: bool,
    pub transmission_error: bool,
    pub memory_overflow: bool,
    pub nonexistent_location: bool,
}

// TSR: how a message ended, or did not begin.
#[derive(Clone, Copy, Default)]
pub struct Outcome {
    pub bus_busy: bool,
    pub software_reject: bool,
    pub success: bool,
}

// The channel: whether the last CRC is being sent, a CRC's verdict is awaited, and the destination latched at the opening.
#[derive(Clone, Copy, Default)]
pub struct Channel {
    pub ending: bool,
    pub awaiting: bool,
    pub destination: u16,
}

#[derive(Clone, Copy)]
pub struct Transmitter {
    pub end: End,
    pub commands: Commands,
    pub modes: Modes,
    pub faults: Faults,
    pub outcome: Outcome,
    pub channel: Channel,
}

impl Side for Transmitter {
    type Faults = Faults;

    ghost initial = { initial };

    ghost end_of = { λ t. t.end };

    ghost with_end = { with_end };

    ghost with_faults = { with_faults };

    ghost timed_out = { λ t. with_time_out t.faults true };

    ghost is_busy = { is_busy };

    ghost counts_periods = { is_busy };

    ghost has_error = { has_error };

    ghost requested = { requested };

    ghost settled = { settled };

    ghost settles = { λ _. refl };

    fn start(serial: u16) -> Transmitter {
        Transmitter {
            end: End::none(serial),
            commands: Commands::default(),
            modes: Modes::default(),
            faults: Faults::default(),
            outcome: Outcome::default(),
            channel: Channel::default(),
        }
    }

    fn end(self) -> End {
        self.end
    }

    fn with_end(self, end: End) -> Transmitter {
        Transmitter { end, ..self }
    }

    fn with_faults(self, faults: Faults) -> Transmitter {
        Transmitter { faults, ..self }
    }

    fn timed_out(self) -> Faults {
        Faults {
            time_out: true,
            ..self.faults
        }
    }

    fn is_busy(self) -> bool {
        self.commands.send_word | self.end.opened
    }

    // The period's mark may stand where it is BUSY.
    fn counts_periods(self) -> bool {
        self.is_busy()
    }

    fn has_error(self) -> bool {
        self.faults.overrun
            | self.faults.time_out
            | self.faults.master_down
            | self.faults.transmission_error
            | self.faults.memory_overflow
            | self.faults.nonexistent_location
    }

    // A request clears ST TXM and SND WD.
    fn request(self) -> Transmitter {
        Transmitter {
            commands: Commands::default(),
            ..self
        }
    }
}

// DTIRDY.
pub fn is_data_in_ready(t: Transmitter) -> bool
    ensures { result ≡ data_in_ready t }
{
    let silo = t.end.silo;
    silo.has_room(WORDS) & !t.modes.memory_requests & !t.modes.read_silo & !t.channel.ending
}
