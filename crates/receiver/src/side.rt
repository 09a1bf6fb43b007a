// The record of a receiver, in small groups, and what the rules ask of it.
ghost use Rattle.std.specs.Prelude.{◌≡◌, refl, true};
ghost use Rattle.receiver.specs.Fields.{with_time_out};
ghost use Rattle.receiver.specs.Groups.{with_end, with_faults};
ghost use Rattle.receiver.specs.Requests.{requested, settled};
ghost use Rattle.receiver.specs.Side.{initial, is_busy, has_error, data_in_ready, data_out_ready};

use ends::End;
use ends::sides::Side;
use silos::WORDS;

// RCR: the two commands that a request clears, and closing.
#[derive(Clone, Copy, Default)]
pub struct Commands {
    pub receive_data: bool,
    pub receive_word: bool,
}

// RCR: the rest, but for EA17 and EA16, which are part of the load's address. The sender is the last opening's, and read-only.
#[derive(Clone, Copy, Default)]
pub struct Modes {
    pub inhibit_increment: bool,
    pub interrupt_enable: bool,
    pub load_silo: bool,
    pub memory_requests: bool,
    pub reject: bool,
    pub sender: u16,
}

// RSR: the error bits.
#[derive(Clone, Copy, Default)]
pub struct Faults {
    pub byte_count_overflow: bool,
    pub time_out: bool,
    pub parity: bool,
    pub transmission_error: bool,
    pub memory_overflow: bool,
    pub nonexistent_location: bool,
}

// RSR: how a message ended.
#[derive(Clone, Copy, Default)]
pub struct Outcome {
    pub reject_complete: bool,
    pub success: bool,
}

// The channel: whether a CRC was taken and its verdict is owed, that verdict is good, the word before had bad parity, the message is
// truncated.
#[derive(Clone, Copy, Default)]
pub struct Channel {
    pub owed: bool,
    pub good: bool,
    pub bad_parity: bool,
    pub truncated: bool,
}

#[derive(Clone, Copy)]
pub struct Receiver {
    pub end: End,
    pub commands: Commands,
    pub modes: Modes,
    pub faults: Faults,
    pub outcome: Outcome,
    pub channel: Channel,
}

impl Side for Receiver {
    type Faults = Faults;

    ghost initial = { initial };

    ghost end_of = { λ r. r.end };

    ghost with_end = { with_end };

    ghost with_faults = { with_faults };

    ghost timed_out = { λ r. with_time_out r.faults true };

    ghost is_busy = { is_busy };

    ghost counts_periods = { λ r. r.end.opened };

    ghost has_error = { has_error };

    ghost requested = { requested };

    ghost settled = { settled };

    ghost settles = { λ _. refl };

    fn start(serial: u16) -> Receiver {
        Receiver {
            end: End::none(serial),
            commands: Commands::default(),
            modes: Modes::default(),
            faults: Faults::default(),
            outcome: Outcome::default(),
            channel: Channel::default(),
        }
    }

    fn end(self) -> End {
        self.end
    }

    fn with_end(self, end: End) -> Receiver {
        Receiver { end, ..self }
    }

    fn with_faults(self, faults: Faults) -> Receiver {
        Receiver { faults, ..self }
    }

    fn timed_out(self) -> Faults {
        Faults {
            time_out: true,
            ..self.faults
        }
    }

    fn is_busy(self) -> bool {
        self.commands.receive_word | self.end.opened
    }

    // The period's mark may stand where it is open, whatever RCV WD is.
    fn counts_periods(self) -> bool {
        self.end.opened
    }

    fn has_error(self) -> bool {
        self.faults.byte_count_overflow
            | self.faults.time_out
            | self.faults.parity
            | self.faults.transmission_error
            | self.faults.memory_overflow
            | self.faults.nonexistent_location
    }

    // A request clears RCV WD and RCV DAT.
    fn request(self) -> Receiver {
        Receiver {
            commands: Commands::default(),
            ..self
        }
    }
}

// DTIRDY.
pub fn is_data_in_ready(r: Receiver) -> bool
    ensures { result ≡ data_in_ready r }
{
    let silo = r.end.silo;
    silo.has_room(WORDS)
}

// DTORDY.
pub fn is_data_out_ready(r: Receiver) -> bool
    ensures { result ≡ data_out_ready r }
{
    let silo = r.end.silo;
    !silo.is_empty()
}
