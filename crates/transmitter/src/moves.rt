// Memory moves: a word of the host memory into the silo.
ghost use Rattle.std.specs.Prelude.{◌≡◌, ◌≤◌, length};
ghost use Rattle.transmitter.specs.Moves.{may_move, nonexistent, missed_at, word_loaded, overflowed, advanced, moved};
ghost use Rattle.transmitter.specs.Side.{Within};

use crate::side::{Faults, Modes, Transmitter};
use ends::End;
use ends::sides::{Answered, Side};
use silos::WORDS;
use words::answers::Refusal;
use words::load::Advance;

// The transmitter after a move, and the answer: an address comes with NXL alone.
pub type Moved = Answered<Transmitter, Result<Option<u32>, Refusal>>;

// Whether there is something to move, and room for it.
pub fn may_move(t: Transmitter) -> bool
    ensures { result ≡ may_move t }
{
    let silo = t.end.silo;
    let load = t.end.load;
    t.modes.memory_requests
        & load.loaded
        & !t.has_error()
        & silo.has_room(WORDS)
        & !t.modes.read_silo
        & !t.channel.ending
}

// NXL.
fn miss(t: Transmitter) -> Transmitter
    ensures { result ≡ nonexistent t }
{
    t.fail(Faults {
        nonexistent_location: true,
        ..t.faults
    })
}

// NXL, and the address tried with it.
fn miss_at(t: Transmitter, tried: u32) -> Moved
    ensures { result ≡ missed_at t tried }
{
    Answered {
        side: miss(t),
        answer: Ok(Some(tried)),
    }
}

// Memory overflow.
fn overflow(t: Transmitter) -> Transmitter
    ensures { result ≡ overflowed t }
{
    t.fail(Faults {
        memory_overflow: true,
        ..t.faults
    })
}

// The word is loaded, and the count and the address have gone on. Count 0 clears TX NPR.
fn take_word(t: Transmitter, word: u16, advance: Advance) -> Transmitter
    ensures { result ≡ advanced t word advance }
{
    let silo = t.end.silo;
    let load = advance.load;
    let next = Transmitter {
        end: End {
            silo: silo.put(WORDS, word),
            load,
            ..t.end
        },
        modes: Modes {
            memory_requests: t.modes.memory_requests & load.loaded,
            ..t.modes
        },
        ..t
    };
    if advance.overflow {
        return overflow(next);
    }
    next
}

fn load_word(t: Transmitter, word: u16) -> Transmitter
    requires { Within t }
    ensures { result ≡ word_loaded t word }
{
    let load = t.end.load;
    take_word(t, word, load.word_moved(t.modes.inhibit_increment))
}

// A memory of so many words as its unit was fitted with, which may be lent with more behind it.
pub fn move_word(t: Transmitter, memory: &[u16], fitted: usize) -> Moved
    requires within { Within t }
    requires fitted_in_bounds { fitted ≤ length memory.now }
    ensures { result ≡ moved t memory.now fitted }
{
    if !may_move(t) {
        return Answered {
            side: t,
            answer: Err(Refusal::Nothing),
        };
    }
    let load = t.end.load;
    let address = load.address;
    let place = address.place(fitted);
    match place {
        Ok(at) => Answered {
            side: load_word(t, memory[at]),
            answer: Ok(None),
        },
        Err(tried) => miss_at(t, tried),
    }
}
