// Memory moves: a word of the silo into the host memory.
ghost use Rattle.std.specs.Prelude.{◌≡◌, List, ℕ, ◌≤◌, ◌<◌, length};
ghost use Rattle.words.specs.Address.{place_of};
ghost use Rattle.receiver.specs.Moves.{Moved, may_move, exceeded, nonexistent, missed_at, overflowed, advanced, word_passed, word_stored, moved};
ghost use Rattle.receiver.specs.Side.{Within};

use crate::side::{Faults, Receiver, is_data_out_ready};
use ends::End;
use ends::sides::{Answered, Side};
use words::answers::Refusal;
use words::load::Advance;

// The receiver after a move, and the answer: an address comes with NXL alone.
pub type Moved = Answered<Receiver, Result<Option<u32>, Refusal>>;

// Whether there is something to move.
pub fn may_move(r: Receiver) -> bool
    ensures { result ≡ may_move r }
{
    r.modes.memory_requests & is_data_out_ready(r) & !r.has_error()
}

// BC OFL.
fn exceed(r: Receiver) -> Receiver
    ensures { result ≡ exceeded r }
{
    r.fail(Faults {
        byte_count_overflow: true,
        ..r.faults
    })
}

// NXL.
fn miss(r: Receiver) -> Receiver
    ensures { result ≡ nonexistent r }
{
    r.fail(Faults {
        nonexistent_location: true,
        ..r.faults
    })
}

// NXL, and the address tried with it.
fn miss_at(r: Receiver, tried: u32) -> Moved
    ensures { result ≡ missed_at r tried }
{
    Answered {
        side: miss(r),
        answer: Ok(Some(tried)),
    }
}

// Memory overflow.
fn overflow(r: Receiver) -> Receiver
    ensures { result ≡ overflowed r }
{
    r.fail(Faults {
        memory_overflow: true,
        ..r.faults
    })
}

// The word has left the silo, and the count and the address have gone on. Count 0 leaves RC NPR set.
fn remove_word(r: Receiver, advance: Advance) -> Receiver
    ensures { result ≡ advanced r advance }
{
    let silo = r.end.silo;
    let end = End {
        silo: silo.take(),
        load: advance.load,
        ..r.end
    };
    let next = Receiver { end, ..r };
    if advance.overflow {
        return overflow(next);
    }
    next
}

fn pass_word(r: Receiver) -> Receiver
    requires { Within r }
    ensures { result ≡ word_passed r }
{
    let load = r.end.load;
    remove_word(r, load.word_moved(r.modes.inhibit_increment))
}

// The word is stored at an index of the memory.
fn store_word(r: Receiver, memory: &mut [u16], at: usize) -> Moved
    requires within { Within r }
    requires at_in_bounds { at < length memory.old }
    ensures { ◌≡◌ {A = Moved × List ℕ} (result, memory.new) (word_stored r memory.old at) }
{
    let silo = r.end.silo;
    memory[at] = silo.oldest();
    Answered {
        side: pass_word(r),
        answer: Ok(None),
    }
}

// The word of a memory of so many words that the load's address names, or the address that names none.
fn find_place(r: Receiver, memory: usize) -> Result<usize, u32>
    ensures { result ≡ place_of r.end.load.address.0 memory }
{
    let load = r.end.load;
    let address = load.address;
    address.place(memory)
}

// A memory of so many words as its unit was fitted with, which may be lent with more behind it.
pub fn move_word(r: Receiver, memory: &mut [u16], fitted: usize) -> Moved
    requires within { Within r }
    requires fitted_in_bounds { fitted ≤ length memory.old }
    ensures { ◌≡◌ {A = Moved × List ℕ} (result, memory.new) (moved r memory.old fitted) }
{
    if !may_move(r) {
        return Answered {
            side: r,
            answer: Err(Refusal::Nothing),
        };
    }
    if !r.end.load.loaded {
        return Answered {
            side: exceed(r),
            answer: Ok(None),
        };
    }
    let place = find_place(r, fitted);
    match place {
        Ok(at) => store_word(r, memory, at),
        Err(tried) => miss_at(r, tried),
    }
}
