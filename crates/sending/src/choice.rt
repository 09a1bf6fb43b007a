// What a transmitter sends in its slice: first that fits.
ghost use Rattle.std.specs.Prelude.{◌≡◌};
ghost use Rattle.sending.specs.Choice.{may_open, all_sent, chosen_open, chosen, acts_on, destination_of, code_of, word_of, is_opening, sent_by};

use ends::raise;
use ends::sides::Side;
use transmitter::side::Transmitter;
use words::lines::{Sent, send};

// What it sends.
#[derive(Clone, Copy, PartialEq, Eq)]
pub enum Choice {
    // It does not act.
    Idle,
    // Not open: a word.
    Opening,
    // Open, with ERR.
    Stopped,
    // Open: the last CRC.
    LastCrc,
    // Open: a CRC after 128 words, or again until it is answered 11.
    DueCrc,
    // Open: a word.
    Word,
    // Open, with nothing to send.
    Null,
}

// Whether a closed transmitter acts.
fn may_open(t: Transmitter) -> bool
    ensures { result ≡ may_open t }
{
    let silo = t.end.silo;
    t.commands.send_word & !silo.is_empty() & (t.modes.destination != 0) & !t.has_error()
}

// ST TXM set, no bytes left, silo empty.
fn all_sent(t: Transmitter) -> bool
    ensures { result ≡ all_sent t }
{
    let silo = t.end.silo;
    let load = t.end.load;
    t.commands.start_transmission & (load.left().0 == 0) & silo.is_empty()
}

fn choose_open(t: Transmitter) -> Choice
    ensures { result ≡ chosen_open t }
{
    let wants = t.commands.start_transmission | t.commands.send_word;
    let full = t.end.block == 128;
    if t.has_error() {
        return Choice::Stopped;
    }
    if t.channel.ending {
        return Choice::LastCrc;
    }
    if t.channel.awaiting & wants {
        return Choice::DueCrc;
    }
    if all_sent(t) {
        return Choice::LastCrc;
    }
    if full & wants {
        return Choice::DueCrc;
    }
    let silo = t.end.silo;
    if wants & !silo.is_empty() {
        return Choice::Word;
    }
    Choice::Null
}

pub fn choose(t: Transmitter) -> Choice
    ensures { result ≡ chosen t }
{
    if t.end.opened {
        return choose_open(t);
    }
    if may_open(t) {
        return Choice::Opening;
    }
    Choice::Idle
}

// Whether it acts at all.
pub fn acts(choice: Choice) -> bool
    ensures { result ≡ acts_on choice }
{
    choice != Choice::Idle
}

// The receiver that it addresses: the destination of the moment, and once open the latched one.
pub fn destination(t: Transmitter) -> u16
    ensures { result ≡ destination_of t }
{
    if t.end.opened {
        return t.channel.destination;
    }
    t.modes.destination
}

// The code A of each.
pub fn code(choice: Choice) -> u16
    ensures { result ≡ code_of choice }
{
    match choice {
        Choice::Idle | Choice::Stopped => 0,
        Choice::Null => 1,
        Choice::Opening | Choice::DueCrc | Choice::Word => 2,
        Choice::LastCrc => 3,
    }
}

// The oldest word or the CRC.
fn word(t: Transmitter, choice: Choice) -> u16
    ensures { result ≡ word_of t choice }
{
    let silo = t.end.silo;
    match choice {
        Choice::Opening | Choice::Word => silo.oldest(),
        Choice::LastCrc | Choice::DueCrc => t.end.crc,
        Choice::Idle | Choice::Stopped | Choice::Null => 0,
    }
}

// Only what a closed transmitter sends is marked as an opening word.
fn is_opening(choice: Choice) -> bool
    ensures { result ≡ is_opening choice }
{
    choice == Choice::Opening
}

// With an opening word goes the serial of the opening.
pub fn make_sent(t: Transmitter, choice: Choice) -> Sent
    ensures { result ≡ sent_by t choice }
{
    send(
        code(choice),
        word(t, choice),
        is_opening(choice),
        raise(t.end.serial),
    )
}
