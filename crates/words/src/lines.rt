// What stands on the bus in one slice: what the transmitter sends, and what the receiver answers.
ghost use Rattle.std.specs.Prelude.{◌≡◌};
ghost use Rattle.words.specs.Lines.{sent_as, damaged, answered};

use crate::parity::parity_line;

// The code A, and the sixteen data lines with their parity; and, which are no lines, whether this is an opening word, and the serial that
// goes with one.
#[derive(Clone, Copy)]
pub struct Sent {
    pub code: u16,
    pub word: u16,
    pub parity: bool,
    pub opening: bool,
    pub serial: u16,
}

// The code B, and what the receiver tells beside it: that it rejects or truncates the message, that its count of 128 restarts,
// that the message which ends here was truncated.
#[derive(Clone, Copy, Default)]
pub struct Answer {
    pub code: u16,
    pub rejects: bool,
    pub truncates: bool,
    pub restarts: bool,
    pub truncated: bool,
}

pub fn send(code: u16, word: u16, opening: bool, serial: u16) -> Sent
    ensures { result ≡ sent_as code word opening serial }
{
    Sent {
        code,
        word,
        parity: parity_line(word),
        opening,
        serial,
    }
}

// A damage mask inverts lines. The mark of an opening word and its serial are none of them.
pub fn damage(sent: Sent, mask: u16, parity: bool) -> Sent
    ensures { result ≡ damaged sent mask parity }
{
    if parity {
        return Sent {
            word: sent.word ^ mask,
            parity: !sent.parity,
            ..sent
        };
    }
    Sent {
        word: sent.word ^ mask,
        ..sent
    }
}

// The code B alone.
pub fn give(code: u16) -> Answer
    ensures { result ≡ answered code }
{
    Answer {
        code,
        ..Answer::default()
    }
}
