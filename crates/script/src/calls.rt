// The call that a record asks for.
ghost use Rattle.std.specs.Prelude.{◌≡◌};
ghost use Rattle.script.specs.Records.{sized, call_of};

use crate::bytes::{byte_at, word_at};

// The set-ups of a fit stand in its record behind the count, three bytes for each unit.
#[derive(Clone, Copy)]
pub enum Call {
    Fit { count: u8 },
    WordWrite { unit: u8, offset: u8, word: u16 },
    WordRead { unit: u8, offset: u8 },
    Slice { mask: u16, parity: u8 },
    Move { unit: u8, side: u8 },
    Period { unit: u8 },
    Reset { unit: u8 },
    ByteWrite { unit: u8, offset: u8, byte: u8 },
    Level { unit: u8, side: u8 },
}

// What the bytes of an input begin with: a call, and how many bytes its record has; the end of the input; what has to print `stop`.
// Or they do not tell, and more of the input is wanted.
#[derive(Clone, Copy)]
pub enum Found {
    Call(Call, usize),
    End,
    Stop,
    More,
}

// A call whose kind and body have the length that its kind asks for.
fn sized(bytes: &[u8], length: usize, call: Call) -> Found
    ensures { result ≡ sized bytes.now length call }
{
    if bytes.len() == length {
        return Found::Call(call, 2 + length);
    }
    Found::Stop
}

// The call of a record, of which these are kind and body. The kinds stand here alone, by the numbers that a record has for them.
#[tactic(auto, unfolding(crate::specs::Records::call_of))]
pub(crate) fn call_of(bytes: &[u8]) -> Found
    ensures { result ≡ call_of bytes.now }
{
    let kind = word_at(bytes, 0);
    let first = byte_at(bytes, 2);
    let second = byte_at(bytes, 3);
    let third = byte_at(bytes, 4);
    match kind {
        1 => sized(bytes, 3 + 3 * first as usize, Call::Fit { count: first }),
        2 => sized(
            bytes,
            6,
            Call::WordWrite {
                unit: first,
                offset: second,
                word: word_at(bytes, 4),
            },
        ),
        3 => sized(
            bytes,
            4,
            Call::WordRead {
                unit: first,
                offset: second,
            },
        ),
        4 => sized(
            bytes,
            5,
            Call::Slice {
                mask: word_at(bytes, 2),
                parity: third,
            },
        ),
        5 => sized(
            bytes,
            4,
            Call::Move {
                unit: first,
                side: second,
            },
        ),
        6 => sized(bytes, 3, Call::Period { unit: first }),
        7 => sized(bytes, 3, Call::Reset { unit: first }),
        8 => sized(
            bytes,
            5,
            Call::ByteWrite {
                unit: first,
                offset: second,
                byte: third,
            },
        ),
        9 => sized(
            bytes,
            4,
            Call::Level {
                unit: first,
                side: second,
            },
        ),
        _ => Found::Stop,
    }
}
