// The records of a script.
ghost use Rattle.std.specs.Prelude.{◌≡◌};
ghost use Rattle.script.specs.Records.{cut_short, record_in, next_record};

use crate::bytes::word_at;
use crate::calls::{Found, call_of};

// The length of the longest record, a fit of 255 units. No record is longer, so 770 bytes of the input hold one.
const LONGEST: usize = 768;

// A record that the bytes at hand cut short: their end may be the input's.
fn cut_short(ended: bool) -> Found
    ensures { result ≡ cut_short ended }
{
    if ended { Found::Stop } else { Found::More }
}

// The record that these bytes begin with.
fn read_record(rest: &[u8], ended: bool) -> Found
    ensures { result ≡ record_in rest.now ended }
{
    if rest.len() < 2 {
        return cut_short(ended);
    }
    let length = word_at(rest, 0) as usize;
    if length > LONGEST {
        return Found::Stop;
    }
    match rest.get(2..2 + length) {
        Some(bytes) => call_of(bytes),
        None => cut_short(ended),
    }
}

// What comes next in the input, of which these are the bytes at hand. `ended` says that no more come after them.
#[tactic(auto, unfolding(crate::specs::Records::next_record))]
pub fn next_record(rest: &[u8], ended: bool) -> Found
    ensures { result ≡ next_record rest.now ended }
{
    if rest.is_empty() {
        return if ended { Found::End } else { Found::More };
    }
    read_record(rest, ended)
}
