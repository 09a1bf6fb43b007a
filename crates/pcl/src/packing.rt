// The plain number that C gets for a call's answer: document 01's number below, the value above it.
ghost use Rattle.std.specs.Prelude.{◌≡◌, ◌+◌, ◌*◌, ◌<◌, ◌≤◌, ◌^◌, Result, Ok, Err, refl, ℕ};
ghost use Rattle.std.proofs.Common.{rules};
ghost use Rattle.words.specs.declared.answers.Refusal.{Refusal};
ghost use Rattle.pcl.specs.Numbers.{read_call_number, read_call_word, write_call_number, no_value, done_number, level_number, level_value, wants_number, wants_value, move_call_number, move_call_value, slice_number, slice_value, transfer_number, transfer_value};

use bus::slice::Given;
use service::transfers::Transfer;
use words::answers::{Refusal, Write};

// What a call answers where it is not refused. C gets a number for it, and a value above the number.
pub trait Value: Copy {
    ghost use Rattle.std.specs.Prelude.{◌≡◌, ◌<◌, ◌≤◌, ◌^◌, Result, Ok, Err, ℕ};
    ghost use Rattle.words.specs.Answers.{number_of};
    ghost use Rattle.words.specs.declared.answers.Refusal.{Refusal};

    // the number and the value of an answer, which may be a refusal, and a limit of the value
    ghost number_in: { Result Self Refusal → ℕ };

    ghost value_in: { Result Self Refusal → ℕ };

    ghost limit: { ℕ };

    // 0, or the number of an answer that leaves a part out.
    fn number(self) -> u64
        ensures number { result ≡ number_in (Ok self) }
        ensures low { result < 2 ^ 16 };

    // The value, 0 where there is none.
    fn value(self) -> u64
        ensures value { result ≡ value_in (Ok self) }
        ensures below { result < limit };

    // a refusal has its own number, and no value
    ghost refused: { (refusal : Refusal) → (number_in (Err refusal) ≡ number_of refusal) × (value_in (Err refusal) ≡ 0) };

    // the value has room above the number
    ghost room: { (1 ≤ limit) × (limit ≤ 2 ^ 48) };
}

impl Value for () {
    ghost number_in = { done_number };

    ghost value_in = { no_value };

    ghost limit = { 2 ^ 16 };

    ghost refused = { λ refusal. (refl, refl) };

    ghost room = { Prim.search rules };

    fn number(self) -> u64 {
        0
    }

    fn value(self) -> u64 {
        0
    }
}

impl Value for Write {
    ghost number_in = { write_call_number };

    ghost value_in = { no_value };

    ghost limit = { 2 ^ 16 };

    ghost refused = { λ refusal. (refl, refl) };

    ghost room = { Prim.search rules };

    fn number(self) -> u64 {
        match self {
            Write::Done => 0,
            Write::NotStarted => 5,
            Write::Dropped => 6,
        }
    }

    fn value(self) -> u64 {
        0
    }
}

impl Value for u16 {
    ghost number_in = { read_call_number };

    ghost value_in = { read_call_word };

    ghost limit = { 2 ^ 16 };

    ghost refused = { λ refusal. (refl, refl) };

    ghost room = { Prim.search rules };

    fn number(self) -> u64 {
        0
    }

    fn value(self) -> u64 {
        self as u64
    }
}

impl Value for bool {
    ghost number_in = { level_number };

    ghost value_in = { level_value };

    ghost limit = { 2 ^ 16 };

    ghost refused = { λ refusal. (refl, refl) };

    ghost room = { Prim.search rules };

    fn number(self) -> u64 {
        0
    }

    fn value(self) -> u64 {
        self as u64
    }
}

// A mask of 32 bits.
impl Value for u32 {
    ghost number_in = { wants_number };

    ghost value_in = { wants_value };

    ghost limit = { 2 ^ 32 };

    ghost refused = { λ refusal. (refl, refl) };

    ghost room = { Prim.search rules };

    fn number(self) -> u64 {
        0
    }

    fn value(self) -> u64 {
        self as u64
    }
}

// The address that a move missed.
impl Value for Option<u32> {
    ghost number_in = { move_call_number };

    ghost value_in = { move_call_value };

    ghost limit = { 2 ^ 32 };

    ghost refused = { λ refusal. (refl, refl) };

    ghost room = { Prim.search rules };

    fn number(self) -> u64 {
        0
    }

    fn value(self) -> u64 {
        match self {
            Some(address) => address as u64,
            None => 0,
        }
    }
}

// What a slice gave, and 8 where there is no master.
impl Value for Option<Given> {
    ghost number_in = { slice_number };

    ghost value_in = { slice_value };

    ghost limit = { 2 ^ 24 };

    ghost refused = { λ refusal. (refl, refl) };

    ghost room = { Prim.search rules };

    fn number(self) -> u64 {
        match self {
            Some(_) => 0,
            None => 8,
        }
    }

    // The address takes 5 bits, A and B 2 each.
    fn value(self) -> u64 {
        match self {
            Some(given) => {
                let codes = given.codes;
                given.address as u64 + codes.a as u64 * 32 + codes.b as u64 * 128
            }
            None => 0,
        }
    }
}

// The address that a transfer missed takes 18 bits, and the count of words stands above it.
impl Value for Transfer {
    ghost number_in = { transfer_number };

    ghost value_in = { transfer_value };

    ghost limit = { 2 ^ 36 };

    ghost refused = { λ refusal. (refl, refl) };

    ghost room = { Prim.search rules };

    fn number(self) -> u64 {
        0
    }

    fn value(self) -> u64 {
        self.missing.unwrap_or(0) as u64 + self.words as u64 * 262144
    }
}

// The number that C gets for an answer: in 64 bits, which are 32 where the value has 16.
pub fn pack<V: Value>(answer: Result<V, Refusal>) -> u64
    ensures number { result ≡ V.number_in answer + V.value_in answer * 65536 }
    ensures below { result < V.limit * 65536 }
{
    match answer {
        Ok(value) => value.number() + value.value() * 65536,
        Err(refusal) => u32::from(refusal) as u64,
    }
}
