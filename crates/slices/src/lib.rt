// One slice between a transmitter and the receiver that it addresses, as a function of the two records: they may be of one unit.
#![tactic(auto)]

ghost use Rattle.std.specs.Prelude.{◌≡◌, ◌≤◌};
ghost use Rattle.slices.specs.Slice.{passed, exchanged_as, exchanged, unheard, sent_alone_as, sent_alone};

use answering::rules::answer_slice;
use receiver::side::Receiver;
use sending::choice::{Choice, acts, choose, code, make_sent};
use sending::hearing::hear;
use transmitter::side::Transmitter;
use words::codes::Codes;
use words::lines::{Sent, damage, give};

// Both ends after the slice, and its codes.
#[derive(Clone, Copy)]
pub struct Pair {
    pub transmitter: Transmitter,
    pub receiver: Receiver,
    pub codes: Codes,
}

// The transmitter after a slice in which no receiver has the address, and its codes.
#[derive(Clone, Copy)]
pub struct Alone {
    pub transmitter: Transmitter,
    pub codes: Codes,
}

// What is sent is answered, and the answer heard.
#[tactic(auto, using(answering::proofs::Laws::Keeps::code_lt))]
fn pass(t: Transmitter, choice: Choice, r: Receiver, from: u16, sent: Sent) -> Pair
    requires { (t.end.block ≤ 128) × (r.end.block ≤ 128) }
    ensures { result ≡ passed t choice r from sent }
{
    let answered = answer_slice(r, from, sent);
    let answer = answered.answer;
    let receiver = answered.side;
    let a = code(choice);
    let b = answer.code;
    let transmitter = hear(t, choice, answer);
    Pair {
        transmitter,
        receiver,
        codes: Codes { a, b },
    }
}

// A transmitter that does not act leaves everything: A and B are 00.
fn exchange_as(
    t: Transmitter,
    choice: Choice,
    r: Receiver,
    from: u16,
    mask: u16,
    parity: bool,
) -> Pair
    requires { (t.end.block ≤ 128) × (r.end.block ≤ 128) }
    ensures { result ≡ exchanged_as t choice r from mask parity }
{
    if acts(choice) {
        return pass(
            t,
            choice,
            r,
            from,
            damage(make_sent(t, choice), mask, parity),
        );
    }
    Pair {
        transmitter: t,
        receiver: r,
        codes: Codes::none(),
    }
}

pub fn exchange(t: Transmitter, r: Receiver, from: u16, mask: u16, parity: bool) -> Pair
    requires { (t.end.block ≤ 128) × (r.end.block ≤ 128) }
    ensures { result ≡ exchanged t r from mask parity }
{
    exchange_as(t, choose(t), r, from, mask, parity)
}

// Nobody answers: B is 00.
fn pass_alone(t: Transmitter, choice: Choice) -> Alone
    requires { t.end.block ≤ 128 }
    ensures { result ≡ unheard t choice }
{
    let a = code(choice);
    Alone {
        transmitter: hear(t, choice, give(0)),
        codes: Codes { a, b: 0 },
    }
}

fn send_alone_as(t: Transmitter, choice: Choice) -> Alone
    requires { t.end.block ≤ 128 }
    ensures { result ≡ sent_alone_as t choice }
{
    if acts(choice) {
        return pass_alone(t, choice);
    }
    Alone {
        transmitter: t,
        codes: Codes::none(),
    }
}

pub fn send_alone(t: Transmitter) -> Alone
    requires { t.end.block ≤ 128 }
    ensures { result ≡ sent_alone t }
{
    send_alone_as(t, choose(t))
}
