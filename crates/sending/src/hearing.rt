// What a transmitter makes of the answer to what it sent.
ghost use Rattle.std.specs.Prelude.{◌≡◌, ◌<◌, ◌≤◌};
ghost use Rattle.sending.specs.Hearing.{after_sending, finished, word_heard, acknowledged, ending_now, followed, heard_open, heard_closed, heard_acting, heard};

use crate::chart::{Entry, look_up};
use crate::choice::{Choice, code};
use crate::events::{
    accept_word, be_rejected, close, fail_to_send, meet_busy, open_channel, restart, succeed,
};
use ends::sides::Side;
use transmitter::side::{Channel, Transmitter};
use words::lines::Answer;

// Truncation, or the last CRC sent: it becomes ending.
fn end(t: Transmitter) -> Transmitter
    ensures { result ≡ ending_now t }
{
    let channel = Channel {
        ending: true,
        ..t.channel
    };
    Transmitter { channel, ..t }
}

// A due CRC sent: it awaits the verdict.
fn mark_sent(t: Transmitter, choice: Choice) -> Transmitter
    ensures { result ≡ after_sending t choice }
{
    match choice {
        Choice::LastCrc => end(t),
        Choice::DueCrc => {
            let channel = Channel {
                awaiting: true,
                ..t.channel
            };
            Transmitter { channel, ..t }
        }
        _ => t,
    }
}

// Success, with SORE if the message was truncated.
fn finish(t: Transmitter, truncated: bool) -> Transmitter
    ensures { result ≡ finished t truncated }
{
    if truncated {
        return close(succeed(be_rejected(t)));
    }
    close(succeed(t))
}

// 11 to a word; where that was the receiver's verdict on a due CRC, both counts have restarted.
fn hear_word(t: Transmitter, restarts: bool) -> Transmitter
    requires { t.end.block ≤ 128 }
    ensures { result ≡ word_heard t restarts }
{
    if restarts {
        return accept_word(restart(t));
    }
    accept_word(t)
}

// 11 where the chart says stay.
fn hear_acknowledge(t: Transmitter, choice: Choice, restarts: bool) -> Transmitter
    requires { t.end.block ≤ 128 }
    ensures { result ≡ acknowledged t choice restarts }
{
    match choice {
        Choice::Word => hear_word(t, restarts),
        Choice::DueCrc => restart(t),
        _ => t,
    }
}

// What the chart's entry says. Where it says stay, 11 is an acknowledgement.
fn follow(t: Transmitter, choice: Choice, answer: Answer, entry: Entry) -> Transmitter
    requires { t.end.block ≤ 128 }
    ensures { result ≡ followed t choice answer entry }
{
    match entry {
        Entry::Close => close(t),
        Entry::CloseWithError => close(fail_to_send(t)),
        Entry::CloseWithSuccess => finish(t, answer.truncated),
        Entry::Stay => {
            if answer.code == 3 {
                return hear_acknowledge(t, choice, answer.restarts);
            }
            t
        }
    }
}

// An open transmitter follows the chart. The receiver's rules 6 and 7 come over it.
fn hear_open(t: Transmitter, choice: Choice, answer: Answer) -> Transmitter
    requires { (t.end.block ≤ 128) × (answer.code < 4) }
    ensures { result ≡ heard_open t choice answer }
{
    if answer.rejects {
        return close(be_rejected(t));
    }
    if answer.truncates {
        return end(t);
    }
    follow(t, choice, answer, look_up(code(choice), answer.code))
}

// A closed transmitter is opened by 11, and busy by 00.
fn hear_closed(t: Transmitter, b: u16) -> Transmitter
    ensures { result ≡ heard_closed t b }
{
    if b == 3 {
        return accept_word(open_channel(t));
    }
    if b == 0 {
        return meet_busy(t);
    }
    t
}

fn hear_acting(t: Transmitter, choice: Choice, answer: Answer) -> Transmitter
    requires { (t.end.block ≤ 128) × (answer.code < 4) }
    ensures { result ≡ heard_acting t choice answer }
{
    match choice {
        Choice::Idle => t,
        Choice::Opening => hear_closed(t, answer.code),
        _ => hear_open(t, choice, answer),
    }
}

// A transmitter that acted, and was answered.
pub fn hear(t: Transmitter, choice: Choice, answer: Answer) -> Transmitter
    requires { (t.end.block ≤ 128) × (answer.code < 4) }
    ensures { result ≡ heard t choice answer }
{
    let sent = mark_sent(t, choice);
    let shown = sent.show_codes(code(choice), answer.code);
    hear_acting(shown, choice, answer).settle()
}
