// What the receiver answers, and what it does, by each rule.
ghost use Rattle.std.specs.Prelude.{◌≡◌, ◌≤◌};
ghost use Rattle.answering.specs.Laws.Parts.{told_by, done_by};
ghost use Rattle.answering.specs.Rules.{answered_by};

use crate::choice::{Rule, decide};
use crate::events::{
    close, complete_reject, fail_parity, fail_transmission, mark_truncated, open_channel, restart,
    store_word, succeed, take_crc,
};
use ends::sides::{Answered, Side};
use receiver::side::Receiver;
use words::lines::{Answer, Sent, give};

// The code B, and what is told beside it. The message that ends here was truncated, or not.
fn tell(rule: Rule, truncated: bool) -> Answer
    ensures { result ≡ told_by rule truncated }
{
    match rule {
        Rule::Other | Rule::Reopened | Rule::Refuses | Rule::Faulted | Rule::OffLine => give(0),
        Rule::TakesCrc | Rule::Waits | Rule::NotReady | Rule::Null => give(1),
        Rule::BadParity | Rule::BadCrc => give(2),
        Rule::Opens | Rule::Stores => give(3),
        Rule::Rejects => Answer {
            rejects: true,
            ..give(1)
        },
        Rule::Truncates => Answer {
            truncates: true,
            ..give(1)
        },
        Rule::Restarts => Answer {
            restarts: true,
            ..give(3)
        },
        Rule::Succeeds => Answer {
            truncated,
            ..give(3)
        },
    }
}

// The receiver as it was, and with the codes of this slice shown: a slice that is not of its channel leaves it as it was.
fn act(was: Receiver, r: Receiver, from: u16, sent: Sent, rule: Rule) -> Receiver
    requires { r.end.block ≤ 128 }
    ensures { result ≡ done_by was r from sent rule }
{
    match rule {
        Rule::Other | Rule::Refuses => was,
        Rule::Reopened | Rule::OffLine => close(fail_transmission(r)),
        Rule::Opens => store_word(open_channel(r, from, sent.serial), sent),
        Rule::Faulted => close(r),
        Rule::BadParity | Rule::BadCrc => close(fail_parity(r)),
        Rule::Rejects => close(complete_reject(r)),
        Rule::Truncates => mark_truncated(r),
        Rule::TakesCrc => take_crc(r, sent),
        Rule::Restarts => restart(r),
        Rule::Succeeds => close(succeed(r)),
        Rule::Stores => store_word(r, sent),
        Rule::Waits | Rule::NotReady | Rule::Null => r,
    }
}

// The receiver that is addressed, in a slice in which the transmitter `from` has sent this.
pub fn answer_slice(r: Receiver, from: u16, sent: Sent) -> Answered<Receiver, Answer>
    requires { r.end.block ≤ 128 }
    ensures { result ≡ answered_by r from sent }
{
    let rule = decide(r, from, sent);
    let answer = tell(rule, r.channel.truncated);
    let shown = r.show_codes(sent.code, answer.code);
    Answered {
        side: act(r, shown, from, sent, rule),
        answer,
    }
}
