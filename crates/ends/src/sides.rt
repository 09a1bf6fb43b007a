// What a transmitter and a receiver do alike.
ghost use Rattle.std.specs.Prelude.{◌≡◌, Ok};
ghost use Rattle.words.specs.declared.answers.Write.{Write};

use crate::End;
use words::answers::{Refusal, Write};

// A side after an access, a memory move or a slice, and the answer to it.
#[derive(Clone, Copy)]
pub struct Answered<S, A> {
    pub side: S,
    pub answer: A,
}

// A side after a write that was done.
pub fn written<S>(side: S) -> Answered<S, Result<Write, Refusal>>
    ensures { result ≡ record { side = side; answer = Ok Write.Done } }
{
    Answered {
        side,
        answer: Ok(Write::Done),
    }
}

// A side of a unit: what the rules that both follow ask of it, and those rules. Each ghost member is the side's own definition.
pub trait Side: Copy {
    ghost use Rattle.std.specs.Prelude.{Bool, ◌&&◌, true, ◌≡◌, ℕ, Ok, Err};
    ghost use Rattle.laws.specs.Pick.{pick};
    ghost use Rattle.ends.specs.Ends.{with_silo, with_load, with_shown, with_mark};
    ghost use Rattle.ends.specs.declared.End.{End};
    ghost use Rattle.silos.specs.Silo.{is_empty, oldest, taken};
    ghost use Rattle.words.specs.Codes.{codes_shown};
    ghost use Rattle.words.specs.Load.{Bounded, count_loaded, low_loaded};
    ghost use Rattle.words.specs.declared.answers.Refusal.{Refusal};

    // Its error bits.
    type Faults: Copy;

    ghost initial: { ℕ → Self };

    ghost end_of: { Self → End };

    ghost with_end: { Self → End → Self };

    ghost with_faults: { Self → Self.Faults → Self };

    ghost timed_out: { Self → Self.Faults };

    ghost is_busy: { Self → Bool };

    ghost counts_periods: { Self → Bool };

    ghost has_error: { Self → Bool };

    ghost requested: { Self → Self };

    ghost settled: { Self → Self };

    // What fit, INIT and reset give, with the serial that fit makes 0 and the others keep.
    fn start(serial: u16) -> Self
        ensures { result ≡ initial serial };

    // Its end of the channel.
    fn end(self) -> End
        ensures { result ≡ end_of self };

    // With another end, and all else as it was.
    fn with_end(self, end: End) -> Self
        ensures { result ≡ with_end self end };

    // With other error bits, and all else as it was.
    fn with_faults(self, faults: Self::Faults) -> Self
        ensures { result ≡ with_faults self faults };

    // The error bits with TIM OUT among them.
    fn timed_out(self) -> Self::Faults
        ensures { result ≡ timed_out self };

    // BUSY.
    fn is_busy(self) -> bool
        ensures { result ≡ is_busy self };

    // Whether the period's mark may stand: at a transmitter that is BUSY, at a receiver that is open.
    fn counts_periods(self) -> bool
        ensures { result ≡ counts_periods self };

    // ERR.
    fn has_error(self) -> bool
        ensures { result ≡ has_error self };

    // A request, which clears the two commands.
    fn request(self) -> Self
        ensures { result ≡ requested self };

    ghost settles: { (s : Self) → settled s ≡ with_end s (with_mark (end_of s) ((end_of s).mark && counts_periods s)) };

    // The end of every call that may leave the side where no mark stands, which clears the period's mark at once.
    final fn settle(self) -> Self
        ensures { result ≡ settled self }
    {
        let end = self.end();
        let mark = end.mark & self.counts_periods();
        self.with_end(End { mark, ..end })
    }

    // An event that sets an error bit.
    final fn fail(self, faults: Self::Faults) -> Self
        ensures { result ≡ settled (requested (with_faults self faults)) }
    {
        self.with_faults(faults).request().settle()
    }

    // With a request made, where a write makes one.
    final fn request_if(self, makes: bool) -> Self
        ensures { result ≡ pick makes (settled (requested self)) self }
    {
        if makes {
            return self.request().settle();
        }
        self
    }

    // A period: with the mark standing, TIM OUT; else the mark is set, and settles to none where it may not stand.
    final fn pass_period(self) -> Self
        ensures { result ≡ pick ((end_of self).mark && counts_periods self)
            (settled (requested (with_faults self (timed_out self)))) (settled (with_end self (with_mark (end_of self) true))) }
    {
        let end = self.end();
        if end.mark & self.counts_periods() {
            return self.fail(self.timed_out());
        }
        let marked = End { mark: true, ..end };
        self.with_end(marked).settle()
    }

    // Bits 0 to 3 of the status register: the codes of this slice, unless an error stood before it.
    final fn show_codes(self, a: u16, b: u16) -> Self
        ensures { result ≡ with_end self (with_shown (end_of self) (codes_shown (end_of self).shown (has_error self) a b)) }
    {
        let end = self.end();
        let shown = end.shown.show(self.has_error(), a, b);
        self.with_end(End { shown, ..end })
    }

    // The data register: the oldest word, which a read removes or not.
    final fn read_oldest(self, removes: bool) -> Answered<Self, Result<u16, Refusal>>
        ensures { result ≡ pick (is_empty (end_of self).silo) (record { side = self; answer = Err Refusal.Nothing })
            (record {
              side = pick removes (with_end self (with_silo (end_of self) (taken (end_of self).silo))) self;
              answer = Ok (oldest (end_of self).silo);
            }) }
    {
        let end = self.end();
        if end.silo.is_empty() {
            return Answered {
                side: self,
                answer: Err(Refusal::Nothing),
            };
        }
        let answer = Ok(end.silo.oldest());
        if removes {
            let silo = end.silo.take();
            let side = self.with_end(End { silo, ..end });
            return Answered { side, answer };
        }
        Answered { side: self, answer }
    }

    // The byte count register: a written count is a load.
    final fn write_count(self, word: u16) -> Self
        ensures { result ≡ with_end self (with_load (end_of self) (count_loaded (end_of self).load word)) }
    {
        let end = self.end();
        let load = end.load.with_count(word);
        self.with_end(End { load, ..end })
    }

    // The bus address register: the low 16 bits.
    final fn write_address(self, word: u16) -> Self
        requires { Bounded (end_of self).load }
        ensures { result ≡ with_end self (with_load (end_of self) (low_loaded (end_of self).load word)) }
    {
        let end = self.end();
        let load = end.load.with_low(word);
        self.with_end(End { load, ..end })
    }
}
