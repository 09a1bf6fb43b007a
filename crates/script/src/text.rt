// The text of a line as it is written: byte after byte, and numbers in decimal.
ghost use Rattle.std.specs.Prelude.{[], ◌∷◌, ◌+◌, ◌≤◌, ◌<◌, length};
ghost use Rattle.script.specs.Lines.{place, decimal, long_decimal};
ghost use Rattle.script.specs.Put.{Written};

// A room that the text goes into, and the place behind what is written. Every method asks for room for the most that it writes.
#[derive(Drop)]
pub(crate) struct Writer<'a> {
    pub(crate) out: &'a mut [u8],
    pub(crate) at: usize,
}

impl Writer<'_> {
    // One byte.
    pub(crate) fn byte(&mut self, byte: u8)
        requires { self.old.at < length self.old.out.now }
        ensures { Written self.old (byte ∷ []) 1 self.new }
    {
        self.out[self.at] = byte;
        self.at += 1;
    }

    // A text as it stands.
    #[tactic(auto, using(crate::proofs::Runs::laid))]
    pub(crate) fn bytes(&mut self, bytes: &[u8])
        requires { self.old.at + length bytes.now ≤ length self.old.out.now }
        ensures { Written self.old bytes.now (length bytes.now) self.new }
    {
        let end = self.at + bytes.len();
        self.out[self.at..end].copy_from_slice(bytes);
        self.at = end;
    }

    // The digit of a number in one place, unless it and all above it are 0.
    fn place(&mut self, number: u32, unit: u32)
        requires { (self.old.at < length self.old.out.now) × (0 < unit) }
        ensures { Written self.old (place number unit) 1 self.new }
    {
        if unit <= number {
            self.byte(b'0' + (number / unit % 10) as u8);
        }
    }

    // At most five digits: of a number of 100,000 or more the last five. A line is written whatever its numbers are, and always whole,
    // so neither `{}`, which has all digits, nor `write!`, which may fail, says the same.
    #[tactic(auto, using(crate::proofs::Putting::both), unfolding(crate::specs::Lines::decimal))]
    pub(crate) fn number(&mut self, number: u32)
        requires { self.old.at + 5 ≤ length self.old.out.now }
        ensures { Written self.old (decimal number) 5 self.new }
    {
        self.place(number, 10_000);
        self.place(number, 1_000);
        self.place(number, 100);
        self.place(number, 10);
        self.byte(b'0' + (number % 10) as u8);
    }

    // At most six, alike.
    #[tactic(auto, using(crate::proofs::Putting::both), unfolding(crate::specs::Lines::long_decimal))]
    pub(crate) fn long_number(&mut self, number: u32)
        requires { self.old.at + 6 ≤ length self.old.out.now }
        ensures { Written self.old (long_decimal number) 6 self.new }
    {
        self.place(number, 100_000);
        self.number(number);
    }
}
