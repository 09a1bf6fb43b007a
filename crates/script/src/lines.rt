// The text of a line.
ghost use Rattle.std.specs.Prelude.{List, ◌≡◌, ℕ, ◌+◌, ◌≤◌, length};
ghost use Rattle.script.specs.Put.{Written};
ghost use Rattle.script.specs.Lines.{start, added, plain_line, value_line, slice_line, missing_line, line_text, line_put};

use crate::text::Writer;

// A line: what a call was answered, with the values that number 0 brings; or `stop`. A slice's are address, A and B. Of a move, the address
// that was missing.
#[derive(Clone, Copy)]
pub enum Line {
    Call {
        kind: u32,
        number: u32,
    },
    Read {
        number: u32,
        word: u32,
    },
    Slice {
        number: u32,
        address: u32,
        a: u32,
        b: u32,
    },
    Level {
        number: u32,
        level: u32,
    },
    Missing {
        address: u32,
    },
    Stop,
}

// No line is longer.
pub const LONGEST: usize = 32;

const BLANK: u8 = b' ';

const NEW_LINE: u8 = b'\n';

impl Writer<'_> {
    // The kind and the number.
    fn start(&mut self, kind: u32, number: u32)
        requires { self.old.at + 11 ≤ length self.old.out.now }
        ensures { Written self.old (start kind number) 11 self.new }
    {
        self.number(kind);
        self.byte(BLANK);
        self.number(number);
    }

    // A value that number 0 brings.
    #[tactic(auto, using(crate::proofs::Putting::both, crate::proofs::Putting::unwritten), unfolding(crate::specs::Lines::added))]
    fn added(&mut self, number: u32, value: u32)
        requires { self.old.at + 6 ≤ length self.old.out.now }
        ensures { Written self.old (added number value) 6 self.new }
    {
        if number == 0 {
            self.byte(BLANK);
            self.number(value);
        }
    }

    fn plain_line(&mut self, kind: u32, number: u32)
        requires { self.old.at + 32 ≤ length self.old.out.now }
        ensures { Written self.old (plain_line kind number) 32 self.new }
    {
        self.start(kind, number);
        self.byte(NEW_LINE);
    }

    fn value_line(&mut self, kind: u32, number: u32, value: u32)
        requires { self.old.at + 32 ≤ length self.old.out.now }
        ensures { Written self.old (value_line kind number value) 32 self.new }
    {
        self.start(kind, number);
        self.added(number, value);
        self.byte(NEW_LINE);
    }

    fn slice_line(&mut self, number: u32, address: u32, a: u32, b: u32)
        requires { self.old.at + 32 ≤ length self.old.out.now }
        ensures { Written self.old (slice_line number address a b) 32 self.new }
    {
        self.start(4, number);
        self.added(number, address);
        self.added(number, a);
        self.added(number, b);
        self.byte(NEW_LINE);
    }

    fn missing_line(&mut self, address: u32)
        requires { self.old.at + 32 ≤ length self.old.out.now }
        ensures { Written self.old (missing_line address) 32 self.new }
    {
        self.start(5, 0);
        self.byte(BLANK);
        self.long_number(address);
        self.byte(NEW_LINE);
    }

    fn stop_line(&mut self)
        requires { self.old.at + 32 ≤ length self.old.out.now }
        ensures { Written self.old (line_text Line.Stop) 32 self.new }
    {
        self.bytes(b"stop\n");
    }

    fn line(&mut self, line: Line)
        requires { self.old.at + 32 ≤ length self.old.out.now }
        ensures { Written self.old (line_text line) 32 self.new }
    {
        match line {
            Line::Call { kind, number } => self.plain_line(kind, number),
            Line::Read { number, word } => self.value_line(3, number, word),
            Line::Slice {
                number,
                address,
                a,
                b,
            } => self.slice_line(number, address, a, b),
            Line::Level { number, level } => self.value_line(9, number, level),
            Line::Missing { address } => self.missing_line(address),
            Line::Stop => self.stop_line(),
        }
    }
}

// Puts a line into `out` from `at` on, and answers the place after it. Where `out` has not LONGEST bytes there, nothing is put.
pub fn put_line(out: &mut [u8], at: usize, line: Line) -> usize
    ensures fact { ◌≡◌ {A = ℕ × List ℕ} (result, out.new) (line_put out.old at line) }
    ensures within { at ≤ length out.old → result ≤ length out.old }
{
    if out.len() < LONGEST || out.len() - LONGEST < at {
        return at;
    }
    let mut writer = Writer { out, at };
    writer.line(line);
    writer.at
}
