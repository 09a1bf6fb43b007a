// The registers of a side, as a host reads and writes them.
ghost use Rattle.receiver_registers.specs.Reading as R;
ghost use Rattle.receiver_registers.specs.Writing as RW;
ghost use Rattle.transmitter_registers.specs.Reading as T;
ghost use Rattle.transmitter_registers.specs.Writing as TW;

use codec::in_window::InWindow;
use ends::sides::Answered;
use receiver::side::Receiver;
use receiver_registers::registers as receiving;
use transmitter::side::Transmitter;
use transmitter_registers::registers as sending;
use words::answers::{Refusal, Write};

// A transmitter's registers, or a receiver's, by their offsets. Each ghost member is the side's own definition.
pub trait Registers: InWindow {
    ghost use Rattle.std.specs.Prelude.{◌≡◌, Bool, ℕ, Result};
    ghost use Rattle.ends.specs.declared.sides.Answered.{Answered};
    ghost use Rattle.words.specs.declared.answers.Refusal.{Refusal};
    ghost use Rattle.words.specs.declared.answers.Write.{Write};

    ghost read_of: { Self → ℕ → Answered Self (Result ℕ Refusal) };

    ghost removes: { Self → ℕ → Bool };

    ghost written: { Self → ℕ → ℕ → Answered Self (Result Write Refusal) };

    ghost changes: { ℕ → Bool };

    ghost byte_written: { Self → ℕ → ℕ → Answered Self (Result Write Refusal) };

    ghost changes_byte: { ℕ → Bool };

    // A word read: the side after it, and what it shows or why it is refused.
    fn read(self, offset: u32) -> Answered<Self, Result<u16, Refusal>>
        requires { Self.Within self }
        ensures value { result ≡ read_of self offset }
        ensures within { Self.Within result.side };

    // Whether a read removes a word.
    fn removes(self, offset: u32) -> bool
        ensures { result ≡ removes self offset };

    // A word written.
    fn write(self, offset: u32, word: u16) -> Answered<Self, Result<Write, Refusal>>
        requires { Self.Within self }
        ensures value { result ≡ written self offset word }
        ensures within { Self.Within result.side };

    // Whether a write changes the register.
    fn changes(offset: u32) -> bool
        ensures { result ≡ changes offset };

    // A byte written.
    fn write_byte(self, offset: u32, byte: u8) -> Answered<Self, Result<Write, Refusal>>
        requires { Self.Within self }
        ensures value { result ≡ byte_written self offset byte }
        ensures within { Self.Within result.side };

    // Whether a byte written changes its register.
    fn changes_byte(offset: u32) -> bool
        ensures { result ≡ changes_byte offset };
}

impl Registers for Transmitter {
    ghost read_of = { T.read_of };

    ghost removes = { T.removes };

    ghost written = { TW.written };

    ghost changes = { TW.changes };

    ghost byte_written = { TW.byte_written };

    ghost changes_byte = { TW.changes_byte };

    #[tactic(auto, using(transmitter_registers::specs::Laws::Keeps::within_read))]
    fn read(self, offset: u32) -> Answered<Self, Result<u16, Refusal>> {
        sending::read(self, offset)
    }

    fn removes(self, offset: u32) -> bool {
        sending::removes(self, offset)
    }

    #[tactic(auto, using(transmitter_registers::specs::Laws::Keeps::within_written))]
    fn write(self, offset: u32, word: u16) -> Answered<Self, Result<Write, Refusal>> {
        sending::write(self, offset, word)
    }

    fn changes(offset: u32) -> bool {
        sending::changes(offset)
    }

    #[tactic(auto, using(transmitter_registers::specs::Laws::Keeps::within_byte))]
    fn write_byte(self, offset: u32, byte: u8) -> Answered<Self, Result<Write, Refusal>> {
        sending::write_byte(self, offset, byte)
    }

    fn changes_byte(offset: u32) -> bool {
        sending::changes_byte(offset)
    }
}

impl Registers for Receiver {
    ghost read_of = { R.read_of };

    ghost removes = { R.removes };

    ghost written = { RW.written };

    ghost changes = { RW.changes };

    ghost byte_written = { RW.byte_written };

    ghost changes_byte = { RW.changes_byte };

    #[tactic(auto, using(receiver_registers::specs::Laws::Keeps::within_read))]
    fn read(self, offset: u32) -> Answered<Self, Result<u16, Refusal>> {
        receiving::read(self, offset)
    }

    fn removes(self, offset: u32) -> bool {
        receiving::removes(self, offset)
    }

    #[tactic(auto, using(receiver_registers::specs::Laws::Keeps::within_written))]
    fn write(self, offset: u32, word: u16) -> Answered<Self, Result<Write, Refusal>> {
        receiving::write(self, offset, word)
    }

    fn changes(offset: u32) -> bool {
        receiving::changes(offset)
    }

    #[tactic(auto, using(receiver_registers::specs::Laws::Keeps::within_byte))]
    fn write_byte(self, offset: u32, byte: u8) -> Answered<Self, Result<Write, Refusal>> {
        receiving::write_byte(self, offset, byte)
    }

    fn changes_byte(offset: u32) -> bool {
        receiving::changes_byte(offset)
    }
}
