// What a register access and a memory move are answered: Ok with what was done, or the refusal. Document 01's number of each is in
// specs/Answers.
ghost use Rattle.std.specs.Prelude.{◌≡◌};
ghost use Rattle.words.specs.Answers.{read_word, number_of};

// Why a call, an access or a move was refused. One that is refused changes nothing.
#[derive(Clone, Copy, PartialEq, Eq, Debug)]
pub enum Refusal {
    // The unit is not fitted, or the side is neither 0 nor 1.
    NoUnit,
    // There is no such register, or the offset is odd.
    NoRegister,
    // A byte written to TSDB or RDDB.
    ByteRefused,
    // There is nothing to read or to move.
    Nothing,
    // A set-up breaks a rule.
    BadSetUp,
    // The parity mask is above 1.
    BadMask,
    // The room that was lent is too small.
    NoRoom,
    // The state that was lent is out of range, or the memory too short.
    BadState,
}

impl From<Refusal> for u32 {
    ghost from_gives = { λ refusal number. number ≡ number_of refusal };

    fn from(refusal: Refusal) -> u32 {
        match refusal {
            Refusal::NoUnit => 1,
            Refusal::NoRegister => 2,
            Refusal::ByteRefused => 3,
            Refusal::Nothing => 4,
            Refusal::BadSetUp => 7,
            Refusal::BadMask => 7,
            Refusal::NoRoom => 9,
            Refusal::BadState => 9,
        }
    }
}

// What a write that was not refused came to: done, an address silo that may not start, or a word or address that is dropped.
#[derive(Clone, Copy, PartialEq, Eq, Debug)]
pub enum Write {
    Done,
    NotStarted,
    Dropped,
}

// The word that a read shows: 0 where there is none.
pub fn word_read(read: Result<u16, Refusal>) -> u16
    ensures { result ≡ read_word read }
{
    read.unwrap_or(0)
}
