// What the calls answer.
ghost use Rattle.std.specs.Prelude.{◌≡◌};
ghost use Rattle.board.specs.declared.answers.ReceiveError.TheVariants.{Link};

use readings::answers::{ReadError, View};
use words::answers::Refusal;

// A message that was received: how many readings there are, and the serial that the receiver shows, that of its last opening.
#[derive(Clone, Copy, PartialEq, Eq, Debug)]
pub struct Received {
    pub view: View,
    pub serial: u16,
}

// Why nothing was received from the link itself: the room is too small, the link refused a call, by its own name, or the message is
// refused, with the serial that the receiver shows.
#[derive(Clone, Copy, PartialEq, Eq, Debug)]
pub enum ReceiveError {
    NoRoom,
    Link(Refusal),
    Message(ReadError, u16),
}

impl From<Refusal> for ReceiveError {
    ghost from_gives = { λ refusal error. error ≡ Link refusal };

    fn from(refusal: Refusal) -> ReceiveError {
        ReceiveError::Link(refusal)
    }
}

// Why a unit's received words were not collected to the last: the link refused a move, by its own name, or an address outside the memory
// stopped it, which is the 18-bit byte address tried.
#[derive(Clone, Copy, PartialEq, Eq, Debug)]
pub enum CollectError {
    Link(Refusal),
    Missing(u32),
}
