// The unit, and the side of it, that a call names. Two refusals stand before every call at a unit.
ghost use Rattle.std.specs.Prelude.{◌≡◌, Ok, Err, OnOk};
ghost use Rattle.cells.specs.Fitted.{Fitted};
ghost use Rattle.words.specs.declared.answers.Refusal.{Refusal};
ghost use Rattle.pcl.specs.Calls.{admitted};
ghost use Rattle.pcl.specs.Sides.{side_named};

use cells::ranges::in_range;
use cells::units::count;
use words::answers::Refusal;

// The lent state is in range, and the unit is fitted.
pub fn admit(cells: &[u16], unit: u32) -> Result<(), Refusal>
    ensures answer { result ≡ admitted cells.now unit (Err Refusal.BadState) (Err Refusal.NoUnit) (Ok tt) }
    ensures fitted { OnOk result (Fitted cells.now unit) }
{
    if !in_range(cells) {
        return Err(Refusal::BadState);
    }
    if unit as usize >= count(cells) {
        return Err(Refusal::NoUnit);
    }
    Ok(())
}

// A side of a unit.
#[derive(Clone, Copy, PartialEq, Eq, Debug)]
pub enum Which {
    Transmitter,
    Receiver,
}

// A side as a call names it: 0 the transmitter, 1 the receiver.
impl TryFrom<u32> for Which {
    type Error = Refusal;

    ghost try_from_gives = { λ side answer. answer ≡ side_named side };

    fn try_from(side: u32) -> Result<Self, Refusal> {
        match side {
            0 => Ok(Which::Transmitter),
            1 => Ok(Which::Receiver),
            _ => Err(Refusal::NoUnit),
        }
    }
}
