// Who has MASTER: at most one unit, and the header says which.
ghost use Rattle.std.specs.Prelude.{◌≡◌, ◌<◌};
ghost use Rattle.cells.specs.Fitted.{Fitted};
ghost use Rattle.cells.specs.Layout.{holder_in, held_by, holder_of};
ghost use Rattle.accesses.specs.Masters.{mastership_of, holder_after, released};

use cells::units::master;
use master::side::Mastership;

// Seen from a unit.
pub fn see_master(cells: &[u16], unit: usize) -> Mastership
    requires { Fitted cells.now unit }
    ensures { result ≡ mastership_of (holder_in cells.now) unit }
{
    match master(cells) {
        None => Mastership::Nobody,
        Some(number) => {
            if number == unit {
                return Mastership::Own;
            }
            Mastership::Other
        }
    }
}

// Who has it after an access of the unit.
pub fn next_holder(cells: &[u16], unit: usize, mastership: Mastership) -> Option<usize>
    requires { Fitted cells.now unit }
    ensures next { result ≡ held_by (holder_after (holder_in cells.now) unit mastership) }
    ensures next_bound { holder_of result < 65536 }
{
    match mastership {
        Mastership::Nobody => None,
        Mastership::Own => Some(unit),
        Mastership::Other => master(cells),
    }
}

// TX INIT and reset clear MASTER at the unit.
pub fn release(cells: &[u16], unit: usize) -> Option<usize>
    requires { Fitted cells.now unit }
    ensures next { result ≡ held_by (released (holder_in cells.now) unit) }
    ensures next_bound { holder_of result < 65536 }
{
    let number = master(cells);
    if number == Some(unit) {
        return None;
    }
    number
}
