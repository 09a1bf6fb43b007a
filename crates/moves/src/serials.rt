// The serial of a side of a fitted unit. Nothing changes.
ghost use Rattle.std.specs.Prelude.{◌≡◌, ◌+◌};
ghost use Rattle.cells.specs.Fitted.{Fitted};
ghost use Rattle.cells.specs.Layout.{unit_place};
ghost use Rattle.codec.specs.Window.{window};

use cells::sides::side;
use codec::in_window::InWindow;
use ends::sides::Side;

// Of its transmitter or its receiver.
pub fn serial<S: InWindow + Side>(cells: &[u16], unit: usize) -> u16
    requires { Fitted cells.now unit }
    ensures { result ≡ (S.end_of (S.decoded (window cells.now (unit_place unit + S.PLACE) S.SIZE))).serial }
{
    side::<S>(cells, unit).end().serial
}
