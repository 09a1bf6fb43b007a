// A period passes at both sides of a fitted unit.
ghost use Rattle.std.specs.Prelude.{◌≡◌};
ghost use Rattle.cells.specs.Fitted.{Fitted};
ghost use Rattle.moves.specs.Periods.{transmitter_period, receiver_period, unit_period};

use cells::sides::{put, side};
use ends::sides::Side;
use receiver::side::Receiver;
use transmitter::side::Transmitter;

fn pass_at_transmitter(cells: &mut [u16], unit: usize)
    requires { Fitted cells.old unit }
    ensures { cells.new ≡ transmitter_period cells.old unit }
{
    let t = side::<Transmitter>(cells, unit);
    if t.is_busy() {
        put(cells, unit, t.pass_period());
    }
}

fn pass_at_receiver(cells: &mut [u16], unit: usize)
    requires { Fitted cells.old unit }
    ensures { cells.new ≡ receiver_period cells.old unit }
{
    let r = side::<Receiver>(cells, unit);
    if r.end.opened {
        put(cells, unit, r.pass_period());
    }
}

pub fn pass_period(cells: &mut [u16], unit: usize)
    requires { Fitted cells.old unit }
    ensures { cells.new ≡ unit_period cells.old unit }
{
    pass_at_transmitter(cells, unit);
    pass_at_receiver(cells, unit);
}
