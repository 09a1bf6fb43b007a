// A slice with no master: the lowest unit with SEC takes over, or every transmitter that wants to send gets MST DWN.
ghost use Rattle.std.specs.Prelude.{true, ◌≡◌};
ghost use Rattle.cells.specs.Layout.{count_in};
ghost use Rattle.cells.specs.Fitted.{Fitted};
ghost use Rattle.cells.specs.Ranges.{in_range};
ghost use Rattle.bus.specs.Masterless.{taken_over_by, missed_at, missed_up_to, without_master};

use cells::search::find_secondary;
use cells::sides::{put, side};
use cells::units::{count, set_master};
use master::side::Master;
use transmitter::down::{miss_master, misses_master};
use transmitter::side::Transmitter;

fn take_over(cells: &mut [u16], unit: usize)
    requires { Fitted cells.old unit }
    ensures { cells.new ≡ taken_over_by cells.old unit }
{
    let section = side::<Master>(cells, unit);
    put(cells, unit, section.take_over());
    set_master(cells, Some(unit));
}

// A transmitter that does not want to send stays as it was.
#[tactic(auto, using(transmitter::specs::Laws::Keeps::within_missed))]
fn miss_at(cells: &mut [u16], unit: usize)
    requires { Fitted cells.old unit }
    ensures { cells.new ≡ missed_at cells.old unit }
{
    let t = side::<Transmitter>(cells, unit);
    if misses_master(t) {
        put(cells, unit, miss_master(t));
        return;
    }
}

fn miss_masters(cells: &mut [u16])
    requires { in_range cells.old ≡ true }
    ensures { cells.new ≡ missed_up_to (count_in cells.old) cells.old }
{
    for unit in 0..count(cells) {
        miss_at(cells, unit);
    }
}

pub fn pass_masterless(cells: &mut [u16])
    requires { in_range cells.old ≡ true }
    ensures { cells.new ≡ without_master cells.old }
{
    if let Some(unit) = find_secondary(cells) {
        take_over(cells, unit);
        return;
    }
    miss_masters(cells);
}
