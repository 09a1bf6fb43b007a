// The cells of a fit: every unit's sides in their initial state, and then the header with its index.
ghost use Rattle.std.specs.Prelude.{true, ◌≡◌, ◌≤◌, ◌<◌, length};
ghost use Rattle.cells.specs.Fitted.{Fitted};
ghost use Rattle.cells.specs.Layout.{unit_place};
ghost use Rattle.fitting.specs.Fit.{fitted_as, units_fitted, fit};
ghost use Rattle.fitting.specs.SetUp.{count_of, set_up_good};

use crate::setup::{NUMBERS, Numbers};
use cells::index::fill_index;
use cells::layout::{BLOCK, HEADER};
use cells::sides::put;
use cells::units::{blank_unit, set_header, store_unit};
use ends::sides::Side;
use master::side::Master;
use receiver::side::Receiver;
use transmitter::side::Transmitter;

// Whatever the block held is gone. The switch of the master section comes with the unit's own numbers. Both serials are 0.
fn fit_unit(cells: &mut [u16], unit: usize, numbers: Numbers)
    requires fitted { Fitted cells.old unit }
    requires addresses { (1 ≤ numbers.transmitter) × (numbers.transmitter < 32) × (1 ≤ numbers.receiver) × (numbers.receiver < 32) }
    requires switch { (2 ≤ numbers.switch) × (numbers.switch < 32) }
    requires memory { (1 ≤ numbers.memory) × (numbers.memory ≤ 131072) }
    ensures { cells.new ≡ fitted_as cells.old unit numbers.transmitter numbers.receiver numbers.switch numbers.memory }
{
    blank_unit(cells, unit);
    store_unit(
        cells,
        HEADER + unit * BLOCK,
        numbers.transmitter as u16,
        numbers.receiver as u16,
        numbers.memory,
    );
    put(cells, unit, Transmitter::start(0));
    put(cells, unit, Receiver::start(0));
    put(cells, unit, Master::initial(numbers.switch as u16));
}

fn fit_units(cells: &mut [u16], setup: &[u32])
    requires setup_value { set_up_good setup.now ≡ true }
    requires setup_in_bounds { unit_place (count_of setup.now) ≤ length cells.old }
    ensures { cells.new ≡ units_fitted (count_of setup.now) setup.now cells.old }
{
    for unit in 0..setup.len() / NUMBERS {
        fit_unit(cells, unit, Numbers::of(setup, unit));
    }
}

// Out of line, so that a refusal before it takes none of its stack.
#[inline(never)]
pub fn fit_link(cells: &mut [u16], setup: &[u32])
    requires setup_value { set_up_good setup.now ≡ true }
    requires setup_in_bounds { unit_place (count_of setup.now) ≤ length cells.old }
    ensures { cells.new ≡ fit cells.old setup.now }
{
    fit_units(cells, setup);
    set_header(cells, (setup.len() / NUMBERS) as u16);
    fill_index(cells);
}
