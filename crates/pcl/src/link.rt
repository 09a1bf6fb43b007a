// The calls on the whole link: a fit, and a slice.
ghost use Rattle.std.specs.Prelude.{◌≡◌};
ghost use Rattle.pcl.specs.Outcomes.{FitOutcome, SliceOutcome};
ghost use Rattle.pcl.specs.Link.{room_for};

use bus::slice::{Given, pass_slice};
use cells::layout::{BLOCK, HEADER, UNITS};
use cells::ranges::in_range;
use fitting::fit::fit_link;
use fitting::setup::{NUMBERS, is_good};
use words::answers::Refusal;

// The room asked counts at most 16 units (reading 32).
fn room_for(count: usize) -> usize
    ensures { result ≡ room_for count }
{
    if count > UNITS {
        return HEADER + UNITS * BLOCK;
    }
    HEADER + count * BLOCK
}

// A fit of the set-up's units: what the lent cells held is not looked at.
pub fn fit(cells: &mut [u16], setup: &[u32]) -> Result<(), Refusal>
    ensures { FitOutcome cells.old setup.now (result, cells.new) }
{
    if cells.len() < room_for(setup.len() / NUMBERS) {
        return Err(Refusal::NoRoom);
    }
    if !is_good(setup) {
        return Err(Refusal::BadSetUp);
    }
    fit_link(cells, setup);
    Ok(())
}

// A slice: the address that the master gave, and the codes; none where there is no master.
pub fn slice(cells: &mut [u16], mask: u16, parity: u32) -> Result<Option<Given>, Refusal>
    ensures { SliceOutcome cells.old mask parity (result, cells.new) }
{
    if !in_range(cells) {
        return Err(Refusal::BadState);
    }
    if parity > 1 {
        return Err(Refusal::BadMask);
    }
    Ok(pass_slice(cells, mask, parity == 1))
}
