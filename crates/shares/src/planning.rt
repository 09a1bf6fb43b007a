// A list for the address silo out of a load.
ghost use Rattle.std.specs.Prelude.{Bool, List, Result, ◌≡◌, ℕ, ◌≤◌, length};
ghost use Rattle.shares.specs.Outcomes.{PlanOutcome};
ghost use Rattle.shares.specs.Plan.{spread_tried, planned, answer_of};
ghost use Rattle.shares.specs.Wanted.{shares_in};
ghost use Rattle.shares.specs.Laws.Rooms.{ExactRoom, Ready};
ghost use Rattle.shares.specs.declared.answers.PlanError.{PlanError};

use crate::answers::PlanError;
use crate::arranging::arrange;
use crate::lists::is_loadable;
use crate::spreading::spread_out;
use crate::wanted::{Share, any_outside, any_twice, largest_of, total_up_to_51};

// The room that is asked for a list.
const ROOM: usize = 50;

// The turns spread out over a room of exactly their number, and whether that is a list that is asked for.
fn spreads(wanted: &[u16], early: u16, list: &mut [u16]) -> bool
    requires { ExactRoom (shares_in wanted.now) list.old × (early ≤ 1) }
    ensures { ◌≡◌ {A = Bool × List ℕ} (result, list.new) (spread_tried early (shares_in wanted.now)) }
{
    spread_out(wanted, early, list);
    is_loadable(wanted, list)
}

// The list of a load, in a room of exactly its turns.
fn put_list(wanted: &[u16], most: Share, list: &mut [u16])
    requires { Ready (shares_in wanted.now) most list.old }
    ensures { list.new ≡ planned (shares_in wanted.now) }
{
    if spreads(wanted, 0, list) {
        return;
    }
    if spreads(wanted, 1, list) {
        return;
    }
    arrange(wanted, most, list);
}

// The first refusal that fits, or the list, where there is room for every list.
fn answer(wanted: &[u16], list: &mut [u16]) -> Result<u16, PlanError>
    requires { 50 ≤ length list.old }
    ensures { ◌≡◌ {A = Result ℕ PlanError × List ℕ} (result, list.new) (answer_of (shares_in wanted.now) list.old) }
{
    if any_outside(wanted) {
        return Err(PlanError::OutsideAddress);
    }
    if any_twice(wanted) {
        return Err(PlanError::NamedTwice);
    }
    let total = total_up_to_51(wanted);
    if !(20..=50).contains(&total) {
        return Err(PlanError::WrongTotal);
    }
    let most = largest_of(wanted);
    if total / 2 < most.turns {
        return Err(PlanError::NoSuchList);
    }
    let end = usize::from(total);
    put_list(wanted, most, &mut list[..end]);
    Ok(total)
}

/// Plans a list: `wanted` has two numbers for each transmitter, its address and its turns. The answer is the list's length, or why there is
/// none; the list stands at the front of `list`, and the words past it stay as they were. A refusal leaves all of it as it was.
pub fn plan(wanted: &[u16], list: &mut [u16]) -> Result<u16, PlanError>
    ensures { PlanOutcome wanted.now list.old (result, list.new) }
{
    if list.len() < ROOM {
        return Err(PlanError::NoRoom);
    }
    if wanted.len() % 2 != 0 {
        return Err(PlanError::NoRoom);
    }
    answer(wanted, list)
}
