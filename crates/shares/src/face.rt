// The call as C has it: plain numbers and slices, and an answer's number with its value above it.
ghost use Rattle.std.specs.Prelude.{◌≡◌};
ghost use Rattle.shares.specs.Outcomes.{PlanFaceOutcome};
ghost use Rattle.shares.specs.Numbers.{plan_packed};

use crate::answers::PlanError;
use crate::planning::plan;

fn pack_plan(plan: Result<u16, PlanError>) -> u32
    ensures { result ≡ plan_packed plan }
{
    match plan {
        Ok(addresses) => u32::from(addresses) * 65536,
        Err(error) => u32::from(error),
    }
}

#[unsafe(no_mangle)]
pub extern "C" fn shares_plan(wanted: &[u16], list: &mut [u16]) -> u32
    ensures { PlanFaceOutcome wanted.now list.old (result, list.new) }
{
    pack_plan(plan(wanted, list))
}
