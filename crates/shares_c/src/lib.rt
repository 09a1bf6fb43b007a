// The calls of the crate shares as C has them, by the names of include/shares.h: this crate's archive is libshares.a. Each export calls the
// function of its name in the face of shares, and says its clauses again.
#![tactic(auto)]

ghost use Rattle.shares.specs.Outcomes.{PlanFaceOutcome};

#[unsafe(no_mangle)]
pub extern "C" fn shares_plan(wanted: &[u16], list: &mut [u16]) -> u32
    ensures { PlanFaceOutcome wanted.now list.old (result, list.new) }
{
    shares::face::shares_plan(wanted, list)
}
