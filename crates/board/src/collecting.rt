// A unit's received words collected into its memory, by the link's own moves.
ghost use Rattle.std.specs.Prelude.{List, ◌≡◌, ℕ};
ghost use Rattle.board.specs.Outcomes.{CollectOutcome};

use crate::answers::CollectError;
use pcl::sides::move_word;
use words::answers::Refusal;

// A receiver's silo holds 64 words, so that the last of so many moves finds nothing to move.
const MOST: u16 = 65;

// The side of a unit that receives, as the link's calls take it.
pub(crate) const RECEIVER: u32 = 1;

// Moves the words that a unit's receiver holds into its memory, until there is nothing more to move. The answer is how many moves were
// answered 0.
pub fn collect(cells: &mut [u16], memory: &mut [u16], unit: u32) -> Result<u16, CollectError>
    ensures { CollectOutcome cells.old memory.old unit (result, cells.new, memory.new) }
{
    for done in 0..MOST {
        match move_word(cells, memory, unit, RECEIVER) {
            Ok(None) => {}
            Ok(Some(address)) => return Err(CollectError::Missing(address)),
            Err(refusal) => {
                return match refusal {
                    Refusal::Nothing => Ok(done),
                    other => Err(CollectError::Link(other)),
                };
            }
        }
    }
    Ok(MOST)
}
