//! Following a given journal.
ghost use Rattle.std.specs.Prelude.{◌≡◌, [], Some, None, MatchResult};
ghost use Rattle.cany_model.specs.Runs.Follow.{journal_fault, steps_made};
ghost use Rattle.cany_world.specs.World.{WorldParts, state_of};

use crate::world::World;
use cany_base::Step;
use cany_model::{FollowFault, StepReply};

/// Makes the steps of the journal up to the first that is refused, and says whether they are a
/// whole run.
///
/// Promise: the answer is exactly the fault of the journal. The world has made all steps of the
/// journal, or those before the first that is refused.
///
/// Shown by: `.ci/refusals.py`, `refused_journal`, `round_robin_may_be_given`,
/// `one_notice_later_is_too_late`.
///
/// # Errors
///
/// `Refused` exactly where a step is not done: the place of the first and its reply. `Unfinished`
/// exactly where all steps were done and the run has not ended: how many slots ran, and the least
/// running node with an unread notice.
pub fn follow(world: &mut World, journal: &[Step]) -> Result<(), FollowFault>
    requires { world.old.journal ≡ [] }
    ensures fault { MatchResult result (λ _. journal_fault world.old.scenario journal.now ≡ None)
        (λ f. journal_fault world.old.scenario journal.now ≡ Some f) }
    ensures made { world.new ≡ record {
      scenario = world.old.scenario;
      journal = steps_made journal.now (journal_fault world.old.scenario journal.now);
    } }
{
    for place in 0..journal.len() {
        match world.step(journal[place]) {
            StepReply::Done => {}
            reply => return Err(FollowFault::Refused { place, reply }),
        }
    }
    if world.ended() {
        return Ok(());
    }
    Err(FollowFault::Unfinished {
        ran: world.ran(),
        node: world.first_unread(),
    })
}
