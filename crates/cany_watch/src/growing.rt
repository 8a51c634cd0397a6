//! Which line a step makes longer.
ghost use Rattle.std.specs.Prelude.{◌≡◌, ◌<◌, ◌≤◌, ◌++◌, ◌∷◌, [], length, if◌then◌else◌};
ghost use Rattle.cany_model.specs.Rules.Log.{log};
ghost use Rattle.cany_model.specs.Runs.Run.{after_step, is_done, reply};
ghost use Rattle.cany_world.specs.World.{state_of};
ghost use Rattle.cany_watch.specs.Lines.{HaveGrown, nodes_of};

use cany_base::{NodeId, Step};
use cany_model::StepReply;
use cany_world::World;

/// How many entries the log of a node has, and 0 of a node that the scenario does not have.
fn log_len(world: &World, node: NodeId) -> usize
    ensures there { node < nodes_of world.now → result ≡ length (log world.now.scenario (state_of world.now) node) }
    ensures none { nodes_of world.now ≤ node → result ≡ 0 }
{
    if node.get() < world.scenario().params().nodes {
        world.log(node).len()
    } else {
        0
    }
}

/// Makes the step, as `World::step` does, and answers the node whose line it made longer, if there
/// is one: only a turn makes a line longer, and only that of its node.
pub(crate) fn make(world: &mut World, step: Step) -> (StepReply, Option<NodeId>)
    ensures reply { result.0 ≡ reply world.old.scenario (state_of world.old) step }
    ensures new { world.new ≡ (if is_done result.0 then record world.old { journal = world.old.journal ++ step ∷ [] } else world.old) }
    ensures run { result.0 ≡ StepReply.Done → state_of world.new ≡ after_step world.old.scenario (state_of world.old) step }
    ensures grown { HaveGrown result.1 world.old world.new }
{
    match step {
        Step::Slot => (world.step(step), None),
        Step::Turn(node) => {
            let before = log_len(world, node);
            let reply = world.step(step);
            if log_len(world, node) == before {
                return (reply, None);
            }
            (reply, Some(node))
        }
    }
}
