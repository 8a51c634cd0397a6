//! The nodes that started again at the end of a slot.
ghost use Rattle.std.specs.Prelude.{◌≡◌, ◌≤◌, List, length};
ghost use Rattle.cany_base.specs.declared.step.Step.{Step};
ghost use Rattle.cany_base.specs.Limits.{most_nodes};
ghost use Rattle.cany_base.specs.Scenario.{ScenarioParts};
ghost use Rattle.cany_model.specs.Bus.Restart.{restarted_in};
ghost use Rattle.cany_model.specs.Runs.Run.{run};
ghost use Rattle.cany_world.specs.Kept.{AreNodesOf};

use crate::gathering::insert_if;
use crate::incarnations::Incarnations;
use cany_base::{NodeSet, Slot};

/// The nodes of which an incarnation began at the end of the slot.
pub(crate) fn began_nodes(slot: Slot, nodes: &[Incarnations]) -> NodeSet
    requires { length nodes.now ≤ most_nodes }
    ensures { (scenario : ScenarioParts) (journal : List Step) → AreNodesOf scenario (run scenario journal) nodes.now
        → result ≡ restarted_in (run scenario journal) slot }
{
    let mut set = NodeSet::empty();
    for i in 0..nodes.len() {
        insert_if(&mut set, i, nodes[i].began_in(slot));
    }
    set
}
