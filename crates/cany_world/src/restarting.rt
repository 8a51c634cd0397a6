//! The restarts at the end of a slot.
ghost use Rattle.std.specs.Prelude.{◌≡◌, ◌<◌, ◌≤◌, List, true, length};
ghost use Rattle.cany_base.specs.declared.step.Step.{Step};
ghost use Rattle.cany_base.specs.Limits.{most_nodes};
ghost use Rattle.cany_base.specs.Scenario.{ScenarioParts};
ghost use Rattle.cany_model.specs.Bus.Restart.{after_restarts, names_restart};
ghost use Rattle.cany_model.specs.Runs.Run.{run};
ghost use Rattle.cany_model.specs.Bus.Slot.{after_slot, script as script_of};
ghost use Rattle.cany_model.specs.Bus.State.{slots_run};
ghost use Rattle.cany_world.specs.Kept.{AreControllersOf, AreNodesOf};
ghost use Rattle.cany_world.specs.Restarting.{CanRestartAll, MayStart, IsAfterEntries, starts};

use crate::incarnations::Incarnations;
use can_controller::Controller;
use cany_base::{NodeAsk, NodeId, Slot};

/// Whether a restart entry of the slot names the node.
#[tactic(auto, unfolding(cany_model::specs::Bus::Restart::names_restart))]
fn names(restarts: &[NodeAsk], slot: Slot, node: NodeId) -> bool
    ensures { result ≡ names_restart restarts.now slot node }
{
    restarts
        .iter()
        .any(|ask| ask.slot == slot && ask.node == node)
}

/// Whether the node starts again: it has stopped, and a restart entry of the slot names it.
fn starts(restarts: &[NodeAsk], slot: Slot, node: NodeId, controller: &Controller) -> bool
    ensures { result ≡ starts restarts.now slot node controller.now }
{
    controller.stopped().is_some() && names(restarts, slot, node)
}

/// The node starts again, if it is to.
fn restart_node(
    restarts: &[NodeAsk],
    slot: Slot,
    node: NodeId,
    controller: &mut Controller,
    incarnations: &mut Incarnations,
)
    requires { starts restarts.now slot node controller.old ≡ true → MayStart slot controller.old incarnations.old }
    ensures { IsAfterEntries (starts restarts.now slot node controller.old) slot controller.old controller.new incarnations.old incarnations.new }
{
    if starts(restarts, slot, node, controller) {
        incarnations.restart(slot, controller.stopped(), controller.read());
        controller.restart(slot);
    }
}

/// The stopped nodes that restart entries of the slot name start again. For a node that runs an
/// entry does nothing.
pub(crate) fn restart_all(
    restarts: &[NodeAsk],
    slot: Slot,
    controllers: &mut [Controller],
    nodes: &mut [Incarnations],
)
    requires { CanRestartAll restarts.now slot controllers.old nodes.old }
    ensures { (scenario : ScenarioParts) (journal : List Step) → let s = after_slot (script_of scenario.rules) (run scenario journal) in
        restarts.now ≡ scenario.restarts → slot ≡ slots_run (run scenario journal) → slot < scenario.params.slots →
        AreControllersOf scenario s controllers.old → AreNodesOf scenario s nodes.old →
        AreControllersOf scenario (after_restarts scenario s) controllers.new × AreNodesOf scenario (after_restarts scenario s) nodes.new }
{
    // Most scenarios have no restart entry.
    if restarts.is_empty() {
        return;
    }
    for i in 0..controllers.len() {
        restart_node(
            restarts,
            slot,
            NodeId::of_index(i),
            &mut controllers[i],
            &mut nodes[i],
        );
    }
}
