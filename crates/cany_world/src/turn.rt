//! The step in which a node takes its turn.
ghost use Rattle.std.specs.Prelude.{◌≡◌, ◌<◌, ℕ, List, Some, length, slice_get};
ghost use Rattle.cany_base.specs.declared.step.Step.{Step};
ghost use Rattle.cany_base.specs.Scenario.{IsLegalScenario, ScenarioParts};
ghost use Rattle.cany_model.specs.Bus.State.{reads};
ghost use Rattle.cany_model.specs.Runs.Run.{after_turn, run, turn_reply};
ghost use Rattle.can_controller.specs.Controller.{ControllerState};
ghost use Rattle.cany_world.specs.Incarnations.{CanTurnNow, IncarnationsParts};
ghost use Rattle.cany_world.specs.Kept.{AreControllersOf, AreNodesOf};
ghost use Rattle.cany_world.specs.Replies.{IfDone, step_reply};

use crate::incarnations::Incarnations;
use can_controller::Controller;
use cany_base::{Actions, NodeId};
use cany_model::StepReply;
use cany_node::TurnReply;

/// The answer of a node to its turn, as the reply to the step.
fn step_reply(reply: TurnReply) -> StepReply
    ensures { result ≡ step_reply reply }
{
    match reply {
        TurnReply::Turned { .. } => StepReply::Done,
        TurnReply::NothingYet { now } => StepReply::NothingYet { now },
        TurnReply::Stopped { slot } => StepReply::Stopped { slot },
    }
}

/// The node takes its turn, if it can. Its answer names the slot whose notice it read.
pub(crate) fn take_turn(
    node: NodeId,
    nodes: &mut [Incarnations],
    controllers: &mut [Controller],
    actions: &mut Actions,
) -> TurnReply
    requires node { node < length nodes.old }
    requires count { length controllers.old ≡ length nodes.old }
    requires turn { (v : IncarnationsParts) (c : ControllerState) → slice_get nodes.old node ≡ Some v → slice_get controllers.old node ≡ Some c
        → CanTurnNow v c actions.old }

    ensures reply { (scenario : ScenarioParts) (journal : List Step) → let s = run scenario journal in
        AreControllersOf scenario s controllers.old → AreNodesOf scenario s nodes.old → step_reply result ≡ turn_reply scenario node s }

    ensures slot { (scenario : ScenarioParts) (journal : List Step) → let s = run scenario journal in
        AreControllersOf scenario s controllers.old → (slot : ℕ) → result ≡ TurnReply.Turned slot → slot ≡ reads s node }

    // The controllers and the nodes are those of the run after the turn.
    ensures done { (scenario : ScenarioParts) (journal : List Step) → let s = run scenario journal in
        IsLegalScenario scenario → AreControllersOf scenario s controllers.old → AreNodesOf scenario s nodes.old
        → IfDone (step_reply result) (AreControllersOf scenario (after_turn scenario node s) controllers.new
        × AreNodesOf scenario (after_turn scenario node s) nodes.new) (Unit {0}) }

    ensures refused { IfDone (step_reply result) (Unit {0}) ((controllers.new ≡ controllers.old) × (nodes.new ≡ nodes.old)) }
    ensures actions { actions.new ≡ actions.old }
{
    let i = usize::from(node.get());
    nodes[i].turn(&mut controllers[i], actions)
}

/// The step in which the node takes its turn, if there is one of this number and it can.
pub(crate) fn turn_step(
    node: NodeId,
    nodes: &mut [Incarnations],
    controllers: &mut [Controller],
    actions: &mut Actions,
) -> StepReply
    requires count { length controllers.old ≡ length nodes.old }
    requires turn { (v : IncarnationsParts) (c : ControllerState) → slice_get nodes.old node ≡ Some v → slice_get controllers.old node ≡ Some c
        → CanTurnNow v c actions.old }

    ensures reply { (scenario : ScenarioParts) (journal : List Step) → let s = run scenario journal in
        AreControllersOf scenario s controllers.old → AreNodesOf scenario s nodes.old → result ≡ turn_reply scenario node s }

    // The controllers and the nodes are those of the run after the turn.
    ensures done { (scenario : ScenarioParts) (journal : List Step) → let s = run scenario journal in
        IsLegalScenario scenario → AreControllersOf scenario s controllers.old → AreNodesOf scenario s nodes.old
        → IfDone result (AreControllersOf scenario (after_turn scenario node s) controllers.new
        × AreNodesOf scenario (after_turn scenario node s) nodes.new) (Unit {0}) }

    ensures refused { IfDone result (Unit {0}) ((controllers.new ≡ controllers.old) × (nodes.new ≡ nodes.old)) }
    ensures actions { actions.new ≡ actions.old }
{
    let i = usize::from(node.get());
    if i >= nodes.len() {
        return StepReply::NoNode { node };
    }
    step_reply(take_turn(node, nodes, controllers, actions))
}
