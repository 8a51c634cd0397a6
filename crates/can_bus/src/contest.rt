//! Arbitration among the controllers.
ghost use Rattle.std.specs.Prelude.{◌≡◌, ◌<◌, ◌≤◌, ◌&&◌, ◌||◌, ◌==◌, ℕ, Option, Some, IfSome, is_none, length, slice_get};
ghost use Rattle.cany_base.specs.Frame.{FrameParts};
ghost use Rattle.cany_base.specs.Limits.{most_nodes};
ghost use Rattle.cany_base.specs.Nodes.{has};
ghost use Rattle.cany_model.specs.Bus.Slot.{least_frame, offered};
ghost use Rattle.can_frame.specs.Identifier.{FitsFormat, FitsIdentifier};
ghost use Rattle.can_arbiter.specs.Outcome.{IsEntered, IsOutcomeAmong, frame_of};
ghost use Rattle.can_controller.specs.Controller.{ControllerState, node_state};
ghost use Rattle.can_bus.specs.Contest.{IsContestOf, StandInOrder, running_nodes};
ghost use Rattle.can_bus.specs.Controllers.{nodes_of};

use crate::nodes::insert_running;
use crate::offers::offer_of;
use can_arbiter::Outcome;
use can_controller::Controller;
use can_controller::laws::lesser_key_wins;
use cany_base::{Format, NodeId, NodeSet};

/// Node i competes, if it runs: it is put into the set, and what it offers is entered.
fn compete(
    running: &mut NodeSet,
    outcome: &mut Outcome,
    format: Format,
    i: usize,
    controller: &Controller,
)
    requires node { i < most_nodes }
    requires format { controller.now.params.format ≡ format }
    requires best { IfSome (frame_of outcome.old) (FitsFormat format) }
    ensures running { (k : ℕ) → has running.new k ≡ (has running.old k || (is_none controller.now.stopped && k == i)) }
    ensures outcome { (before after : ℕ → Option FrameParts) → IsOutcomeAmong format before outcome.old
        → IsEntered i (least_frame (offered (node_state controller.now))) before after → IsOutcomeAmong format after outcome.new }
    ensures best { IfSome (frame_of outcome.new) (FitsFormat format) }
    ensures fits { IfSome (least_frame (offered (node_state controller.now))) (FitsIdentifier format) }
    ensures in_order { StandInOrder format (offered (node_state controller.now)) }
{
    insert_running(running, i, controller);
    let Some(frame) = offer_of(controller) else {
        return;
    };
    outcome.enter(format, NodeId::of_index(i), &frame);
}

/// The nodes that run, and the frame that the slot carries, with its senders.
pub(crate) fn contest(format: Format, controllers: &[Controller]) -> (NodeSet, Outcome)
    requires few { length controllers.now ≤ most_nodes }
    requires format { (i : ℕ) (c : ControllerState) → slice_get controllers.now i ≡ Some c → c.params.format ≡ format }
    ensures running { result.0 ≡ running_nodes (nodes_of controllers.now) }
    ensures contest { IsContestOf (nodes_of controllers.now) result.1 }
{
    // The definition orders frames by their parts, and the arbiter by their keys.
    lesser_key_wins(format);
    let mut running = NodeSet::empty();
    let mut outcome = Outcome::Idle;
    for i in 0..controllers.len() {
        let controller = &controllers[i];
        compete(&mut running, &mut outcome, format, i, controller);
    }
    (running, outcome)
}
