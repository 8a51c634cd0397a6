//! Stretches of idle slots in which no node has anything to do before the last one.
ghost use Rattle.std.specs.Prelude.{◌≡◌, ◌+◌, ◌^◌, ◌<◌, ◌≤◌, ◌++◌, List, length};
ghost use Rattle.cany_base.specs.declared.step.Step.{Step};
ghost use Rattle.cany_base.specs.Limits.{most_nodes};
ghost use Rattle.cany_base.specs.Scenario.{ScenarioParts, IsLegalScenario};
ghost use Rattle.cany_model.specs.Runs.RoundRobin.{rounds};
ghost use Rattle.cany_model.specs.Runs.Run.{run};
ghost use Rattle.cany_model.specs.Bus.State.{slots_run};
ghost use Rattle.cany_world.specs.Kept.{StandFor};
ghost use Rattle.cany_world.specs.Resting.{CanAllGo, CanAllPass, CanGo, CanRest, CanTakeTurn, CanCount, HasTakenTurn, HaveAllPassed, HavePassed, HaveRested, IsOpen};

use crate::incarnations::Incarnations;
use can_bus::Bus;
use can_controller::Controller;
use cany_base::{Actions, NodeId, NodeSet, Slot};
use cany_model::Share;

/// A controller and its node pass so many slots.
fn pass_over(slots: u64, controller: &mut Controller, node: &mut Incarnations)
    requires { CanCount slots controller.old node.old }
    ensures { HaveRested slots controller.old controller.new node.old node.new }
{
    controller.rest(slots);
    node.rest(slots);
}

/// A controller and its node pass all but the last of so many slots from the next one on. In the
/// last one the node takes its turn.
fn pass_to_turn(
    next: Slot,
    slots: u64,
    controller: &mut Controller,
    node: &mut Incarnations,
    actions: &mut Actions,
)
    requires some { 0 < slots }
    requires room { next + slots < 2 ^ 64 }
    requires count { CanCount slots controller.old node.old }
    requires turn { CanTakeTurn next slots controller.old node.old actions.old }
    ensures turn { HasTakenTurn next slots controller.old controller.new node.old node.new }
    ensures actions { actions.new ≡ actions.old }
{
    let before = slots - 1;
    pass_over(before, controller, node);
    controller.see(next + before, Share::Idle);
    node.turn(controller, actions);
}

/// A controller and its node pass so many slots from the next one on, if it runs. Where it is due,
/// it takes its turn in the last one.
fn pass(
    next: Slot,
    slots: u64,
    is_due: bool,
    controller: &mut Controller,
    node: &mut Incarnations,
    actions: &mut Actions,
)
    requires some { 0 < slots }
    requires room { next + slots < 2 ^ 64 }
    requires go { CanGo next slots is_due controller.old node.old actions.old }
    ensures passed { HavePassed next slots controller.old.stopped is_due controller.old controller.new node.old node.new }
    ensures actions { actions.new ≡ actions.old }
{
    if controller.stopped().is_some() {
        return;
    }
    if is_due {
        pass_to_turn(next, slots, controller, node, actions);
    } else {
        pass_over(slots, controller, node);
    }
}

/// All controllers and nodes pass so many slots from the next one on. Those that are due take their
/// turns in the last one.
fn pass_all(
    next: Slot,
    slots: u64,
    due: NodeSet,
    controllers: &mut [Controller],
    nodes: &mut [Incarnations],
    actions: &mut Actions,
)
    requires some { 0 < slots }
    requires room { next + slots < 2 ^ 64 }
    requires few { length controllers.old ≤ most_nodes }
    requires go { CanAllGo next slots due controllers.old nodes.old actions.old }
    ensures passed { HaveAllPassed next slots due controllers.old controllers.new nodes.old nodes.new }
    ensures actions { actions.new ≡ actions.old }
{
    for i in 0..controllers.len() {
        let is_due = due.has(NodeId::of_index(i));
        pass(
            next,
            slots,
            is_due,
            &mut controllers[i],
            &mut nodes[i],
            actions,
        );
    }
}

/// The bus runs so many idle slots, and all nodes make their turns in them. Only in the last one,
/// and only those that are due, may they find something to do.
pub(crate) fn rest(
    slots: u64,
    due: NodeSet,
    bus: &mut Bus,
    controllers: &mut [Controller],
    nodes: &mut [Incarnations],
    actions: &mut Actions,
)
    requires { CanRest slots due bus.old controllers.old nodes.old actions.old }

    // They stand for the state after the rounds of these slots.
    ensures stands { (scenario : ScenarioParts) (journal : List Step) → let s = run scenario journal in
        IsLegalScenario scenario → StandFor scenario s bus.old controllers.old nodes.old
        → CanAllPass (slots_run s) slots due controllers.old nodes.old → IsOpen scenario s slots
        → StandFor scenario (run scenario (journal ++ rounds scenario slots s)) bus.new controllers.new nodes.new }

    ensures actions { actions.new ≡ actions.old }
{
    let next = bus.trace().len() as u64;
    bus.rest(slots);
    pass_all(next, slots, due, controllers, nodes, actions);
}
