//! How long the next stretch of idle slots is in which no node has anything to do before the last
//! one.
ghost use Rattle.std.specs.Prelude.{◌≡◌, ◌+◌, ◌^◌, ◌<◌, ◌≤◌, ℕ, length, true};
ghost use Rattle.cany_base.specs.Limits.{most_nodes};
ghost use Rattle.cany_base.specs.Scenario.{ScenarioParts};
ghost use Rattle.cany_world.specs.Resting.{HaveNothingToDo, CanAllPass, CanPass, HasNothingToDoIfItRuns, IsFree, passes};

use crate::free_slots::free_slots;
use crate::incarnations::Incarnations;
use crate::unread::none_has_anything_to_do;
use can_controller::Controller;
use can_controller::laws::counters_within;
use can_fault::Script;
use cany_base::{NodeAsk, NodeId, NodeSet, Slot};

/// So many slots from the next one on. If they are idle, these nodes may have something to do in
/// the last of them, and in the others no node has.
#[derive(Clone, Copy)]
pub(crate) struct Stretch {
    pub(crate) slots: u64,
    pub(crate) due: NodeSet,
}

/// How many slots from the next one on the node can pass. One that has stopped can pass as many as
/// are asked about.
fn passed_by(next: Slot, most: u64, controller: &Controller, node: &Incarnations) -> u64
    requires { HasNothingToDoIfItRuns controller.now }
    ensures { CanPass next result controller.now node.now }
{
    if controller.stopped().is_some() {
        return most;
    }
    counters_within(controller);
    node.wake().saturating_sub(next)
}

/// The stretch, or the part of it that is left where node i can pass only so many slots. In the
/// slot after these it is due.
fn narrowed(stretch: Stretch, i: usize, slots: u64) -> Stretch
    requires { i < most_nodes }
    ensures few { result.slots ≤ stretch.slots }
    ensures here { passes result.slots result.due i ≤ slots }
    ensures others { (k : ℕ) → passes result.slots result.due k ≤ passes stretch.slots stretch.due k }
{
    if slots >= stretch.slots {
        return stretch;
    }
    let mut due = NodeSet::empty();
    if slots + 1 == stretch.slots {
        due = stretch.due;
    }
    due.insert(NodeId::of_index(i));
    Stretch {
        slots: slots + 1,
        due,
    }
}

/// The slots from the next one on, at most so many, up to the first in which a node has something
/// to do.
fn passed_by_all(
    next: Slot,
    most: u64,
    controllers: &[Controller],
    nodes: &[Incarnations],
) -> Stretch
    requires count { length controllers.now ≡ length nodes.now }
    requires few { length controllers.now ≤ most_nodes }
    requires nothing_to_do { HaveNothingToDo controllers.now }
    ensures few { result.slots ≤ most }
    ensures passes { CanAllPass next result.slots result.due controllers.now nodes.now }
{
    let mut stretch = Stretch {
        slots: most,
        due: NodeSet::empty(),
    };
    for i in 0..controllers.len() {
        let slots = passed_by(next, stretch.slots, &controllers[i], &nodes[i]);
        stretch = narrowed(stretch, i, slots);
    }
    stretch
}

/// The next slots, at most so many, of which the script says nothing, up to the first in which a
/// node has something to do. They are none where a running node waits with a frame or has something
/// to read. That is looked at first, since it takes less than to ask the nodes.
pub(crate) fn next_stretch(
    next: Slot,
    most: u64,
    script: &Script,
    restarts: &[NodeAsk],
    controllers: &[Controller],
    nodes: &[Incarnations],
) -> Stretch
    requires count { length controllers.now ≡ length nodes.now }
    requires few { length controllers.now ≤ most_nodes }
    requires room { next + most < 2 ^ 64 }
    ensures few { result.slots ≤ most }
    ensures passes { 0 < result.slots → CanAllPass next result.slots result.due controllers.now nodes.now }
    ensures free { (scenario : ScenarioParts) → script.now ≡ scenario.rules → restarts.now ≡ scenario.restarts →
        (slot : ℕ) → next ≤ slot → slot < next + result.slots → IsFree scenario slot }
{
    if !none_has_anything_to_do(controllers) {
        return Stretch {
            slots: 0,
            due: NodeSet::empty(),
        };
    }
    let stretch = passed_by_all(next, most, controllers, nodes);
    let slots = free_slots(script, restarts, next, stretch.slots);
    if slots == stretch.slots {
        return stretch;
    }
    Stretch {
        slots,
        due: NodeSet::empty(),
    }
}
