//! What the workers do. Each makes a bounded number of calls, and waits for the lock or, for a
//! bounded time, for a signal.
ghost use Rattle.std.specs.Prelude.{◌≡◌};
ghost use Rattle.cany_crew.specs.Gates.{CountsRefusal};
ghost use Rattle.cany_crew.specs.Assignments.{IsAfterWork, IsWorked};

use crate::assignment::{Assignment, NodeAssignment};
use crate::event_count::Waited;
use crate::gate::Gate;
use crate::nodes::turns_due;
use crate::pace::Pace;
use crate::signals::Signals;
use cany_base::{NodeId, Slot};
use cany_yard::{BusSeat, Course, Deck, Seat, StepReply, TurnReply, Yard};
use std::sync::Wait;
use std::sync::ledger::Ledger;

/// How often in a row a worker tries a step that cannot be made yet. A node that has stopped tries
/// at each slot, and a run has fewer.
const MOST_TRIES: u32 = 1_000_000;

/// What all workers share.
#[derive(Drop)]
pub(crate) struct Work<'a, L: Course, B: Ledger> {
    pub(crate) yard: &'a Yard<L, B>,
    pub(crate) slots: u64,
    pub(crate) signals: &'a Signals,
}

/// Makes the next turn of the seat's node, and says which slot's notice it read. There is none
/// where a gate has refused a pass, where no more notices come, or where none came for so long that
/// the worker gives up. The node has no notice to read of a slot before the next.
fn take_turn<L: Course, B: Ledger, R: Wait>(
    rt: &R,
    work: &Work<'_, L, B>,
    next: Slot,
    seat: &mut Seat<L, B>,
) -> Option<Slot>
    ensures { seat.new.node ≡ seat.old.node }
{
    let signals = work.signals;
    for _ in 0..MOST_TRIES {
        // First of all, so that the wait misses nothing that comes from here on.
        let counted = signals.slots.read();
        if signals.are_halted() {
            return None;
        }
        // Looked at before the turn, so that no notice is missed.
        let over = signals.are_over();
        // While the next slot has not run there is nothing to read, and no need of the lock.
        if over || counted > next {
            let reply = work.yard.lock(rt).turn(seat);
            if let TurnReply::Turned { slot } = reply {
                signals.count_turn();
                return Some(slot);
            }
        }
        if over {
            return None;
        }
        if signals.finds_slot_beyond(counted) {
            continue;
        }
        if let Waited::InVain = signals.slots.wait_beyond(rt, counted) {
            return None;
        }
    }
    None
}

/// Takes the turns of a node, and asks its gate before each. Gives the slot of the pass that the
/// gate refused.
fn take_turns<L: Course, B: Ledger, G: Gate, R: Wait>(
    rt: &R,
    work: &Work<'_, L, B>,
    node: NodeId,
    seat: &mut Seat<L, B>,
    gate: &mut G,
) -> Option<Slot>
    ensures node { seat.new.node ≡ seat.old.node }
    ensures gate { CountsRefusal (G.refusals gate.old) result (G.refusals gate.new) (G.refused_at gate.new) }
{
    // The slot after the last that was read.
    let mut next: Slot = 0;
    for _ in 0..work.slots {
        if next >= work.slots || work.signals.are_halted() {
            return None;
        }
        if !gate.pass(node, next) {
            work.signals.halt();
            return Some(next);
        }
        match take_turn(rt, work, next, seat) {
            Some(slot) => next = slot.saturating_add(1),
            None => return None,
        }
    }
    None
}

fn work_node<L: Course, B: Ledger, G: Gate, R: Wait>(
    rt: &R,
    work: &Work<'_, L, B>,
    assignment: &mut NodeAssignment<L, B, G>,
)
    ensures { IsWorked assignment.old assignment.new }
{
    assignment.refused = take_turns(
        rt,
        work,
        assignment.node,
        &mut assignment.seat,
        &mut assignment.gate,
    );
}

/// Runs the next slot, if it can run, and says how many turns there have to be at least before
/// another can.
fn try_slot<L: Course, B: Ledger>(
    mut deck: Deck<'_, L, B>,
    bus: &mut BusSeat<L, B>,
) -> (StepReply, u64) {
    let reply = deck.slot(bus);
    (reply, turns_due(deck.world()))
}

/// Runs the next slot, and says whether it ran. The lock is taken only once as many turns are
/// counted as there have to be.
fn run_slot<L: Course, B: Ledger, R: Wait>(
    rt: &R,
    work: &Work<'_, L, B>,
    pace: &mut Pace,
    bus: &mut BusSeat<L, B>,
) -> bool {
    let signals = work.signals;
    pace.begin_slot(signals);
    for _ in 0..MOST_TRIES {
        // First of all and in this order: a turn that the count misses is made after it, and calls.
        let called = signals.calls.read();
        let counted = signals.turns();
        if signals.are_halted() {
            return false;
        }
        if counted < signals.wanted() {
            let waited = signals.calls.wait_beyond(rt, called);
            if matches!(waited, Waited::InVain) && signals.turns() == counted {
                return false;
            }
            pace.end_wait(signals, waited);
            continue;
        }
        let (reply, due) = try_slot(work.yard.lock(rt), bus);
        // Counted before the lock was taken, so this is never more than there have to be.
        signals.want(counted.saturating_add(due));
        match reply {
            StepReply::Done => {
                signals.slots.advance();
                return true;
            }
            StepReply::Lagging { .. } => {}
            _ => return false,
        }
    }
    false
}

fn work_bus<L: Course, B: Ledger, R: Wait>(rt: &R, work: &Work<'_, L, B>, bus: &mut BusSeat<L, B>) {
    let mut pace = Pace::new();
    for _ in 0..work.slots {
        if !run_slot(rt, work, &mut pace, bus) {
            break;
        }
    }
    work.signals.end();
}

/// Works an assignment until all slots ran, or were read.
pub(crate) fn work_assignment<L: Course, B: Ledger, G: Gate, R: Wait>(
    rt: &R,
    work: &Work<'_, L, B>,
    assignment: &mut Assignment<L, B, G>,
)
    ensures { IsAfterWork assignment.old assignment.new }
{
    match assignment {
        Assignment::Bus(bus) => work_bus(rt, work, bus),
        Assignment::Node(of_node) => work_node(rt, work, of_node),
    }
}
