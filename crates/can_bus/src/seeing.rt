//! What the controllers learn of a slot.
ghost use Rattle.std.specs.Prelude.{◌≡◌, ◌<◌, ◌≤◌, ◌&&◌, ℕ, Some, None, is_none, length, nat_lt, not};
ghost use Rattle.cany_base.specs.Limits.{most_nodes};
ghost use Rattle.cany_base.specs.Nodes.{has};
ghost use Rattle.cany_model.specs.Bus.Slot.{share_of};
ghost use Rattle.cany_model.specs.Bus.State.{node_at, runs};
ghost use Rattle.can_controller.specs.Controller.{seen};
ghost use Rattle.can_bus.specs.Contest.{running_nodes, seen_by, stopped_by};
ghost use Rattle.can_bus.specs.Seeing.{AreNoticesOf};
ghost use Rattle.can_bus.specs.Each.{each};
ghost use Rattle.can_bus.specs.Controllers.{HaveRoom, nodes_of};

use crate::nodes::insert_unless;
use crate::transmission::is_success;
use can_controller::{Controller, Share};
use cany_base::{Frame, NodeId, NodeSet, Notice, NoticeKind, Slot, SlotNote};

/// The notice of a slot for those that take its frame, and that for those that send it with
/// success.
#[derive(Drop)]
struct Notices {
    got: Notice,
    sent: Notice,
}

/// The notices of the slot. They are idle where it carries no frame.
fn notices_of(note: &SlotNote) -> Notices
    ensures { AreNoticesOf note.now result }
{
    let slot = note.slot;
    let (got, sent) = match note.frame {
        Some(frame) => (NoticeKind::Got(frame), NoticeKind::Sent(frame)),
        None => (NoticeKind::Idle, NoticeKind::Idle),
    };
    Notices {
        got: Notice { slot, kind: got },
        sent: Notice { slot, kind: sent },
    }
}

/// The running controller of a node sees its share in a slot that carries this frame.
#[tactic(auto, unfolding(cany_model::specs::Bus::Slot::share_of))]
fn see_frame(
    controller: &mut Controller,
    node: NodeId,
    frame: &Frame,
    note: &SlotNote,
    notices: &Notices,
)
    requires running { controller.old.stopped ≡ None }
    requires room { length controller.old.unread ≤ controller.old.params.lag }
    requires frame { note.now.frame ≡ Some frame.now }
    requires notices { AreNoticesOf note.now notices.now }
    ensures { controller.new ≡ seen note.now.slot (share_of node note.now) controller.old }
{
    if note.senders.has(node) {
        if is_success(&note.verdict) {
            controller.see_sent(frame, &notices.sent);
            return;
        }
        controller.see(note.slot, Share::Errored);
        return;
    }
    if note.takers.has(node) {
        controller.see_taken(&notices.got);
        return;
    }
    controller.see(note.slot, Share::Rejected);
}

/// The controller of node i sees its share, if it runs. Whether it runs after that.
#[tactic(auto, unfolding(cany_model::specs::Bus::Slot::share_of))]
fn see_share(controller: &mut Controller, i: usize, note: &SlotNote, notices: &Notices) -> bool
    requires node { i < most_nodes }
    requires room { controller.old.stopped ≡ None → length controller.old.unread ≤ controller.old.params.lag }
    requires notices { AreNoticesOf note.now notices.now }
    ensures controller { controller.new ≡ seen_by note.now i controller.old }
    ensures runs { result ≡ is_none controller.new.stopped }
{
    if controller.stopped().is_some() {
        return false;
    }
    let Some(frame) = &note.frame else {
        controller.see(note.slot, Share::Idle);
        return controller.stopped().is_none();
    };
    see_frame(controller, NodeId::of_index(i), frame, note, notices);
    controller.stopped().is_none()
}

/// Each running controller sees its share by these notices. Given are the nodes that do not run
/// after that.
// It is kept out of line so that each controller gets its notice copied whole. Where the notices
// are made in the same function, they are taken apart, and each copy is put together piece by
// piece.
#[inline(never)]
fn see_each(controllers: &mut [Controller], note: &SlotNote, notices: &Notices) -> NodeSet
    requires few { length controllers.old ≤ most_nodes }
    requires room { HaveRoom controllers.old }
    requires notices { AreNoticesOf note.now notices.now }
    ensures controllers { controllers.new ≡ each (seen_by note.now) 0 controllers.old }
    ensures stopped { (k : ℕ) → has result k ≡ (nat_lt k (length controllers.old) && not (runs (node_at (nodes_of controllers.new) k))) }
{
    let mut stopped = NodeSet::empty();
    for i in 0..controllers.len() {
        let controller = &mut controllers[i];
        let runs = see_share(controller, i, note, notices);
        insert_unless(&mut stopped, i, runs);
    }
    stopped
}

/// Each running controller sees its share. Given are the nodes that then still run; `before` are
/// those that run before.
pub(crate) fn see_all(controllers: &mut [Controller], before: NodeSet, note: &SlotNote) -> NodeSet
    requires few { length controllers.old ≤ most_nodes }
    requires room { HaveRoom controllers.old }
    requires before { before ≡ running_nodes (nodes_of controllers.old) }
    ensures controllers { controllers.new ≡ each (seen_by note.now) 0 controllers.old }
    ensures running { result ≡ running_nodes (nodes_of controllers.new) }
{
    let stopped = see_each(controllers, note, &notices_of(note));
    before.minus(stopped)
}

/// The controller of node i stops, if the set has it.
fn stop_one(controller: &mut Controller, i: usize, slot: Slot, stops: NodeSet)
    requires { i < most_nodes }
    ensures { controller.new ≡ stopped_by slot stops i controller.old }
{
    if stops.has(NodeId::of_index(i)) {
        controller.stop(slot);
    }
}

/// The controllers of these nodes stop.
pub(crate) fn stop_all(controllers: &mut [Controller], slot: Slot, stops: NodeSet)
    requires { length controllers.old ≤ most_nodes }
    ensures { controllers.new ≡ each (stopped_by slot stops) 0 controllers.old }
{
    // In most slots nobody stops.
    if stops.is_empty() {
        return;
    }
    for i in 0..controllers.len() {
        let controller = &mut controllers[i];
        stop_one(controller, i, slot, stops);
    }
}
