//! The incarnations of one node.
ghost use Rattle.std.specs.Prelude.{◌≡◌, ◌≤◌, ◌<◌, ◌+◌, ◌^◌, ◌==◌, ◌&&◌, List, Some, IfOk, length, count_by, nat_lt, not, slice_get};
ghost use Rattle.std.specs.List.{list_any};
ghost use Rattle.cany_base.specs.declared.notice.Notice.{Notice};
ghost use Rattle.cany_base.specs.declared.notice.NoticeKind.{NoticeKind};
ghost use Rattle.cany_base.specs.Limits.{most_restarts_of_node};
ghost use Rattle.cany_base.specs.Scenario.{ScenarioParts, is_ask_of_node};
ghost use Rattle.cany_model.specs.declared.span.Span.{Span as AnySpan};
ghost use Rattle.cany_node.specs.Node.{NodeParts, Reads, reply_of};
ghost use Rattle.cany_world.specs.Resting.{HasPassed, IncarnationRests};
ghost use Rattle.cany_world.specs.Incarnations.{CanRestart, CanTurnNow, HasTurned, IsFirstOf, IsLeft, IsRestarted, AreBuilt, began_in, span_in, span_until};

use can_controller::Controller;
use cany_base::{Actions, LogEntry, Memory, NodeAsk, NodeId, Scenario, Slot};
use cany_model::Span;
use cany_node::{Node, TurnReply};
use std::alloc::Global;
use std::marker::Model;

/// The incarnations of a node, all built in advance: that of the opening, and one for each restart
/// entry of the node. The present one runs or has stopped; those before it have ended and keep
/// their logs; those after it wait for a restart.
///
/// All memory is taken by `build`.
#[derive(Drop)]
pub(crate) struct Incarnations {
    nodes: Vec<Node>,
    /// Of the present incarnation only `since` is kept: its controller has the rest.
    spans: Vec<Span>,
    present: usize,
}

impl Model for Incarnations {
    ghost use Rattle.cany_world.specs.Incarnations.{IncarnationsParts};
    ghost use Rattle.cany_world.specs.IncarnationsFields.{incarnations_parts, IsSound};

    ghost Value = { IncarnationsParts };

    ghost view = { incarnations_parts };

    ghost invariant = { IsSound };
}

/// How many restart entries name the node.
fn restarts_of(node: NodeId, restarts: &[NodeAsk]) -> usize
    ensures { result ≡ count_by (is_ask_of_node node) restarts.now }
{
    restarts.iter().filter(|ask| ask.node == node).count()
}

/// The node as each of so many incarnations.
fn built(
    alloc: Global,
    node: NodeId,
    count: usize,
    scenario: &Scenario,
) -> Result<Vec<Node>, Memory>
    requires node { node < scenario.now.params.nodes }
    requires few { count ≤ most_restarts_of_node + 1 }
    ensures { IfOk result (λ nodes. AreBuilt scenario.now node count nodes.items) }
{
    let mut nodes = Vec::with_capacity(alloc, count)?;
    for number in 0..count {
        let incarnation = Node::build(alloc, node, number as u8, scenario)?;
        nodes.push(incarnation)?;
    }
    Ok(nodes)
}

/// The span of an incarnation that begins with this slot.
fn span_since(since: Slot) -> Span
    ensures { result ≡ record { since = since; stopped = None; read = 0 } }
{
    Span {
        since,
        stopped: None,
        read: 0,
    }
}

/// The span, with what became of the incarnation until it had this slot to read next.
fn span_until(stopped: Option<Slot>, next: Slot, span: &Span) -> Span
    ensures { result ≡ span_until stopped next span.now }
{
    Span {
        since: span.since,
        stopped,
        read: next.saturating_sub(span.since),
    }
}

/// Whether the incarnation of this span began with the slot after this one.
fn began_in(slot: Slot, span: &Span) -> bool
    ensures { result ≡ began_in slot span.now }
{
    span.since > 0 && span.since - 1 == slot
}

impl Incarnations {
    /// The incarnations of a node of the scenario before the first step: that of the opening is
    /// present.
    pub(crate) fn build(
        alloc: Global,
        node: NodeId,
        scenario: &Scenario,
    ) -> Result<Incarnations, Memory>
        requires { node < scenario.now.params.nodes }
        ensures { IfOk result (IsFirstOf scenario.now node) }
    {
        // The call says that the scenario is legal and starts with slot 0, from which the proof has
        // that the restarts of a node are few and that the incarnation of the opening may read.
        let _legal = scenario.params();
        let count = restarts_of(node, scenario.restarts()) + 1;
        let nodes = built(alloc, node, count, scenario)?;
        let spans = vec![in alloc; span_since(0); count]?;
        Ok(Incarnations {
            nodes,
            spans,
            present: 0,
        })
    }

    /// The node as its present incarnation.
    pub(crate) fn node(&self) -> &Node
        ensures { slice_get self.now.nodes self.now.present ≡ Some result.now }
    {
        let nodes = self.nodes.as_slice();
        &nodes[self.present]
    }

    /// The number of the present incarnation.
    pub(crate) fn incarnation(&self) -> u8
        ensures { result ≡ self.now.present }
    {
        self.present as u8
    }

    /// The present incarnation takes its turn, as `Node::turn` says.
    // A hint, since a run makes most of these calls in one place.
    #[inline(always)]
    pub(crate) fn turn(&mut self, ctl: &mut Controller, out: &mut Actions) -> TurnReply
        requires { CanTurnNow self.old ctl.old out.old }
        ensures reply { result ≡ reply_of ctl.old }
        ensures refused { IsLeft result self.old self.new ctl.old ctl.new }
        ensures turn { (it : NodeParts) → slice_get self.old.nodes self.old.present ≡ Some it →
            (scenario : ScenarioParts) (past : List NoticeKind) (notice : Notice) → Reads scenario past notice it ctl.old →
            HasTurned scenario past notice it self.old self.new ctl.old ctl.new }
        ensures out { out.new ≡ out.old }
    {
        let nodes = self.nodes.as_mut_slice();
        nodes[self.present].turn(ctl, out)
    }

    /// The first slot in whose turn the present incarnation may have something to do, as
    /// `Node::wake` says.
    pub(crate) fn wake(&self) -> Slot
        ensures { IncarnationRests result self.now }
    {
        self.node().wake()
    }

    /// The present incarnation passes so many idle slots, in which it has nothing to do.
    pub(crate) fn rest(&mut self, slots: u64)
        requires { (it : NodeParts) → slice_get self.old.nodes self.old.present ≡ Some it → it.read + slots < 2 ^ 64 }
        ensures { HasPassed slots self.old self.new }
    {
        let nodes = self.nodes.as_mut_slice();
        nodes[self.present].rest(slots);
    }

    /// At the end of the slot the present incarnation ends, and the next begins. `next` is the slot
    /// that the one that ends would have read next.
    pub(crate) fn restart(&mut self, slot: Slot, stopped: Option<Slot>, next: Slot)
        requires { CanRestart slot self.old }
        ensures { IsRestarted slot stopped next self.old self.new }
    {
        let spans = self.spans.as_mut_slice();
        let span = spans[self.present];
        spans[self.present] = span_until(stopped, next, &span);
        self.present += 1;
        spans[self.present] = span_since(slot + 1);
        let nodes = self.nodes.as_mut_slice();
        nodes[self.present].begin(slot);
    }

    /// The log of an incarnation that has begun, oldest entry first.
    pub(crate) fn log_of(&self, inc: u8) -> &[LogEntry]
        requires { inc ≤ self.now.present }
        ensures { (it : NodeParts) → slice_get self.now.nodes inc ≡ Some it → result.now ≡ it.log }
    {
        let nodes = self.nodes.as_slice();
        nodes[usize::from(inc)].log()
    }

    /// The span of an incarnation that has begun. The controller is that of the node.
    pub(crate) fn span_of(&self, inc: u8, ctl: &Controller) -> Span
        requires { inc ≤ self.now.present }
        ensures { (span : AnySpan) → slice_get self.now.spans inc ≡ Some span → result ≡ span_in ctl.now inc self.now span }
    {
        let spans = self.spans.as_slice();
        let span = spans[usize::from(inc)];
        if usize::from(inc) == self.present {
            return span_until(ctl.stopped(), ctl.read(), &span);
        }
        span
    }

    /// The first slot in which an incarnation that has begun takes part.
    pub(crate) fn takes_part_since(&self, inc: u8) -> Slot
        requires { inc ≤ self.now.present }
        ensures first { inc ≡ 0 → result ≡ 0 }
        ensures later { 0 < inc → (it : NodeParts) → slice_get self.now.nodes inc ≡ Some it → result ≡ it.from }
    {
        if inc == 0 {
            return 0;
        }
        let nodes = self.nodes.as_slice();
        nodes[usize::from(inc)].from()
    }

    /// Whether the present incarnation, if it is not that of the opening, takes part only since a
    /// later slot than this one.
    pub(crate) fn came_after(&self, slot: Slot) -> bool
        ensures { (it : NodeParts) → slice_get self.now.nodes self.now.present ≡ Some it →
            result ≡ (nat_lt 0 self.now.present && nat_lt slot it.from) }
    {
        self.present > 0 && slot < self.node().from()
    }

    /// Whether an incarnation began at the end of the slot.
    pub(crate) fn began_in(&self, slot: Slot) -> bool
        ensures { result ≡ list_any (began_in slot) self.now.spans }
    {
        self.spans.iter().any(|span| began_in(slot, span))
    }
}
