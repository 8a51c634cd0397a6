ghost use Rattle.std.specs.Prelude.{◌≡◌, ℕ, ◌+◌, ◌<◌, ◌≤◌, ◌++◌, [], ◌∷◌, length, List, Option, Some, None, option_map, replicate, IfOk, IfSome};
ghost use Rattle.cany_base.specs.declared.notice.NoticeKind.{NoticeKind};
ghost use Rattle.cany_base.specs.declared.notice.NoticeKind.TheVariants.{Idle, Got};
ghost use Rattle.cany_base.specs.Limits.{most_nodes, most_slots};
ghost use Rattle.cany_base.specs.Nodes.{AllBelow, Nodes};
ghost use Rattle.cany_base.specs.Scenario.{ScenarioParts};
ghost use Rattle.cany_history.specs.History.{HistoryParts, CanRead, IsHistoryOf, IsNextAt, Rests, StartsWith};
ghost use Rattle.cany_history.specs.HistorySteps.{IsInRun, end_actions, frame_at, got_actions, after_ending, after_reading, after_starting, is_covered_by, is_own_vector, met_by, is_just_own, read_actions, start_actions, with_vector, withdrawal_at};
ghost use Rattle.cany_model.specs.Rules.Actions.{actions_of};
ghost use Rattle.cany_model.specs.Rules.Vectors.{after_exchange, brought, ended, everybody, exchange_at, is_new, met, met_with, vector_in};
ghost use Rattle.cany_base.specs.Cycles.{cycle_of};

use crate::cycle::next_start_or_end;
use crate::ended::Ended;
use cany_base::cycle::{cycle_of, is_end, is_exchange, is_start};
use cany_base::{
    Action, Actions, Class, Frame, Memory, NodeId, NodeSet, Notice, NoticeKind, Params, Payload,
    Scenario, Slot,
};
use cany_message::{is_of_class, withdraw};
use std::alloc::Global;
use std::marker::Model;

/// The reception history vector of one node.
///
/// This project's own rule. At the start of a membership cycle a member takes a set of nodes as its
/// vector and sends it. While vectors are exchanged, each vector of the cycle that is got is met
/// with the node's own, and with the set of all nodes where it has none. A vector that is new is
/// sent, one that is covered is not: the node has sent just this one, or got it more than `omit`
/// times. At the end of the cycle the vector is given up, and becomes the view.
///
/// Each vector that was got or sent in the cycle has all of the present one. So of a vector that is
/// new there are no copies from before, and only those of the present one need be counted.
#[derive(Drop)]
pub struct History {
    node: NodeId,
    params: Params,
    /// The vector of the present cycle, if there is one.
    vector: Option<NodeSet>,
    /// How many copies of just this vector were got in the cycle.
    copies: u32,
    /// Whether the node has sent just this vector in the cycle.
    sent: bool,
}

impl Model for History {
    ghost Value = { HistoryParts };

    ghost view = { λ h. record { node = h.node; params = h.params; vector = h.vector; copies = h.copies; sent = h.sent } };
}

impl History {
    /// The value of a node that has read nothing, or only notices of idle slots. It takes no
    /// memory: it is built as the other protocols are.
    ///
    /// Promise: the value stands for each history of idle slots alone, the empty one too, of a node
    /// without a vector.
    ///
    /// Shown by: `restart_joins`.
    ///
    /// # Errors
    ///
    /// `Memory`: out of memory. The body never answers it, but no clause says so.
    pub fn build(alloc: Global, node: NodeId, scenario: &Scenario) -> Result<History, Memory>
        requires { node < scenario.now.params.nodes }
        ensures { IfOk result (λ history. (n : ℕ) → IsHistoryOf scenario.now node (replicate n Idle) None history) }
    {
        let _ = alloc;
        Ok(History {
            node,
            params: *scenario.params(),
            vector: None,
            copies: 0,
            sent: false,
        })
    }

    /// What a notice leads to: the vector in it, then the end of a cycle, then the start of one.
    /// `start` is what the node starts with, given where a cycle starts and it is a member.
    ///
    /// The notices of the slots before the first that a value is given count as idle ones. At most
    /// three actions are appended.
    ///
    /// Promise: whatever history and vector the value stands for, a notice that can come next leads
    /// to exactly the actions of the definition (`exchange_at`). The value then stands for the
    /// longer history and the vector after it. The answer is the vector that becomes the view, with
    /// the number of its cycle.
    ///
    /// Answers: `None` exactly where no cycle ends in this slot, or the node has no vector at its
    /// end.
    ///
    /// Shown by: `restart_joins`, `a_covered_vector_is_not_withdrawn`,
    /// `a_node_without_a_vector_takes_the_one_that_it_gets`, `a_vector_is_covered_one_copy_early`,
    /// `a_vector_of_another_cycle_is_taken`, `an_own_transmission_is_not_noted`,
    /// `copies_of_an_old_vector_count_for_a_new_one`, `vector_replaced_not_met`.
    pub fn on(
        &mut self,
        notice: &Notice,
        start: Option<NodeSet>,
        out: &mut Actions,
    ) -> Option<Ended>
        requires reads { CanRead self.old notice.now }
        requires start { StartsWith self.old.params notice.now.slot start }
        requires room { length out.old.items + 3 ≤ out.old.room }
        ensures ended { (scenario : ScenarioParts) (past : List NoticeKind) (vector : Option Nodes)
            → IsHistoryOf scenario self.old.node past vector self.old → IsNextAt scenario self.old.node past vector notice.now
            → result ≡ option_map (λ v. record { cycle = cycle_of scenario.params notice.now.slot; vector = v })
            (ended scenario.params notice.now.slot (met scenario.params vector (brought scenario.params notice.now.slot notice.now.kind))) }
        ensures below { IfSome result (λ e. AllBelow self.old.params.nodes e.vector) }
        ensures actions { (scenario : ScenarioParts) (past : List NoticeKind) (vector : Option Nodes)
            → IsHistoryOf scenario self.old.node past vector self.old → IsNextAt scenario self.old.node past vector notice.now
            → out.new.items ≡ out.old.items
            ++ actions_of scenario.params.format (exchange_at scenario.params 0 self.old.node notice.now.kind past vector start) }
        ensures stands { (scenario : ScenarioParts) (past : List NoticeKind) (vector : Option Nodes)
            → IsHistoryOf scenario self.old.node past vector self.old → IsNextAt scenario self.old.node past vector notice.now
            → IsHistoryOf scenario self.old.node (notice.now.kind ∷ past)
            (after_exchange scenario.params (length past) notice.now.kind start vector) self.new }
        ensures node { self.new.node ≡ self.old.node }
        ensures params { self.new.params ≡ self.old.params }
        ensures few { length out.new.items ≤ length out.old.items + 3 }
        ensures room { out.new.room ≡ out.old.room }
    {
        self.read(notice, out);
        let ended = self.end(notice.slot, out);
        self.start(notice.slot, start, out);
        ended
    }

    /// The first slot from `now` on in which an idle notice may lead to something: a membership
    /// cycle starts or ends in it. Until then the value stands as it is for the idle notices too.
    ///
    /// Promise: whatever history and vector the value stands for, an idle notice of a slot from
    /// `now` on and before the answer leads to nothing. The value stands as it is for the longer
    /// history too.
    ///
    /// Shown by: `a_value_rests_until_after_the_end_of_a_cycle`.
    pub fn wake(&self, now: Slot) -> Slot
        ensures rests { (scenario : ScenarioParts) (past : List NoticeKind) (vector : Option Nodes)
            → IsHistoryOf scenario self.now.node past vector self.now → now ≤ length past → length past < result
            → Rests scenario self.now.node past vector self.now }
    {
        next_start_or_end(&self.params, now)
    }

    /// A vector of the cycle from another node, or the node's own transmission of its present one.
    #[tactic(auto, unfolding(crate::specs::HistorySteps::after_reading, crate::specs::HistorySteps::after_meeting, crate::specs::HistorySteps::brought_actions, cany_model::specs::Rules::Vectors::brought))]
    fn read(&mut self, notice: &Notice, out: &mut Actions)
        requires run { IsInRun notice.now.slot self.old }
        requires below { IfSome self.old.vector (AllBelow self.old.params.nodes) }
        requires few { self.old.copies < most_slots }
        requires room { length out.old.items < out.old.room }
        ensures state { self.new ≡ after_reading notice.now.slot notice.now.kind self.old }
        ensures actions { out.new.items ≡ out.old.items ++ read_actions notice.now.slot notice.now.kind self.old }
        ensures few { length out.new.items ≤ length out.old.items + 1 }
        ensures room { out.new.room ≡ out.old.room }
    {
        match &notice.kind {
            NoticeKind::Got(frame) => {
                if let Some(got) = self.brought(notice.slot, frame) {
                    self.meet(notice.slot, got, out);
                }
            }
            NoticeKind::Sent(frame) => {
                if self.is_own_vector(notice.slot, frame) {
                    self.sent = true;
                }
            }
            NoticeKind::Idle => {}
            NoticeKind::Bad => {}
        }
    }

    /// At the end of a cycle the vector is given up, and its frame waits no longer.
    #[tactic(auto, unfolding(crate::specs::HistorySteps::end_actions))]
    fn end(&mut self, slot: Slot, out: &mut Actions) -> Option<Ended>
        requires run { IsInRun slot self.old }
        requires below { IfSome self.old.vector (AllBelow self.old.params.nodes) }
        requires room { length out.old.items < out.old.room }
        ensures ended { result ≡ option_map (λ v. record { cycle = cycle_of self.old.params slot; vector = v })
            (ended self.old.params slot self.old.vector) }
        ensures state { self.new ≡ after_ending slot self.old }
        ensures actions { out.new.items ≡ out.old.items ++ end_actions slot self.old (ended self.old.params slot self.old.vector) }
        ensures few { length out.new.items ≤ length out.old.items + 1 }
        ensures room { out.new.room ≡ out.old.room }
    {
        if !is_end(&self.params, slot) {
            return None;
        }
        let cycle = cycle_of(&self.params, slot);
        match self.vector {
            Some(vector) => {
                self.withdraw(slot, vector, out);
                self.vector = None;
                Some(Ended { cycle, vector })
            }
            None => None,
        }
    }

    /// At the start of a cycle a member sends what it starts with. Nothing was read of the cycle
    /// yet.
    #[tactic(auto, unfolding(crate::specs::HistorySteps::start_actions))]
    fn start(&mut self, slot: Slot, start: Option<NodeSet>, out: &mut Actions)
        requires run { IsInRun slot self.old }
        requires start { StartsWith self.old.params slot start }
        requires room { length out.old.items < out.old.room }
        ensures state { self.new ≡ after_starting slot start self.old }
        ensures actions { out.new.items ≡ out.old.items ++ start_actions slot self.old start }
        ensures few { length out.new.items ≤ length out.old.items + 1 }
        ensures room { out.new.room ≡ out.old.room }
    {
        if !is_start(&self.params, slot) {
            return;
        }
        if let Some(vector) = &start {
            out.push(Action::Ask(self.frame(slot, *vector)));
        }
        self.vector = start;
        self.copies = 0;
        self.sent = false;
    }

    /// The vector of the present cycle that a frame brings, while vectors are exchanged.
    #[tactic(auto, unfolding(cany_model::specs::Rules::Vectors::brought))]
    fn brought(&self, slot: Slot, frame: &Frame) -> Option<NodeSet>
        requires run { IsInRun slot self.now }
        ensures brought { result ≡ brought self.now.params slot (Got frame.now) }
    {
        if is_exchange(&self.params, slot) {
            self.vector_in(slot, frame)
        } else {
            None
        }
    }

    /// The vector of the cycle of the slot that a frame carries.
    fn vector_in(&self, slot: Slot, frame: &Frame) -> Option<NodeSet>
        requires run { IsInRun slot self.now }
        ensures vector { result ≡ vector_in self.now.params.format (cycle_of self.now.params slot) frame.now }
    {
        if is_of_class(frame, Class::Rha) && frame.number == cycle_of(&self.params, slot) {
            frame.payload.as_vector(self.params.format)
        } else {
            None
        }
    }

    /// Whether a frame is the node's own, with just its present vector.
    fn is_own_vector(&self, slot: Slot, frame: &Frame) -> bool
        requires run { IsInRun slot self.now }
        ensures { result ≡ is_own_vector slot frame.now self.now }
    {
        let sent = self.vector_in(slot, frame);
        frame.node.get() == self.node.get() && is_same(self.vector, sent)
    }

    /// A vector that is brought is met with the node's own. The frame of one that is covered is
    /// withdrawn, that of a new one is asked for.
    fn meet(&mut self, slot: Slot, got: NodeSet, out: &mut Actions)
        requires run { IsInRun slot self.old }
        requires below { IfSome self.old.vector (AllBelow self.old.params.nodes) }
        requires few { self.old.copies < most_slots }
        requires room { length out.old.items < out.old.room }
        ensures state { self.new ≡ met_by got self.old }
        ensures actions { out.new.items ≡ out.old.items ++ got_actions slot got self.old }
        ensures few { length out.new.items ≤ length out.old.items + 1 }
        ensures room { out.new.room ≡ out.old.room }
    {
        let vector = self.met_with(got);
        let is_new = self.is_new(vector);
        self.take(got, vector, is_new);
        if self.is_covered() {
            self.withdraw(slot, vector, out);
        } else if is_new {
            out.push(Action::Ask(self.frame(slot, vector)));
        }
    }

    /// The node's own vector, or the set of all nodes where it has none, met with one that is
    /// brought.
    fn met_with(&self, got: NodeSet) -> NodeSet
        requires nodes { self.now.params.nodes ≤ most_nodes }
        requires below { IfSome self.now.vector (AllBelow self.now.params.nodes) }
        ensures met { result ≡ met_with self.now.params self.now.vector got }
        ensures below { AllBelow self.now.params.nodes result }
    {
        let all = everybody(&self.params);
        self.vector.unwrap_or(all).meet(got)
    }

    /// Whether a vector differs from the node's own, or it has none.
    #[tactic(auto, unfolding(cany_model::specs::Rules::Vectors::is_new))]
    fn is_new(&self, vector: NodeSet) -> bool
        ensures { result ≡ is_new self.now.vector vector }
    {
        match self.vector {
            Some(own) => own.bits() != vector.bits(),
            None => true,
        }
    }

    /// The vector is now this one, after another was got.
    fn take(&mut self, got: NodeSet, vector: NodeSet, is_new: bool)
        requires { self.old.copies < most_slots }
        ensures { self.new ≡ with_vector got vector is_new self.old }
    {
        self.vector = Some(vector);
        if is_new {
            self.copies = 0;
            self.sent = false;
        }
        if got.bits() == vector.bits() {
            self.copies += 1;
        }
    }

    /// Whether the node has sent its vector, or got it more often than there may be omissions.
    fn is_covered(&self) -> bool
        ensures { result ≡ is_covered_by self.now }
    {
        self.sent || self.copies > self.params.omit
    }

    /// The frame of the node's vector in the cycle of the slot waits no longer.
    fn withdraw(&self, slot: Slot, vector: NodeSet, out: &mut Actions)
        requires run { IsInRun slot self.now }
        requires below { AllBelow self.now.params.nodes vector }
        requires room { length out.old.items < out.old.room }
        ensures actions { out.new.items ≡ out.old.items ++ withdrawal_at slot self.now ∷ [] }
        ensures room { out.new.room ≡ out.old.room }
    {
        let frame = self.frame(slot, vector);
        withdraw(self.params.format, &frame, true, out);
    }

    /// The frame of a vector in the cycle of the slot. It tells no incarnation: its node does that.
    fn frame(&self, slot: Slot, vector: NodeSet) -> Frame
        requires run { IsInRun slot self.now }
        requires below { AllBelow self.now.params.nodes vector }
        ensures { result ≡ frame_at slot self.now vector }
    {
        Frame {
            class: Class::Rha,
            number: cycle_of(&self.params, slot),
            node: self.node,
            inc: 0,
            payload: Payload::vector(vector, self.params.format),
        }
    }
}

/// Whether there are two sets, and they have the same nodes.
#[tactic(auto, unfolding(crate::specs::HistorySteps::is_just_own, cany_model::specs::Rules::Vectors::is_just))]
fn is_same(one: Option<NodeSet>, other: Option<NodeSet>) -> bool
    ensures { result ≡ is_just_own one other }
{
    match (one, other) {
        (Some(one), Some(other)) => one.bits() == other.bits(),
        _ => false,
    }
}

/// The nodes of the bus.
fn everybody(params: &Params) -> NodeSet
    requires { params.now.nodes ≤ most_nodes }
    ensures { result ≡ everybody params.now }
{
    NodeSet::all(params.nodes)
}
