ghost use Rattle.std.specs.Prelude.{◌≡◌, ℕ, ◌+◌, ◌<◌, ◌≤◌, ◌++◌, length, Some, IfOk, IfSome};
ghost use Rattle.cany_base.specs.declared.class.Class.TheVariants as class;
ghost use Rattle.cany_base.specs.declared.log_entry.LogEntry.TheVariants.{View};
ghost use Rattle.cany_base.specs.Nodes.{AllBelow, has, nobody, minus, plus};
ghost use Rattle.cany_base.specs.Scenario.{ScenarioParts};
ghost use Rattle.cany_model.specs.Rules.Actions.{actions_of};
ghost use Rattle.cany_model.specs.Rules.Notices.{IsReadable};
ghost use Rattle.cany_model.specs.Rules.Knowledge.{Knowledge, knowledge_at_first};
ghost use Rattle.cany_base.specs.Cycles.{cycle_of};
ghost use Rattle.cany_model.specs.Rules.Views.{after_ask, join_asked, leave_asked, start_of, view_effects, with_view};
ghost use Rattle.cany_views.specs.Views.{CanHear, IsViewsOf};
ghost use Rattle.cany_views.specs.ViewsSteps.{heard_join, heard_leave, installed, installed_actions};

use crate::asks::{ask_frame, asked_cycles, withdraw_asks};
use cany_base::cycle::cycle_of;
use cany_base::{
    Action, Actions, BoundedVec, Class, Frame, LogEntry, Memory, NodeId, NodeSet, Notice,
    NoticeKind, Params, Scenario, Slot,
};
use cany_history::Ended;
use cany_message::is_of_class;
use std::alloc::Global;
use std::marker::Model;

/// The view of the site at one node, and the nodes that have asked to join it and to leave it.
///
/// This project's own rule. A node outside the view asks to join it, a member asks to leave it. At
/// the start of a membership cycle a member offers the members that have not failed and do not
/// leave, and those that join. The vector to which the nodes come by the end of the cycle becomes
/// the view.
#[derive(Drop)]
pub struct Views {
    node: NodeId,
    params: Params,
    /// The view: before the first that is installed, the members of the scenario.
    members: NodeSet,
    /// The nodes outside the view that have asked to join it.
    joiners: NodeSet,
    /// The members that have asked to leave the view.
    leavers: NodeSet,
    /// The cycles in which the node's script asks to join, in file order.
    joins: BoundedVec<u16>,
    /// The cycles in which the node's script asks to leave, in file order.
    leaves: BoundedVec<u16>,
}

impl Model for Views {
    ghost use Rattle.cany_views.specs.Views.{ViewsParts, IsInBounds};
    ghost use Rattle.cany_views.specs.ViewsFields.{parts_of};

    ghost Value = { ViewsParts };

    ghost view = { parts_of };

    ghost invariant = { λ v. IsInBounds (parts_of v) };
}

impl Views {
    /// The value of a node that has read nothing. The members are those of the scenario, and nobody
    /// has asked.
    ///
    /// Promise: the value stands for what a node of the opening knows at first, with the members of
    /// the scenario.
    ///
    /// Shown by: `restart_joins`.
    ///
    /// # Errors
    ///
    /// `Memory`: out of memory.
    pub fn build(alloc: Global, node: NodeId, scenario: &Scenario) -> Result<Views, Memory>
        requires { node < scenario.now.params.nodes }
        ensures { IfOk result (λ views. IsViewsOf scenario.now node (knowledge_at_first scenario.now.members) views) }
    {
        let params = *scenario.params();
        let joins = asked_cycles(alloc, &params, node, scenario.joins())?;
        let leaves = asked_cycles(alloc, &params, node, scenario.leaves())?;
        Ok(Views {
            node,
            params,
            members: scenario.members(),
            joiners: NodeSet::empty(),
            leavers: NodeSet::empty(),
            joins,
            leaves,
        })
    }

    /// Makes the value that of a node which is at first no member, as one that starts again. It
    /// knows no member, and nobody that has asked.
    ///
    /// Promise: the value stands for what a node knows at first that has no members. Its node, its
    /// parameters and its scripted asks stay.
    ///
    /// Shown by: `restart_joins`.
    pub fn begin_outside(&mut self)
        ensures stands { (scenario : ScenarioParts) (knowledge : Knowledge) → IsViewsOf scenario self.old.node knowledge self.old →
            IsViewsOf scenario self.old.node (knowledge_at_first nobody) self.new }
        ensures node { self.new.node ≡ self.old.node }
        ensures params { self.new.params ≡ self.old.params }
        ensures joins { self.new.joins ≡ self.old.joins }
        ensures leaves { self.new.leaves ≡ self.old.leaves }
    {
        self.members = NodeSet::empty();
        self.joiners = NodeSet::empty();
        self.leavers = NodeSet::empty();
    }

    /// Notes the node that asks in a notice to join the view or to leave it. A join counts where it
    /// is got, a leave also where it is the node's own.
    ///
    /// Promise: whatever knowledge the value stands for, it stands afterwards for the knowledge
    /// after the ask in this notice by the definition (`after_ask`).
    ///
    /// Shown by: `restart_joins`, `a_member_that_asks_to_join_is_heard`,
    /// `the_own_leave_is_not_heard`.
    pub fn hear(&mut self, notice: &Notice)
        requires { CanHear self.old notice.now }
        ensures stands { (scenario : ScenarioParts) (knowledge : Knowledge) → IsViewsOf scenario self.old.node knowledge self.old →
            IsReadable scenario notice.now.slot notice.now.kind →
            IsViewsOf scenario self.old.node (after_ask notice.now.kind knowledge) self.new }
        ensures node { self.new.node ≡ self.old.node }
        ensures params { self.new.params ≡ self.old.params }
        ensures joins { self.new.joins ≡ self.old.joins }
        ensures leaves { self.new.leaves ≡ self.old.leaves }
    {
        match &notice.kind {
            NoticeKind::Got(frame) => {
                if is_of_class(frame, Class::Join) {
                    self.hear_join(frame);
                } else if is_of_class(frame, Class::Leave) {
                    self.hear_leave(frame);
                }
            }
            NoticeKind::Sent(frame) => {
                if is_of_class(frame, Class::Leave) {
                    self.hear_leave(frame);
                }
            }
            NoticeKind::Idle => {}
            NoticeKind::Bad => {}
        }
    }

    /// The view of the site, as this node has it.
    ///
    /// Promise: the members that the value has, which are nodes of the bus.
    ///
    /// Shown by: `restart_joins`.
    pub fn members(&self) -> NodeSet
        ensures members { result ≡ self.now.members }
        ensures below { AllBelow self.now.params.nodes result }
    {
        self.members
    }

    /// What a member starts a cycle with: the members that have not failed and do not leave, and
    /// those that join. `failed` are the nodes that have failed here.
    ///
    /// Promise: whatever knowledge the value stands for, if `failed` are its failed nodes, the
    /// answer is the vector of the definition (`start_of`).
    ///
    /// Answers: `None` exactly where the node is no member.
    ///
    /// Shown by: `restart_joins`, `a_cycle_starts_with_the_failed`,
    /// `a_cycle_starts_without_the_joiners`.
    pub fn start(&self, failed: NodeSet) -> Option<NodeSet>
        requires failed { AllBelow self.now.params.nodes failed }
        ensures exact { (scenario : ScenarioParts) (knowledge : Knowledge) → IsViewsOf scenario self.now.node knowledge self.now →
            ((r : ℕ) → has failed r ≡ has knowledge.failed r) → result ≡ start_of self.now.node knowledge }
        ensures below { IfSome result (AllBelow self.now.params.nodes) }
    {
        if self.members.has(self.node) {
            Some(self.offered(failed))
        } else {
            None
        }
    }

    /// Makes the vector of a cycle that ends the view. The answer is the nodes that are newly
    /// admitted, which were not in the view before. The number of the view is that of the cycle of
    /// the slot.
    ///
    /// A node of the new view enters it in its log and withdraws its asks to join. One that is not
    /// in it withdraws its asks to leave. At most one action is appended, and one for each scripted
    /// ask of the node.
    ///
    /// Promise: the answer is exactly the nodes of the vector that were no members before. Whatever
    /// knowledge the value stands for, it stands afterwards for that with this view, and exactly
    /// the actions of the definition are appended (`view_effects`).
    ///
    /// Shown by: `restart_joins`, `a_joiner_is_not_forgotten_once_it_is_in`,
    /// `a_view_is_entered_by_a_node_that_is_not_in_it`, `the_newly_admitted_are_all_of_the_vector`.
    pub fn install(&mut self, ended: Ended, now: Slot, out: &mut Actions) -> NodeSet
        requires vector { AllBelow self.old.params.nodes ended.vector }
        requires now { now < self.old.params.slots }
        requires room { length out.old.items + 1 + length self.old.joins + length self.old.leaves ≤ out.old.room }
        ensures newly { result ≡ minus ended.vector self.old.members }
        ensures below { AllBelow self.old.params.nodes result }
        ensures stands { (scenario : ScenarioParts) (knowledge : Knowledge) → IsViewsOf scenario self.old.node knowledge self.old →
            IsViewsOf scenario self.old.node (with_view self.old.node now ended.vector knowledge) self.new }
        ensures actions { (scenario : ScenarioParts) (knowledge : Knowledge) → IsViewsOf scenario self.old.node knowledge self.old →
            out.new.items ≡ out.old.items ++ actions_of scenario.params.format
            (view_effects scenario.params scenario.joins scenario.leaves self.old.node now (Some ended.vector)) }
        ensures node { self.new.node ≡ self.old.node }
        ensures params { self.new.params ≡ self.old.params }
        ensures joins { self.new.joins ≡ self.old.joins }
        ensures leaves { self.new.leaves ≡ self.old.leaves }
        ensures few { length out.new.items ≤ length out.old.items + 1 + length self.old.joins + length self.old.leaves }
        ensures room { out.new.room ≡ out.old.room }
    {
        let newly = ended.vector.minus(self.members);
        self.become_view(ended.vector);
        self.act_on_view(ended.vector, now, out);
        newly
    }

    /// In the turn of a slot in which the node's script asks to join: a node that is no member asks
    /// for the frame.
    ///
    /// At most one action is appended. The frame tells no incarnation: its node does that.
    ///
    /// Promise: the ask to join with the number of the slot's cycle is appended exactly where the
    /// node is no member. The value stays as it is.
    ///
    /// Shown by: `restart_joins`, `a_member_asks_to_join`.
    pub fn ask_join(&mut self, now: Slot, out: &mut Actions)
        requires now { now < self.old.params.slots }
        requires room { length out.old.items < out.old.room }
        ensures actions { out.new.items ≡ out.old.items
            ++ actions_of self.old.params.format (join_asked self.old.params 0 self.old.node now self.old.members) }
        ensures kept { self.new ≡ self.old }
        ensures few { length out.new.items ≤ length out.old.items + 1 }
        ensures room { out.new.room ≡ out.old.room }
    {
        if !self.members.has(self.node) {
            let cycle = cycle_of(&self.params, now);
            out.push(Action::Ask(ask_frame(Class::Join, cycle, self.node)));
        }
    }

    /// In the turn of a slot in which the node's script asks to leave: a member asks for the frame.
    ///
    /// At most one action is appended. The frame tells no incarnation: its node does that.
    ///
    /// Promise: the ask to leave with the number of the slot's cycle is appended exactly where the
    /// node is a member. The value stays as it is.
    ///
    /// Shown by: `leave_across_a_cycle_start`.
    pub fn ask_leave(&mut self, now: Slot, out: &mut Actions)
        requires now { now < self.old.params.slots }
        requires room { length out.old.items < out.old.room }
        ensures actions { out.new.items ≡ out.old.items
            ++ actions_of self.old.params.format (leave_asked self.old.params 0 self.old.node now self.old.members) }
        ensures kept { self.new ≡ self.old }
        ensures few { length out.new.items ≤ length out.old.items + 1 }
        ensures room { out.new.room ≡ out.old.room }
    {
        if self.members.has(self.node) {
            let cycle = cycle_of(&self.params, now);
            out.push(Action::Ask(ask_frame(Class::Leave, cycle, self.node)));
        }
    }

    /// The members that have not failed and do not leave, and those that join.
    fn offered(&self, failed: NodeSet) -> NodeSet
        ensures nodes { result ≡ plus (minus (minus self.now.members failed) self.now.leavers) self.now.joiners }
        ensures below { AllBelow self.now.params.nodes result }
    {
        let stay = self.members.minus(failed).minus(self.leavers);
        stay.plus(self.joiners)
    }

    /// The node that the frame names asks to join the view, if it is outside.
    fn hear_join(&mut self, frame: &Frame)
        requires { frame.now.node < self.old.params.nodes }
        ensures { self.new ≡ heard_join frame.now.node self.old }
    {
        if !self.members.has(frame.node) {
            self.joiners.insert(frame.node);
        }
    }

    /// The node that the frame names asks to leave the view, if it is a member.
    fn hear_leave(&mut self, frame: &Frame)
        requires { frame.now.node < self.old.params.nodes }
        ensures { self.new ≡ heard_leave frame.now.node self.old }
    {
        if self.members.has(frame.node) {
            self.leavers.insert(frame.node);
        }
    }

    /// The vector becomes the view. A node in it asks no longer to join, and one that is not in it
    /// no longer to leave.
    fn become_view(&mut self, vector: NodeSet)
        requires { AllBelow self.old.params.nodes vector }
        ensures { self.new ≡ installed vector self.old }
    {
        self.members = vector;
        self.joiners = self.joiners.minus(vector);
        self.leavers = self.leavers.meet(vector);
    }

    /// A node of the view enters it and withdraws its asks to join, another node withdraws its asks
    /// to leave, whatever their cycle.
    fn act_on_view(&self, vector: NodeSet, now: Slot, out: &mut Actions)
        requires now { now < self.now.params.slots }
        requires room { length out.old.items + 1 + length self.now.joins + length self.now.leaves ≤ out.old.room }
        ensures actions { out.new.items ≡ out.old.items ++ installed_actions now (cycle_of self.now.params now) vector self.now }
        ensures few { length out.new.items ≤ length out.old.items + 1 + length self.now.joins + length self.now.leaves }
        ensures room { out.new.room ≡ out.old.room }
    {
        if vector.has(self.node) {
            out.push(Action::Enter(self.entry(vector, now)));
            withdraw_asks(
                self.params.format,
                Class::Join,
                self.node,
                self.joins.as_slice(),
                out,
            );
        } else {
            withdraw_asks(
                self.params.format,
                Class::Leave,
                self.node,
                self.leaves.as_slice(),
                out,
            );
        }
    }

    /// What a node of the view enters. The view has the number of the cycle of the slot.
    fn entry(&self, vector: NodeSet, now: Slot) -> LogEntry
        requires { now < self.now.params.slots }
        ensures { result ≡ View now (cycle_of self.now.params now) vector }
    {
        LogEntry::View {
            slot: now,
            number: cycle_of(&self.params, now),
            members: vector,
        }
    }
}
