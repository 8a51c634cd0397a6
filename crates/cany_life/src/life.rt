ghost use Rattle.std.specs.Prelude.{◌≡◌, ℕ, ◌+◌, ◌*◌, ◌<◌, ◌≤◌, ◌==◌, ◌&&◌, ◌++◌, ◌∷◌, if◌then◌else◌, length, List, false, replicate, slice_index, slice_set, EachIndex, IfOk};
ghost use Rattle.std.specs.List.{flat_map};
ghost use Rattle.can_frame.specs.Identifier.{HasSmallNumbers};
ghost use Rattle.cany_base.specs.declared.class.Class.TheVariants as class;
ghost use Rattle.cany_base.specs.declared.notice.NoticeKind.{NoticeKind};
ghost use Rattle.cany_base.specs.declared.notice.NoticeKind.TheVariants.{Idle};
ghost use Rattle.cany_base.specs.Cycles.{cycle_of};
ghost use Rattle.cany_base.specs.Limits.{most_nodes, most_numbers, most_slots};
ghost use Rattle.cany_base.specs.Nodes.{AllBelow, Nodes, has, nobody};
ghost use Rattle.cany_base.specs.Scenario.{ScenarioParts};
ghost use Rattle.cany_diffuse.specs.Eager.{IsLearnt};
ghost use Rattle.cany_life.specs.Life.{CanRead, HasReadSlot, IsLifeOf, IsNextAt, IsReading, Rests, sign_number};
ghost use Rattle.cany_life.specs.LifeSteps.{CanFind, CanLearn, IsIdleUntil, all_marked, found_actions, found_at, found_below, has_enough_of, has_timed_out_at, heard, is_known, is_watched, known_actions, marked, unknown};
ghost use Rattle.cany_message.specs.Actions.{withdraw_actions};
ghost use Rattle.cany_message.specs.Table.{CanTake};
ghost use Rattle.cany_model.specs.Bus.Frames.{same_class};
ghost use Rattle.cany_model.specs.Rules.Actions.{actions_of};
ghost use Rattle.cany_model.specs.Rules.Life.{els_frame, failures_at, fda_copy_effects, life_sign, failure_sign_effects, life_signs_sent};
ghost use Rattle.cany_model.specs.Rules.Notices.{IsNextNotice};
ghost use Rattle.cany_model.specs.Rules.Knowledge.{Knowledge, after_admitting, after_finding, shows_life, sign_of, knowledge_at_first, told, with_members, with_signs};

use crate::frames::{DiffusedSign, shows_life};
use cany_base::cycle::cycle_of;
use cany_base::{
    Action, Actions, BoundedVec, Class, Format, Frame, LogEntry, Memory, NodeId, NodeSet, Notice,
    NoticeKind, Params, Payload, Scenario, Slot,
};
use cany_diffuse::{Diffused, Eager};
use cany_message::{is_of_class, withdraw};
use std::alloc::Global;
use std::marker::Model;

/// Life signs and failure signs at one node: when each other node last showed life, which nodes
/// have failed, and the signs by which that is known.
///
/// This project's own rule. A member shows life at intervals of `life` slots. A node from which a
/// member has heard no sign of life for `silence` slots has failed there, and so has one of which a
/// failure sign is got. Each sign becomes known once, is entered in the log then, and its frame is
/// spread, with more than `omit` copies no longer. The members are not kept here: each call is
/// given them.
#[derive(Drop)]
pub struct Life {
    node: NodeId,
    params: Params,
    /// The nodes that have failed here.
    failed: NodeSet,
    /// For each membership cycle of the run, the nodes whose sign of that cycle is known.
    known: BoundedVec<NodeSet>,
    /// The copies of the frames of failure signs.
    copies: Eager<DiffusedSign>,
    /// For each node the slot in which it last showed life, 0 before it did.
    shown: [Slot; NodeId::COUNT as usize],
    /// The slot of the node's own last life, 0 before it showed any.
    last: Slot,
    /// How many life signs of its own the node has sent, as it has read.
    sent: u32,
    /// The members among whom silence was last looked for.
    watched: NodeSet,
    /// A slot before which silence finds none of them. It is no part of what the value stands for.
    idle_until: Slot,
}

impl Model for Life {
    ghost use Rattle.cany_life.specs.Life.{LifeParts};
    ghost use Rattle.cany_life.specs.LifeFields.{parts_of};
    ghost use Rattle.cany_life.specs.LifeSteps.{IsIdleUntil};

    ghost Value = { LifeParts };

    ghost view = { parts_of };

    ghost invariant = { λ l. IsIdleUntil l.idle_until l.watched (parts_of l) };
}

impl Life {
    /// The value of a node that has read nothing, or only notices of idle slots, with room for the
    /// signs of all nodes in all cycles.
    ///
    /// Promise: the value stands for each history of idle slots alone, the empty one too, whatever
    /// the members are.
    ///
    /// Shown by: `stopped_node_is_removed`.
    ///
    /// # Errors
    ///
    /// `Memory`: out of memory.
    pub fn build(alloc: Global, node: NodeId, scenario: &Scenario) -> Result<Life, Memory>
        requires { node < scenario.now.params.nodes }
        ensures { IfOk result (λ life. (n : ℕ) (members : Nodes) → IsLifeOf scenario.now node (replicate n Idle) (knowledge_at_first members) life) }
    {
        let params = *scenario.params();
        let cycles = (params.slots / params.cycle) as usize + 1;
        let known = nobody_known(alloc, cycles)?;
        let copies = Eager::build(alloc, params.omit, usize::from(params.nodes) * cycles)?;
        Ok(Life {
            node,
            params,
            failed: NodeSet::empty(),
            known,
            copies,
            shown: [0; NodeId::COUNT as usize],
            last: 0,
            sent: 0,
            watched: NodeSet::empty(),
            idle_until: 0,
        })
    }

    /// What a notice leads to: the life shown in it, the failure sign in it, and then the signs
    /// that silence brings, by ascending node. The notices of the slots before the first that a
    /// value is given count as idle ones.
    ///
    /// At most three actions are appended, and two for each node.
    ///
    /// Promise: whatever history and knowledge the value stands for, and whichever members it is
    /// given, a notice that can come next leads to exactly the actions of the definition
    /// (`failures_at`). The value then stands for the longer history, and for what the node knows
    /// then.
    ///
    /// Shown by: `stopped_node_is_removed`, `a_failed_node_is_found_again`,
    /// `a_sign_by_silence_is_asked_for_again_at_its_copy`,
    /// `silence_comes_before_the_sign_of_the_notice`, `silence_is_one_slot_short`,
    /// `withdrawn_one_copy_early`.
    pub fn on(&mut self, notice: &Notice, members: NodeSet, out: &mut Actions)
        requires reads { CanRead self.old notice.now }
        requires members { AllBelow self.old.params.nodes members }
        requires room { length out.old.items + 2 * self.old.params.nodes + 3 ≤ out.old.room }
        ensures actions { (scenario : ScenarioParts) (past : List NoticeKind) (knowledge : Knowledge) → IsLifeOf scenario self.old.node past knowledge self.old →
            IsNextAt scenario self.old.node past notice.now →
            out.new.items ≡ out.old.items
            ++ actions_of scenario.params.format (failures_at scenario.params self.old.node notice.now.kind past (with_members members knowledge)) }
        ensures stands { (scenario : ScenarioParts) (past : List NoticeKind) (knowledge : Knowledge) → IsLifeOf scenario self.old.node past knowledge self.old →
            IsNextAt scenario self.old.node past notice.now →
            IsLifeOf scenario self.old.node (notice.now.kind ∷ past)
            (after_finding scenario.params self.old.node (length past) notice.now.kind (with_members members knowledge)) self.new }
        ensures node { self.new.node ≡ self.old.node }
        ensures params { self.new.params ≡ self.old.params }
        ensures few { length out.new.items ≤ length out.old.items + 2 * self.old.params.nodes + 3 }
        ensures room { out.new.room ≡ out.old.room }
    {
        self.see(notice);
        self.learn(notice, out);
        self.find(notice.slot, members, out);
    }

    /// Tells that these nodes are newly admitted to the view in the turn of a slot. They have not
    /// failed, and show life from that slot on.
    ///
    /// Promise: the value stands for the same history, and for what the node knows after these were
    /// admitted (`after_admitting`).
    ///
    /// Shown by: `restart_joins`.
    pub fn admit(&mut self, newly: NodeSet, now: Slot)
        requires newly { AllBelow self.old.params.nodes newly }
        requires now { HasReadSlot self.old now }
        ensures stands { (scenario : ScenarioParts) (past : List NoticeKind) (knowledge : Knowledge) → IsLifeOf scenario self.old.node past knowledge self.old →
            IsLifeOf scenario self.old.node past (after_admitting self.old.node now newly knowledge) self.new }
        ensures node { self.new.node ≡ self.old.node }
        ensures params { self.new.params ≡ self.old.params }
    {
        self.failed = self.failed.minus(newly);
        self.idle_until = 0;
        show(&mut self.shown, newly, now);
        if newly.has(self.node) {
            self.last = now;
        }
    }

    /// In the turn of a slot, after its notice: a member asks for its next life sign if it is due.
    ///
    /// At most one action is appended. The frame tells no incarnation: its node does that.
    ///
    /// Promise: whatever history and knowledge the value stands for, the ask for the next life sign
    /// is appended exactly where it is due by the definition (`life_sign`). Its number is that of
    /// the signs sent so far, and the value stays as it is.
    ///
    /// Shown by: `stopped_node_is_removed`, `the_life_sign_is_one_slot_late`.
    pub fn sign(&mut self, now: Slot, members: NodeSet, out: &mut Actions)
        requires members { AllBelow self.old.params.nodes members }
        requires now { HasReadSlot self.old now }
        requires room { length out.old.items < out.old.room }
        ensures actions { (scenario : ScenarioParts) (past : List NoticeKind) (knowledge : Knowledge) → IsLifeOf scenario self.old.node past knowledge self.old →
            out.new.items ≡ out.old.items
            ++ actions_of scenario.params.format (life_sign scenario.params.life 0 self.old.node now (with_members members knowledge) (life_signs_sent self.old.node past)) }
        ensures state { self.new ≡ self.old }
        ensures few { length out.new.items ≤ length out.old.items + 1 }
        ensures room { out.new.room ≡ out.old.room }
    {
        if self.is_due(now, members) {
            out.push(Action::Ask(self.life_sign()));
        }
    }

    /// The first slot from `now` on in which an idle notice may lead to something, where these are
    /// the members then too. Silence may find one of them then, or the node's next life sign is
    /// due. It is `now` where silence was not looked for among just these members yet.
    ///
    /// Promise: whatever history and knowledge the value stands for, with these members, an idle
    /// notice of a slot from `now` on and before the answer leads to nothing. The value stands as
    /// it is for the longer history too.
    ///
    /// Shown by: `the_node_rests_in_the_slot_of_its_life_sign`.
    pub fn wake(&self, members: NodeSet, now: Slot) -> Slot
        ensures rests { (scenario : ScenarioParts) (past : List NoticeKind) (knowledge : Knowledge) → IsLifeOf scenario self.now.node past knowledge self.now →
            now ≤ length past → length past < result → length past < scenario.params.slots →
            Rests scenario self.now.node past (with_members members knowledge) self.now }
    {
        let silent = self.next_silent(members, now);
        let due = self.next_due(members, now);
        silent.min(due)
    }

    /// The nodes that have failed here.
    ///
    /// Promise: the nodes that have failed by the definition, whatever history and knowledge the
    /// value stands for.
    ///
    /// Shown by: `stopped_node_is_removed`.
    pub fn failed(&self) -> NodeSet
        ensures failed { result ≡ self.now.failed }
        ensures exact { (scenario : ScenarioParts) (past : List NoticeKind) (knowledge : Knowledge) → IsLifeOf scenario self.now.node past knowledge self.now →
            (r : ℕ) → has result r ≡ has knowledge.failed r }
    {
        self.failed
    }

    /// Notes the life that a notice shows: that of another node, or the node's own, whose life
    /// signs are counted. It is all that `on` does at a notice that tells no more, where silence
    /// finds nobody.
    ///
    /// Promise: the value is that of the definition after the notice (`heard`), and nothing else is
    /// done.
    ///
    /// Shown by: `stopped_node_is_removed`, `a_confirmation_shows_life`.
    #[tactic(auto, unfolding(crate::specs::LifeSteps::heard))]
    pub fn see(&mut self, notice: &Notice)
        requires { self.old.sent < most_slots }
        ensures { self.new ≡ heard notice.now.slot notice.now.kind self.old }
    {
        match &notice.kind {
            NoticeKind::Got(frame) => {
                if shows_life(frame) {
                    self.hear_other(notice.slot, frame.node);
                }
            }
            NoticeKind::Sent(frame) => {
                if frame.node.get() == self.node.get() {
                    self.hear_own(notice.slot, frame);
                }
            }
            NoticeKind::Idle => {}
            NoticeKind::Bad => {}
        }
    }

    /// Another node shows life.
    fn hear_other(&mut self, slot: Slot, node: NodeId)
        ensures { self.new ≡ record self.old { shown = slice_set self.old.shown node slot } }
    {
        self.shown[usize::from(node.get())] = slot;
        self.idle_until = self
            .idle_until
            .min(slot.saturating_add(self.params.silence));
    }

    /// The node reads its own transmission of a frame of its own.
    fn hear_own(&mut self, slot: Slot, frame: &Frame)
        requires { self.old.sent < most_slots }
        ensures { self.new ≡ record self.old {
          last = if shows_life frame.now then slot else self.old.last;
          sent = self.old.sent + (if same_class frame.now.class class.Els then 1 else 0);
        } }
    {
        if shows_life(frame) {
            self.last = slot;
        }
        if is_of_class(frame, Class::Els) {
            self.sent += 1;
        }
    }

    /// The failure sign in a notice becomes known, and its copy counts.
    fn learn(&mut self, notice: &Notice, out: &mut Actions)
        requires learns { CanLearn self.old notice.now }
        requires room { length out.old.items + 3 ≤ out.old.room }
        ensures stands { (scenario : ScenarioParts) (past : List NoticeKind) (knowledge : Knowledge)
            → IsReading scenario self.old.node past (notice.now.kind ∷ past) knowledge self.old → IsNextNotice scenario past notice.now
            → IsReading scenario self.old.node (notice.now.kind ∷ past) (notice.now.kind ∷ past) (with_signs (told notice.now.kind knowledge) knowledge) self.new }
        ensures actions { (scenario : ScenarioParts) (past : List NoticeKind) (knowledge : Knowledge)
            → IsReading scenario self.old.node past (notice.now.kind ∷ past) knowledge self.old → IsNextNotice scenario past notice.now
            → out.new.items ≡ out.old.items ++ actions_of scenario.params.format
            (flat_map (failure_sign_effects scenario.params.omit (length past) (notice.now.kind ∷ past)) (told notice.now.kind knowledge)
            ++ fda_copy_effects scenario.params.omit notice.now.kind (notice.now.kind ∷ past)) }
        ensures node { self.new.node ≡ self.old.node }
        ensures params { self.new.params ≡ self.old.params }
        ensures few { length out.new.items ≤ length out.old.items + 3 }
        ensures room { out.new.room ≡ out.old.room }
    {
        match &notice.kind {
            NoticeKind::Got(frame) => {
                if is_of_class(frame, Class::Fda) {
                    self.on_copy(notice.slot, frame, out);
                }
            }
            NoticeKind::Sent(_) => {}
            NoticeKind::Idle => {}
            NoticeKind::Bad => {}
        }
    }

    /// A copy of the frame of a failure sign: the sign becomes known, and with enough copies the
    /// frame is withdrawn.
    fn on_copy(&mut self, slot: Slot, frame: &Frame, out: &mut Actions)
        requires small { HasSmallNumbers self.old.params.format frame.now }
        requires takes { CanTake (sign_number (sign_of frame.now)) self.old.copies }
        requires omit { self.old.copies.omit ≡ self.old.params.omit }
        requires cycle { frame.now.number < length self.old.known }
        requires room { length out.old.items + 3 ≤ out.old.room }
        ensures learnt { IsLearnt (sign_number (sign_of frame.now)) self.old.copies self.new.copies }
        ensures state { self.new ≡ all_marked (unknown (sign_of frame.now) self.old) (record self.old { copies = self.new.copies }) }
        ensures actions { let is_enough = has_enough_of self.new (sign_of frame.now) in
            out.new.items ≡ (out.old.items ++ known_actions slot is_enough (unknown (sign_of frame.now) self.old)) ++ withdraw_actions self.old.params.format is_enough frame.now }
        ensures few { length out.new.items ≤ length out.old.items + 3 }
        ensures room { out.new.room ≡ out.old.room }
    {
        let format = self.format();
        let sign = DiffusedSign::of(frame);
        let is_enough = self.count(sign);
        self.know(slot, sign, is_enough, out);
        withdraw(format, frame, is_enough, out);
    }

    /// Counts a copy of the frame of a sign. Whether there are enough then.
    fn count(&mut self, sign: DiffusedSign) -> bool
        requires takes { CanTake (sign_number sign) self.old.copies }
        requires omit { self.old.copies.omit ≡ self.old.params.omit }
        ensures learnt { IsLearnt (sign_number sign) self.old.copies self.new.copies }
        ensures state { self.new ≡ record self.old { copies = self.new.copies } }
        ensures enough { result ≡ has_enough_of self.new sign }
    {
        // Read for what it ensures: that the node is in range.
        let _node = sign.node.get();
        // Called for what it ensures: no sign is there twice, so there is room for this one.
        let _copies = self.copies.copies(&sign);
        self.copies.learn(sign).is_enough()
    }

    /// The signs that silence brings, by ascending node. In most slots it is known that there are
    /// none.
    fn find(&mut self, slot: Slot, members: NodeSet, out: &mut Actions)
        requires finds { CanFind self.old slot }
        requires silence { 0 < self.old.params.silence }
        requires room { length out.old.items + 2 * self.old.params.nodes ≤ out.old.room }
        ensures state { self.new ≡ all_marked (found_below self.old members slot self.old.params.nodes) self.old }
        ensures actions { out.new.items ≡ out.old.items ++ found_actions self.old slot (found_below self.old members slot self.old.params.nodes) }
        ensures few { length out.new.items ≤ length out.old.items + 2 * self.old.params.nodes }
        ensures room { out.new.room ≡ out.old.room }
    {
        if self.next_silent(members, slot) <= slot {
            self.find_among(slot, members, out);
            self.watch(members);
        }
    }

    /// The signs that silence brings, as the nodes are looked at one after another.
    fn find_among(&mut self, slot: Slot, members: NodeSet, out: &mut Actions)
        requires finds { CanFind self.old slot }
        requires room { length out.old.items + 2 * self.old.params.nodes ≤ out.old.room }
        ensures state { self.new ≡ all_marked (found_below self.old members slot self.old.params.nodes) self.old }
        ensures actions { out.new.items ≡ out.old.items ++ found_actions self.old slot (found_below self.old members slot self.old.params.nodes) }
        ensures few { length out.new.items ≤ length out.old.items + 2 * self.old.params.nodes }
        ensures room { out.new.room ≡ out.old.room }
    {
        for n in 0..usize::from(self.params.nodes) {
            self.find_node(slot, NodeId::of_index(n), members, out);
        }
    }

    /// The sign of a node that is silent becomes known.
    #[tactic(auto, unfolding(crate::specs::LifeSteps::all_marked))]
    fn find_node(&mut self, slot: Slot, node: NodeId, members: NodeSet, out: &mut Actions)
        requires cycle { 0 < self.old.params.cycle }
        requires number { cycle_of self.old.params slot < most_numbers }
        requires known { cycle_of self.old.params slot < length self.old.known }
        requires room { length out.old.items + 2 ≤ out.old.room }
        ensures state { self.new ≡ all_marked (found_at self.old members slot node) self.old }
        ensures actions { out.new.items ≡ out.old.items ++ found_actions self.old slot (found_at self.old members slot node) }
        ensures few { length out.new.items ≤ length out.old.items + 2 }
        ensures room { out.new.room ≡ out.old.room }
    {
        if self.has_timed_out(slot, node, members) {
            let cycle = cycle_of(&self.params, slot);
            let sign = DiffusedSign { node, cycle };
            let is_enough = self.has_enough(&sign);
            self.know(slot, sign, is_enough, out);
        }
    }

    /// Whether a node, one of these members, has shown no life for as many slots as the silence
    /// has.
    fn has_timed_out(&self, slot: Slot, node: NodeId, members: NodeSet) -> bool
        ensures { result ≡ has_timed_out_at self.now members slot node }
    {
        self.is_watched(node, members)
            && slot.saturating_sub(self.shown[usize::from(node.get())]) >= self.params.silence
    }

    /// Whether silence can find a node, one of these members: it is another one that has not failed
    /// here.
    fn is_watched(&self, node: NodeId, members: NodeSet) -> bool
        ensures { result ≡ is_watched self.now members node }
    {
        members.has(node) && node.get() != self.node.get() && !self.failed.has(node)
    }

    /// From now on it is known when silence can next find one of these members.
    fn watch(&mut self, members: NodeSet)
        ensures { self.new ≡ self.old }
    {
        let idle_until = self.until_silence(members);
        self.watched = members;
        self.idle_until = idle_until;
    }

    /// The first slot in which silence can find one of these members, `Slot::MAX` where it can find
    /// none.
    fn until_silence(&self, members: NodeSet) -> Slot
        ensures { IsIdleUntil result members self.now }
    {
        let mut idle_until = Slot::MAX;
        for n in 0..usize::from(NodeId::COUNT) {
            let node = NodeId::of_index(n);
            if self.is_watched(node, members) {
                idle_until = idle_until.min(self.shown[n].saturating_add(self.params.silence));
            }
        }
        idle_until
    }

    /// The first slot from `now` on in which silence may find one of these members: `now` where
    /// that is not known.
    fn next_silent(&self, members: NodeSet, now: Slot) -> Slot
        ensures { (slot : ℕ) → now ≤ slot → slot < result → IsIdleUntil (slot + 1) members self.now }
    {
        if self.watched == members {
            self.idle_until
        } else {
            now
        }
    }

    /// The first slot from `now` on in which the node's next life sign is due, `Slot::MAX` where it
    /// is in none.
    fn next_due(&self, members: NodeSet, now: Slot) -> Slot
        ensures { (slot : ℕ) → now ≤ slot → slot < result → (has members self.now.node && slot == self.now.last + self.now.params.life) ≡ false }
    {
        let due = self.last.saturating_add(self.params.life);
        if members.has(self.node) && due >= now {
            due
        } else {
            Slot::MAX
        }
    }

    /// A sign becomes known, unless it is: it is entered, and its frame is asked for, unless there
    /// are enough copies of it.
    #[tactic(auto, unfolding(crate::specs::LifeSteps::all_marked))]
    fn know(&mut self, slot: Slot, sign: DiffusedSign, is_enough: bool, out: &mut Actions)
        requires cycle { sign.cycle < length self.old.known }
        requires room { length out.old.items + 2 ≤ out.old.room }
        ensures state { self.new ≡ all_marked (unknown sign self.old) self.old }
        ensures actions { out.new.items ≡ out.old.items ++ known_actions slot is_enough (unknown sign self.old) }
        ensures few { length out.new.items ≤ length out.old.items + 2 }
        ensures room { out.new.room ≡ out.old.room }
    {
        if self.is_known(&sign) {
            return;
        }
        self.mark(&sign);
        out.push(Action::Enter(LogEntry::Failed {
            slot,
            node: sign.node,
            cycle: sign.cycle,
        }));
        if !is_enough {
            out.push(Action::Ask(sign.form()));
        }
    }

    /// The sign is known from now on, and its node has failed here.
    #[tactic(auto, unfolding(crate::specs::LifeSteps::marked))]
    fn mark(&mut self, sign: &DiffusedSign)
        requires { sign.now.cycle < length self.old.known }
        ensures { self.new ≡ marked sign.now self.old }
    {
        let cycle = usize::from(sign.cycle);
        let mut known = self.known.get(cycle);
        known.insert(sign.node);
        self.known.set(cycle, known);
        self.failed.insert(sign.node);
    }

    fn is_known(&self, sign: &DiffusedSign) -> bool
        requires { sign.now.cycle < length self.now.known }
        ensures { result ≡ is_known sign.now self.now }
    {
        self.known.get(usize::from(sign.cycle)).has(sign.node)
    }

    /// Whether there are more copies of the frame of a sign than there may be omissions.
    fn has_enough(&self, sign: &DiffusedSign) -> bool
        ensures { result ≡ has_enough_of self.now sign.now }
    {
        // Read for what it ensures: that the node is in range.
        let _node = sign.node.get();
        self.copies.copies(sign) > self.params.omit
    }

    /// The format in which a withdrawal names its frame.
    fn format(&self) -> Format
        ensures { result ≡ self.now.params.format }
    {
        self.params.format
    }

    /// Whether the node is one of these members, and its own last life lies just the life interval
    /// back.
    fn is_due(&self, now: Slot, members: NodeSet) -> bool
        ensures { result ≡ (has members self.now.node && now == self.now.last + self.now.params.life) }
    {
        let life = self.params.life;
        members.has(self.node) && now >= life && now - life == self.last
    }

    /// The frame of the node's next life sign.
    fn life_sign(&self) -> Frame
        requires { self.now.sent < most_numbers }
        ensures { result ≡ els_frame 0 self.now.node self.now.sent }
    {
        Frame {
            class: Class::Els,
            number: self.sent as u16,
            node: self.node,
            inc: 0,
            payload: Payload::empty(),
        }
    }
}

/// A list of empty sets of nodes, one for each cycle.
fn nobody_known(alloc: Global, cycles: usize) -> Result<BoundedVec<NodeSet>, Memory>
    ensures { IfOk result (λ known. known.items ≡ replicate cycles nobody) }
{
    let mut known = BoundedVec::build(alloc, cycles)?;
    for _ in 0..cycles {
        known.push(NodeSet::empty());
    }
    Ok(known)
}

/// These nodes show life in the slot.
fn show(shown: &mut [Slot], nodes: NodeSet, slot: Slot)
    requires { length shown.old ≤ most_nodes }
    ensures { EachIndex shown.new (λ r. slice_index shown.new r ≡ (if has nodes r then slot else slice_index shown.old r)) }
{
    for (i, last) in shown.iter_mut().enumerate() {
        if nodes.has(NodeId::of_index(i)) {
            *last = slot;
        }
    }
}
