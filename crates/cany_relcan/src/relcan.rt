ghost use Rattle.std.specs.Prelude.{◌≡◌, ◌≢◌, ℕ, ◌+◌, ◌-◌, ◌<◌, ◌≤◌, ◌==◌, ◌&&◌, false, true, [], ◌∷◌, ◌++◌, min, not, length, IsTrue, List, replicate, Contains, Some, IfSome, IfOk};
ghost use Rattle.std.specs.List.{AllByRecursion};
ghost use Rattle.can_frame.specs.Identifier.{HasSmallNumbers};
ghost use Rattle.cany_base.specs.declared.actions.Action.TheVariants as action;
ghost use Rattle.cany_base.specs.declared.class.Class.TheVariants as class;
ghost use Rattle.cany_base.specs.declared.message.Service.TheVariants as service;
ghost use Rattle.cany_base.specs.declared.notice.NoticeKind.{NoticeKind};
ghost use Rattle.cany_base.specs.declared.notice.NoticeKind.TheVariants.{Idle};
ghost use Rattle.cany_base.specs.Frame.{FrameParts};
ghost use Rattle.cany_base.specs.Limits.{greatest_default, most_nodes};
ghost use Rattle.cany_base.specs.Scenario.{ScenarioParts};
ghost use Rattle.cany_diffuse.specs.Eager.{copies_of, is_held, is_owned, is_enough, is_there, learnt_of, spare_of, IsCounted, IsFresh, IsLearnt, IsOwned};
ghost use Rattle.cany_message.specs.declared.calls.Reply.TheVariants as reply;
ghost use Rattle.cany_message.specs.Actions.{withdraw_actions};
ghost use Rattle.cany_message.specs.Calls.{actions_called, replied};
ghost use Rattle.cany_message.specs.Numbers.{frame_number};
ghost use Rattle.cany_message.specs.Table.{CanTake};
ghost use Rattle.cany_model.specs.Rules.Actions.{actions_of};
ghost use Rattle.cany_model.specs.Bus.Frames.{same_class};
ghost use Rattle.cany_model.specs.Rules.Messages.{Message, messages_of, message_key};
ghost use Rattle.cany_model.specs.Rules.Notices.{IsNextNotice};
ghost use Rattle.cany_model.specs.Rules.Relcan.{has_timer_ahead, relcan_at, relcan_effects};
ghost use Rattle.cany_relcan.specs.Relcan.{IsRelcanOf, HasRead, CanRead, Rests, brings_no_relcan};
ghost use Rattle.cany_relcan.specs.RelcanSteps.{due_frame, holds_own, is_awaited, is_confirmed, is_fallen, starts_timer, timer_actions, timers_with, was_delivered, without_due, AreMarksAfter};

use crate::frames::{Confirmation, Data, confirmation_of};
use crate::timers::{Timer, Timers};
use cany_base::{
    Action, Actions, Class, Format, Frame, Memory, MsgKey, NodeId, Notice, NoticeKind, Payload,
    Scenario, Service, Slot,
};
use cany_diffuse::{Diffused, Eager, Learnt};
use cany_message::{Calls, Reply, identifier_without_incarnation, is_of_class, put, sends_by};
use std::alloc::Global;
use std::marker::Model;

/// RELCAN at one node: which messages it delivered, which confirmations it read, the timers that
/// run, and for which messages it fell back.
///
/// This project's own rule. A node delivers a message at its first copy of the data frame, or at
/// its own transmission if it is the origin, which then asks for the confirmation. At every other
/// node the first copy starts a timer of `confirm` slots. If no confirmation was read when it runs
/// out, the node falls back: it asks for the data frame itself unless it has more than `omit`
/// copies, and withdraws it once it has.
#[derive(Drop)]
pub struct Relcan {
    node: NodeId,
    /// The scenario's, in which a withdrawal names its frame.
    format: Format,
    confirm: u64,
    copies: Eager<Data>,
    confirms: Eager<Confirmation>,
    timers: Timers,
    /// The messages for which the node fell back.
    fallen: Eager<Data>,
}

/// The tables of what a node read, as they are built.
///
/// They are built apart from the rest: that a value is dropped where there is no memory for the
/// next is proved part by part at each such place.
#[derive(Drop)]
struct Tables {
    copies: Eager<Data>,
    confirms: Eager<Confirmation>,
}

impl Model for Relcan {
    ghost use Rattle.cany_relcan.specs.Relcan.{RelcanParts};

    ghost Value = { RelcanParts };

    ghost view = { λ r. record { node = r.node; format = r.format; confirm = r.confirm; copies = r.copies; confirms = r.confirms; timers = r.timers; fallen = r.fallen } };
}

impl Relcan {
    /// The RELCAN of a node that has read nothing, or only notices of idle slots, with room for all
    /// messages of the scenario that are by RELCAN.
    ///
    /// Promise: the value stands for each history of idle slots alone, the empty one too.
    ///
    /// Shown by: `relcan_falls_back`.
    ///
    /// # Errors
    ///
    /// `Memory`: out of memory.
    pub fn build(alloc: Global, node: NodeId, scenario: &Scenario) -> Result<Relcan, Memory>
        requires { node < scenario.now.params.nodes }
        ensures { IfOk result (λ relcan. (n : ℕ) → IsRelcanOf scenario.now node (replicate n Idle) relcan) }
    {
        let params = *scenario.params();
        let room = sends_by(scenario, Service::Rel);
        let timers = Timers::build(alloc, timers_at_once(room, params.confirm))?;
        let fallen = Eager::build(alloc, params.omit, room)?;
        let tables = build_tables(alloc, params.omit, room)?;
        Ok(Relcan {
            node,
            format: params.format,
            confirm: params.confirm,
            copies: tables.copies,
            confirms: tables.confirms,
            timers,
            fallen,
        })
    }

    /// The node, which is the origin, sends the message: it asks for its data frame.
    ///
    /// Promise: the ask for the data frame of this message is appended, and nothing else changes.
    ///
    /// Shown by: `relcan_falls_back`, `confirm_before_sent`.
    pub fn send(&mut self, msg: MsgKey, payload: Payload, out: &mut Actions)
        requires { length out.old.items < out.old.room }
        ensures state { self.new ≡ self.old }
        ensures asks { let f : FrameParts = record { class = class.Rel; number = msg.seq; node = msg.origin; inc = 0; payload = payload } in
            out.new ≡ record out.old { items = out.old.items ++ action.Ask f ∷ [] } }
    {
        let data = Data::new(msg, payload);
        out.push(Action::Ask(data.form()));
    }

    /// What RELCAN does at a notice, and when the timer runs out that is due in its slot, appended
    /// to the actions. The notices of the slots before the first that a value is given count as
    /// idle ones.
    ///
    /// At most three actions are appended.
    ///
    /// Promise: whatever history the value stands for, and whichever notice can come next, exactly
    /// the actions of the definition are appended (`relcan_effects`). The value then stands for the
    /// longer history.
    ///
    /// Shown by: `stopped_node_is_removed`, `a_confirmation_is_ignored`,
    /// `a_late_copy_is_not_withdrawn`, `a_relay_confirms`, `asked_for_with_enough_copies`,
    /// `relcan_never_falls_back`, `the_origin_keeps_a_timer`.
    pub fn on(&mut self, notice: &Notice, out: &mut Actions)
        requires reads { CanRead self.old notice.now }
        requires room { length out.old.items + 3 ≤ out.old.room }
        ensures actions { (scenario : ScenarioParts) (past : List NoticeKind) → IsRelcanOf scenario self.old.node past self.old → IsNextNotice scenario past notice.now
            → out.new.items ≡ out.old.items ++ actions_of scenario.params.format (relcan_effects scenario self.old.node (notice.now.kind ∷ past)) }
        ensures stands { (scenario : ScenarioParts) (past : List NoticeKind) → IsRelcanOf scenario self.old.node past self.old → IsNextNotice scenario past notice.now
            → IsRelcanOf scenario self.old.node (notice.now.kind ∷ past) self.new }
        ensures few { length out.new.items ≤ length out.old.items + 3 }
        ensures room { out.new.room ≡ out.old.room }
    {
        let calls = self.on_notice(notice);
        put(Service::Rel, &calls, notice, out);
        self.end_timer(notice.slot, out);
    }

    /// What RELCAN does at a notice, for a list in which there is no action. What the notice calls
    /// for is the answer. Only what a timer calls for that runs out, which comes after it, is
    /// appended.
    ///
    /// Promise: whatever history the value stands for, and whichever notice can come next, the
    /// actions of the answer, and after them those appended, are exactly those of the definition
    /// (`relcan_effects`). The value then stands for the longer history.
    ///
    /// Shown by: `relcan_falls_back`, `a_confirmation_is_ignored`, `a_late_copy_is_not_withdrawn`,
    /// `a_relay_confirms`, `asked_for_with_enough_copies`, `relcan_never_falls_back`,
    /// `the_origin_keeps_a_timer`.
    // Hints, here and below: a node makes most of these calls in one place, and at most notices
    // RELCAN has nothing to do, which is then seen without a call.
    #[inline(always)]
    pub fn hear(&mut self, notice: &Notice, out: &mut Actions) -> Calls
        requires reads { CanRead self.old notice.now }
        requires free { out.old.items ≡ [] }
        requires room { length out.old.items < out.old.room }
        ensures actions { (scenario : ScenarioParts) (past : List NoticeKind) → IsRelcanOf scenario self.old.node past self.old → IsNextNotice scenario past notice.now
            → actions_called service.Rel notice.now result ++ out.new.items ≡ actions_of scenario.params.format (relcan_effects scenario self.old.node (notice.now.kind ∷ past)) }
        ensures stands { (scenario : ScenarioParts) (past : List NoticeKind) → IsRelcanOf scenario self.old.node past self.old → IsNextNotice scenario past notice.now
            → IsRelcanOf scenario self.old.node (notice.now.kind ∷ past) self.new }
        ensures room { out.new.room ≡ out.old.room }
    {
        let calls = self.on_notice(notice);
        self.end_timer(notice.slot, out);
        calls
    }

    /// Whether a timer of the message lies ahead at this node: it runs, and no confirmation was
    /// read.
    ///
    /// Promise: whatever history the value stands for, whether the definition says of this message
    /// of the scenario that a timer of it is ahead (`has_timer_ahead`).
    ///
    /// Answers: `true` exactly where that is so, and `false` for a key that no message of the
    /// scenario has.
    ///
    /// Shown by: `relcan_falls_back`.
    pub fn ahead(&self, msg: MsgKey) -> bool
        ensures message { (scenario : ScenarioParts) (past : List NoticeKind) (m : Message) → IsRelcanOf scenario self.now.node past self.now
            → Contains (messages_of scenario.sends) m → message_key m ≡ msg → result ≡ has_timer_ahead scenario m self.now.node past }
        ensures no_message { (scenario : ScenarioParts) (past : List NoticeKind) → IsRelcanOf scenario self.now.node past self.now
            → ((m : Message) → Contains (messages_of scenario.sends) m → message_key m ≢ msg) → result ≡ false }
    {
        // Where no timer runs none lies ahead. This is asked first, since it takes less than to
        // look up what is noted.
        if self.timers.are_none() {
            return false;
        }
        self.is_awaited(&msg)
    }

    /// Whether no timer runs at this node, so that none of any message lies ahead.
    ///
    /// Promise: whatever history the value stands for, after the answer `true` no timer of any
    /// message of the scenario is ahead.
    ///
    /// Answers: `true` only where no timer of any message is ahead. No clause says when it comes.
    ///
    /// Shown by: `relcan_timer_is_ahead`.
    pub fn has_nothing_ahead(&self) -> bool
        ensures { result ≡ true → (scenario : ScenarioParts) (past : List NoticeKind) (m : Message) → IsRelcanOf scenario self.now.node past self.now
            → Contains (messages_of scenario.sends) m → has_timer_ahead scenario m self.now.node past ≡ false }
    {
        self.timers.are_none()
    }

    /// The slot in whose turn the oldest timer that runs is due, and `Slot::MAX` where none runs.
    /// Until then RELCAN has nothing to do but for its frames.
    ///
    /// Promise: whatever history the value stands for, a notice of a slot before the answer that
    /// brings no frame of RELCAN leads to nothing. The value stands as it is for the longer history
    /// too.
    ///
    /// Shown by: `wakes_one_slot_late`.
    pub fn wake(&self) -> Slot
        ensures rests { (scenario : ScenarioParts) (past : List NoticeKind) (notice : NoticeKind) → IsRelcanOf scenario self.now.node past self.now → length past < result
            → brings_no_relcan notice ≡ true → Rests scenario self.now.node notice past self.now }
    {
        self.timers.oldest().saturating_add(self.confirm)
    }

    /// What a notice calls for, whatever timers are due.
    #[inline(always)]
    fn on_notice(&mut self, notice: &Notice) -> Calls
        requires { CanRead self.old notice.now }
        ensures actions { (scenario : ScenarioParts) (past : List NoticeKind) → IsRelcanOf scenario self.old.node past self.old → IsNextNotice scenario past notice.now
            → actions_called service.Rel notice.now result ≡ actions_of scenario.params.format (relcan_at scenario.params self.old.node notice.now.kind past) }
        ensures stands { (scenario : ScenarioParts) (past : List NoticeKind) → IsRelcanOf scenario self.old.node past self.old → IsNextNotice scenario past notice.now
            → HasRead scenario self.old.node notice.now.kind past self.new }
        ensures node { self.new.node ≡ self.old.node }
    {
        match &notice.kind {
            NoticeKind::Got(frame) => {
                if is_of_class(frame, Class::Rel) {
                    self.on_copy(notice.slot, frame)
                } else if is_of_class(frame, Class::Confirm) {
                    self.on_confirmation(frame);
                    Calls::NOTHING
                } else {
                    Calls::NOTHING
                }
            }
            NoticeKind::Sent(frame) => {
                if self.is_own(frame) {
                    self.on_own(frame)
                } else {
                    Calls::NOTHING
                }
            }
            NoticeKind::Idle => Calls::NOTHING,
            NoticeKind::Bad => Calls::NOTHING,
        }
    }

    /// A copy of a data frame: the message is delivered if it was not before, and at a node other
    /// than its origin the first copy starts the timer. With enough copies the frame is withdrawn
    /// if the node fell back.
    #[inline(always)]
    fn on_copy(&mut self, slot: Slot, frame: &Frame) -> Calls
        requires small { HasSmallNumbers self.old.format frame.now }
        requires takes { CanTake (frame_number frame.now) self.old.copies }
        requires there { is_there self.old.copies (frame_number frame.now) ≡ is_held self.old.copies (frame_number frame.now) }
        requires own { frame.now.node < most_nodes → (frame.now.node == self.old.node) ≡ false → is_owned self.old.copies (frame_number frame.now) ≡ false }
        requires timers { 0 < spare_of self.old.copies → length self.old.timers.running < self.old.timers.room }
        requires later { AllByRecursion (λ t. t.first < slot) self.old.timers.running }
        ensures learnt { IsLearnt (frame_number frame.now) self.old.copies self.new.copies }
        ensures in_range { frame.now.node < most_nodes }
        ensures state { self.new ≡ record self.old { copies = self.new.copies; timers = timers_with (starts_timer self.old frame.now) slot frame.now self.old.timers } }
        ensures delivers { result.delivers ≡ not (was_delivered self.old frame.now) }
        ensures reply { let learnt = learnt_of self.old.copies.omit (copies_of self.new.copies (frame_number frame.now)) (is_owned self.old.copies (frame_number frame.now)) in
            replied result.reply frame.now ≡ withdraw_actions self.old.format (is_enough learnt && is_fallen self.old frame.now) frame.now }
    {
        let was_held = self.holds_own(frame);
        let learnt = self.copies.learn(Data::of(frame));
        let is_first = learnt.is_first_copy() && !was_held;
        self.start_timer(slot, frame, is_first);
        let is_late = self.is_late(&learnt, frame);
        Calls {
            delivers: is_first,
            reply: reply_to_copy(self.format, frame, is_late),
        }
    }

    /// The first copy of a message of another node starts its timer.
    fn start_timer(&mut self, slot: Slot, frame: &Frame, is_first: bool)
        requires room { IsTrue (is_first && not (frame.now.node == self.old.node)) → length self.old.timers.running < self.old.timers.room }
        requires later { AllByRecursion (λ t. t.first < slot) self.old.timers.running }
        ensures { self.new ≡ record self.old { timers = timers_with (is_first && not (frame.now.node == self.old.node)) slot frame.now self.old.timers } }
    {
        if is_first && frame.node.get() != self.node.get() {
            self.timers.start(Timer {
                frame: *frame,
                first: slot,
            });
        }
    }

    /// Whether there are enough copies of a frame for which the node fell back.
    fn is_late(&self, learnt: &Learnt, frame: &Frame) -> bool
        ensures { result ≡ (is_enough learnt.now && is_fallen self.now frame.now) }
    {
        learnt.is_enough() && self.is_fallen(frame)
    }

    /// The confirmation of a message is read.
    #[inline(never)]
    fn on_confirmation(&mut self, frame: &Frame)
        requires { CanTake (frame_number frame.now) self.old.confirms }
        ensures learnt { IsLearnt (frame_number frame.now) self.old.confirms self.new.confirms }
        ensures in_range { frame.now.node < most_nodes }
        ensures state { self.new ≡ record self.old { confirms = self.new.confirms } }
    {
        let confirmation = confirmation_of(Data::of(frame).msg);
        // Called for what it ensures: no key is there twice, so there is room for this one.
        let _spare = self.confirms.spare();
        // Confirmations are not relayed, so what this copy calls for is not done.
        let _ = self.confirms.learn(confirmation);
    }

    /// The origin reads its own transmission of the data frame: it delivers the message if it did
    /// not before, and asks for the confirmation.
    fn on_own(&mut self, frame: &Frame) -> Calls
        requires takes { CanTake (frame_number frame.now) self.old.copies }
        ensures owned { IsOwned (frame_number frame.now) self.old.copies self.new.copies }
        ensures in_range { frame.now.node < most_nodes }
        ensures state { self.new ≡ record self.old { copies = self.new.copies } }
        ensures delivers { result.delivers ≡ not (was_delivered self.old frame.now) }
        ensures reply { result.reply ≡ reply.Confirms }
    {
        let data = Data::of(frame);
        let delivers = !self.copies.holds(&data);
        self.copies.own(data);
        Calls {
            delivers,
            reply: Reply::Confirms,
        }
    }

    /// The timer ends that is due in the turn of a slot, if one is.
    #[inline(always)]
    fn end_timer(&mut self, slot: Slot, out: &mut Actions)
        requires takes { IfSome (due_frame slot self.old) (λ f. CanTake (frame_number f) self.old.fallen) }
        requires room { length out.old.items < out.old.room }
        ensures state { self.new ≡ record (without_due slot self.old) { fallen = self.new.fallen } }
        ensures marks { AreMarksAfter (due_frame slot self.old) self.old.confirms self.old.fallen self.new.fallen }
        ensures actions { out.new.items ≡ out.old.items ++ timer_actions (due_frame slot self.old) self.old }
        ensures in_range { IfSome (due_frame slot self.old) (λ f. f.node < most_nodes) }
        ensures few { length out.new.items ≤ length out.old.items + 1 }
        ensures room { out.new.room ≡ out.old.room }
    {
        if slot < self.confirm {
            return;
        }
        match self.timers.end_of(slot - self.confirm) {
            Some(frame) => self.fall_back(&frame, out),
            None => {}
        }
    }

    /// The timer of a message ends: the node falls back unless the confirmation was read, as it
    /// mostly was.
    #[inline(always)]
    fn fall_back(&mut self, frame: &Frame, out: &mut Actions)
        requires takes { CanTake (frame_number frame.now) self.old.fallen }
        requires room { length out.old.items < out.old.room }
        ensures state { self.new ≡ record self.old { fallen = self.new.fallen } }
        ensures marks { AreMarksAfter (Some frame.now) self.old.confirms self.old.fallen self.new.fallen }
        ensures actions { out.new.items ≡ out.old.items ++ timer_actions (Some frame.now) self.old }
        ensures in_range { frame.now.node < most_nodes }
        ensures few { length out.new.items ≤ length out.old.items + 1 }
        ensures room { out.new.room ≡ out.old.room }
    {
        if !self.is_confirmed(frame) {
            self.fall_back_now(frame, out);
        }
    }

    /// The node falls back: it asks for the data frame itself unless it has enough copies.
    #[inline(never)]
    fn fall_back_now(&mut self, frame: &Frame, out: &mut Actions)
        requires open { is_confirmed self.old.confirms frame.now ≡ false }
        requires takes { CanTake (frame_number frame.now) self.old.fallen }
        requires room { length out.old.items < out.old.room }
        ensures state { self.new ≡ record self.old { fallen = self.new.fallen } }
        ensures marks { AreMarksAfter (Some frame.now) self.old.confirms self.old.fallen self.new.fallen }
        ensures actions { out.new.items ≡ out.old.items ++ timer_actions (Some frame.now) self.old }
        ensures few { length out.new.items ≤ length out.old.items + 1 }
        ensures room { out.new.room ≡ out.old.room }
    {
        let data = Data::of(frame);
        let asks = self.copies.copies(&data) <= self.copies.omit();
        // Called for what it ensures: no key is there twice, so there is room for this one.
        let _spare = self.fallen.spare();
        self.fallen.own(data);
        if asks {
            out.push(Action::Ask(*frame));
        }
    }

    /// Whether the confirmation of the message of a data frame was read.
    #[inline(always)]
    fn is_confirmed(&self, frame: &Frame) -> bool
        ensures confirmed { result ≡ is_confirmed self.now.confirms frame.now }
        ensures in_range { frame.now.node < most_nodes }
    {
        self.confirms.copies(&confirmation_of(Data::of(frame).msg)) > 0
    }

    /// Whether the timer of a message runs and its confirmation was not read. Without a
    /// confirmation the node has fallen back once the timer has run out, so the timers need not be
    /// looked through.
    fn is_awaited(&self, msg: &MsgKey) -> bool
        ensures awaited { result ≡ is_awaited self.now msg.now }
        ensures in_range { msg.now.origin < most_nodes }
    {
        if msg.origin.get() == self.node.get() {
            return false;
        }
        if self.confirms.copies(&confirmation_of(*msg)) > 0 {
            return false;
        }
        let data = Data::new(*msg, Payload::empty());
        self.copies.copies(&data) > 0 && !self.fallen.holds(&data)
    }

    /// Whether the frame is the data frame of a message of this node.
    fn is_own(&self, frame: &Frame) -> bool
        ensures { result ≡ (same_class frame.now.class class.Rel && frame.now.node == self.now.node) }
    {
        is_of_class(frame, Class::Rel) && frame.node.get() == self.node.get()
    }

    /// Whether the node is the origin of a data frame and has noted a copy or its own transmission.
    /// At other nodes nothing is looked up.
    fn holds_own(&self, frame: &Frame) -> bool
        ensures held { result ≡ holds_own self.now frame.now }
        ensures in_range { frame.now.node < most_nodes }
        ensures counted { IsCounted self.now.copies }
    {
        // Called for what it ensures: no key is there twice, so there is room for the frame's.
        let _spare = self.copies.spare();
        let data = Data::of(frame);
        frame.node.get() == self.node.get() && self.copies.holds(&data)
    }

    /// Whether the node fell back for the message of a data frame.
    fn is_fallen(&self, frame: &Frame) -> bool
        ensures { result ≡ is_fallen self.now frame.now }
    {
        self.fallen.holds(&Data::of(frame))
    }
}

/// The reply to a copy: it is withdrawn if it is late.
#[inline(always)]
fn reply_to_copy(format: Format, frame: &Frame, is_late: bool) -> Reply
    requires { HasSmallNumbers format frame.now }
    ensures { replied result frame.now ≡ withdraw_actions format is_late frame.now }
{
    if !is_late {
        return Reply::Nothing;
    }
    Reply::Withdraws {
        ident: identifier_without_incarnation(format, frame),
    }
}

/// Tables of nothing, for frames that may meet `omit` omissions and for `room` messages.
fn build_tables(alloc: Global, omit: u32, room: usize) -> Result<Tables, Memory>
    ensures copies { IfOk result (λ tables. IsFresh omit room tables.copies) }
    ensures confirms { IfOk result (λ tables. IsFresh omit room tables.confirms) }
{
    let copies = Eager::build(alloc, omit, room)?;
    let confirms = Eager::build(alloc, omit, room)?;
    Ok(Tables { copies, confirms })
}

/// How many timers may run at once: at most one for each message, and at most one starts in a slot.
fn timers_at_once(messages: usize, confirm: u64) -> usize
    requires { confirm ≤ greatest_default }
    ensures { result ≡ min messages (confirm + 1) }
{
    let slots = confirm as usize + 1;
    if slots < messages { slots } else { messages }
}
