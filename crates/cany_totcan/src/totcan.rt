ghost use Rattle.std.specs.Prelude.{◌≡◌, ◌≢◌, ℕ, ◌+◌, ◌<◌, ◌≤◌, ◌==◌, ◌&&◌, ◌++◌, ◌∷◌, [], true, false, length, min, List, Contains, Some, replicate, take, IfOk};
ghost use Rattle.std.specs.List.{AllByRecursion, list_any};
ghost use Rattle.can_frame.specs.Identifier.{HasSmallNumbers};
ghost use Rattle.cany_base.specs.declared.class.Class.TheVariants as class;
ghost use Rattle.cany_base.specs.declared.message.Service.TheVariants as service;
ghost use Rattle.cany_base.specs.declared.notice.NoticeKind.{NoticeKind};
ghost use Rattle.cany_base.specs.declared.notice.NoticeKind.TheVariants.{Idle};
ghost use Rattle.cany_base.specs.Limits.{greatest_default, most_nodes};
ghost use Rattle.cany_base.specs.Scenario.{ScenarioParts};
ghost use Rattle.cany_diffuse.specs.Eager.{learnt_of};
ghost use Rattle.cany_message.specs.Actions.{relay_actions, withdraw_actions};
ghost use Rattle.cany_model.specs.Bus.Frames.{same_class};
ghost use Rattle.cany_model.specs.Rules.Actions.{actions_of};
ghost use Rattle.cany_model.specs.Rules.Backlog.{ask_for, asked_after, next_after};
ghost use Rattle.cany_model.specs.Rules.Messages.{Message, messages_of, message_key};
ghost use Rattle.cany_model.specs.Rules.Notices.{IsNextNotice};
ghost use Rattle.cany_model.specs.Rules.Totcan.{accept_effects, accept_frame, has_closing_ahead, message_in, totcan_effects};
ghost use Rattle.cany_totcan.specs.Acceptances.{IsNoted, forgotten, noted_of, with_copy, with_own};
ghost use Rattle.cany_totcan.specs.Rests.{Rests};
ghost use Rattle.cany_totcan.specs.Totcan.{TotcanParts, CanRead, HasHeard, IsOwnTot, IsTotcanOf, has_seq};
ghost use Rattle.cany_totcan.specs.TotcanSteps.{AreAdded, AreKnown, AreStillNoted, CanHold, HaveGone, closing_accepted, closing_actions, closing_frame, due, first_of, fresh_of, has_open, held, if_accepted, is_accepted_by, origin_actions, tot_actions, without_closing};

use crate::backlog::Backlog;
use crate::message_set::{MessageSet, numbers_of};
use crate::queue::{Noted, OpenMessages};
use cany_base::{
    Action, Actions, Class, Format, Frame, Memory, MsgKey, NodeId, Notice, NoticeKind, Payload,
    Scenario, Service, Slot,
};
use cany_diffuse::Learnt;
use cany_message::{bare_frame, deliver, is_of_class, relay, sends_by, withdraw};
use std::alloc::Global;
use std::marker::Model;

/// TOTCAN at one node: which messages are open and in which order, which of them are accepted,
/// which were delivered, and the messages that the node itself is to send.
///
/// This project's own rule. The place of a message is the last slot in which the node got its data
/// frame or sent it. The origin, which alone sends the data frame, then asks for a frame that
/// accepts the message, and each node that holds it relays that by the eager rule. A message that
/// is not accepted in the `bound` slots after its place closes and is passed over. Accepted
/// messages are delivered in the order of their places, once no message with an older place is open
/// and not accepted. An origin asks for its next message once it has read its transmission of the
/// one before, `bound + lag` slots after its place.
#[derive(Drop)]
pub struct Totcan {
    node: NodeId,
    /// The scenario's, in which a withdrawal names its frame.
    format: Format,
    /// How many slots after its place a message closes.
    bound: Slot,
    /// How many slots after the place of one of its messages the node may ask for the next.
    spacing: Slot,
    /// How many omissions of a frame there may be.
    omit: u32,
    /// The open messages, each with what was noted of its acceptances.
    queue: OpenMessages,
    /// Those that the node has delivered.
    deliveries: MessageSet,
    backlog: Backlog,
}

impl Model for Totcan {
    ghost Value = { TotcanParts };

    ghost view = { λ t. record {
      node = t.node;
      format = t.format;
      bound = t.bound;
      spacing = t.spacing;
      omit = t.omit;
      queue = t.queue.messages;
      acceptances = t.queue.entries;
      deliveries = t.deliveries;
      backlog = t.backlog;
    } };
}

impl Totcan {
    /// The TOTCAN of a node that has read nothing, or only notices of idle slots, with room for all
    /// messages of the scenario that are by TOTCAN.
    ///
    /// Promise: the value stands for each history of idle slots alone, the empty one too, of a node
    /// that was given no message.
    ///
    /// Shown by: `totcan_late_copy_moves_the_place`.
    ///
    /// # Errors
    ///
    /// `Memory`: out of memory.
    pub fn build(alloc: Global, node: NodeId, scenario: &Scenario) -> Result<Totcan, Memory>
        requires { node < scenario.now.params.nodes }
        ensures { IfOk result (λ totcan. (n : ℕ) → IsTotcanOf scenario.now node (replicate n Idle) [] 0 totcan) }
    {
        let params = *scenario.params();
        let room = sends_by(scenario, Service::Tot);
        let numbers = numbers_of(scenario);
        let queue = OpenMessages::build(alloc, open_at_once(room, params.bound), numbers)?;
        let deliveries = MessageSet::build(alloc, numbers)?;
        let backlog = Backlog::build(alloc, node, scenario)?;
        Ok(Totcan {
            node,
            format: params.format,
            bound: params.bound,
            spacing: params.bound + Slot::from(params.lag),
            omit: params.omit,
            queue,
            deliveries,
            backlog,
        })
    }

    /// Gives the node, which is the origin, a message to send after those that it was given before.
    ///
    /// Promise: whatever history and messages the value stands for, it stands afterwards for the
    /// same history, with this message of the scenario behind the others. What was asked for stays.
    ///
    /// Shown by: `backlog_first_closes`.
    pub fn send(&mut self, msg: MsgKey, payload: Payload)
        requires room { length self.old.backlog.given < self.old.backlog.room }
        requires own { msg.seq < length self.old.backlog.own }
        ensures stands { (scenario : ScenarioParts) (past : List NoticeKind) (messages : List Message) (asked : ℕ) (m : Message) →
            IsTotcanOf scenario self.old.node past messages asked self.old → IsOwnTot scenario self.old.node m → message_key m ≡ msg → m.payload ≡ payload →
            IsTotcanOf scenario self.old.node past (messages ++ m ∷ []) asked self.new }
        ensures node { self.new.node ≡ self.old.node }
        ensures given { length self.new.backlog.given ≡ length self.old.backlog.given + 1 }
        ensures room { self.new.backlog.room ≡ self.old.backlog.room }
        ensures own { length self.new.backlog.own ≡ length self.old.backlog.own }
    {
        self.backlog.give(msg.seq, payload);
    }

    /// What TOTCAN does at a notice: with the frame in it, then with the message that closes in its
    /// slot, and then what it delivers. The notices of the slots before the first that a value is
    /// given count as idle ones.
    ///
    /// At most three actions are appended, and one for each message that there is room for.
    ///
    /// Promise: whatever history the value stands for, and whichever notice can come next, exactly
    /// the actions of the definition are appended (`totcan_effects`). The value then stands for the
    /// longer history, with the same messages of its own.
    ///
    /// Shown by: `totcan_late_copy_moves_the_place`, `a_delivery_counts_for_the_message_before`,
    /// `acceptances_count_from_the_first_place`, `closed_after_partial_stays_closed`,
    /// `closes_one_slot_early`, `receiver_skips_accept`, `totcan_delivers_at_first_copy`,
    /// `totcan_keeps_first_place`.
    pub fn on(&mut self, notice: &Notice, out: &mut Actions)
        requires reads { CanRead self.old notice.now }
        requires room { length out.old.items + self.old.queue.room + 3 ≤ out.old.room }
        ensures actions { (scenario : ScenarioParts) (past : List NoticeKind) (messages : List Message) (asked : ℕ) →
            IsTotcanOf scenario self.old.node past messages asked self.old → IsNextNotice scenario past notice.now →
            out.new.items ≡ out.old.items ++ actions_of scenario.params.format (totcan_effects scenario self.old.node (notice.now.kind ∷ past)) }
        ensures stands { (scenario : ScenarioParts) (past : List NoticeKind) (messages : List Message) (asked : ℕ) →
            IsTotcanOf scenario self.old.node past messages asked self.old → IsNextNotice scenario past notice.now →
            IsTotcanOf scenario self.old.node (notice.now.kind ∷ past) messages asked self.new }
        ensures node { self.new.node ≡ self.old.node }
        ensures few { length out.new.items ≤ length out.old.items + self.old.queue.room + 3 }
        ensures room { out.new.room ≡ out.old.room }
    {
        self.hear(notice, out);
        self.close(notice.slot, out);
        self.deliver_done(notice.slot, out);
    }

    /// In the turn of a slot, after its notice and its scripted sends: asks for the next message
    /// that the node was given. It does so if the one before was sent and its place lies far enough
    /// back.
    ///
    /// Promise: whatever history up to this slot the value stands for, exactly the ask for the
    /// message that the definition says is next is appended, or nothing where none is
    /// (`next_after`). The value then stands for the same history, with this message asked for.
    ///
    /// Shown by: `backlog_first_closes`, `the_next_is_asked_for_before_the_last_was_sent`.
    pub fn next(&mut self, now: Slot, out: &mut Actions)
        requires room { length out.old.items < out.old.room }
        ensures actions { (scenario : ScenarioParts) (past : List NoticeKind) (messages : List Message) (asked : ℕ) →
            IsTotcanOf scenario self.old.node past messages asked self.old → now + 1 ≡ length past →
            out.new.items ≡ out.old.items ++ actions_of scenario.params.format (ask_for (next_after scenario.params past messages asked)) }
        ensures stands { (scenario : ScenarioParts) (past : List NoticeKind) (messages : List Message) (asked : ℕ) →
            IsTotcanOf scenario self.old.node past messages asked self.old → now + 1 ≡ length past →
            IsTotcanOf scenario self.old.node past messages (asked_after scenario.params past messages asked) self.new }
        ensures node { self.new.node ≡ self.old.node }
        ensures few { length out.new.items ≤ length out.old.items + 1 }
        ensures room { out.new.room ≡ out.old.room }
    {
        if let Some(given) = self.backlog.next(now, self.spacing) {
            out.push(Action::Ask(Frame {
                class: Class::Tot,
                number: given.seq,
                node: self.node,
                inc: 0,
                payload: given.payload,
            }));
        }
    }

    /// The first slot in whose turn a message may close, or one of the backlog may be asked for.
    /// Until then the node reads idle slots alone and is given no message. It is `Slot::MAX` where
    /// there is none.
    ///
    /// Promise: whatever history the value stands for, an idle notice of a slot before the answer
    /// leads to nothing. The value stands as it is for the longer history too.
    pub fn wake(&self) -> Slot
        ensures rests { (scenario : ScenarioParts) (past : List NoticeKind) (messages : List Message) (asked : ℕ) →
            IsTotcanOf scenario self.now.node past messages asked self.now → length past < result →
            Rests scenario self.now.node past messages asked self.now }
    {
        let closing = self.queue.closing(self.bound);
        let next = self.backlog.wake(self.spacing);
        closing.min(next)
    }

    /// Whether a closing of the message lies ahead at this node: it is open.
    ///
    /// Promise: whatever history the value stands for, whether the definition says of this message
    /// of the scenario that a closing of it is ahead (`has_closing_ahead`).
    ///
    /// Answers: `true` exactly where that is so, and `false` for a key that no message of the
    /// scenario has.
    ///
    /// Shown by: `totcan_unaccepted_is_dropped`, `backlog_first_is_open`.
    pub fn ahead(&self, msg: MsgKey) -> bool
        ensures message { (scenario : ScenarioParts) (past : List NoticeKind) (messages : List Message) (asked : ℕ) (m : Message) →
            IsTotcanOf scenario self.now.node past messages asked self.now → Contains (messages_of scenario.sends) m → message_key m ≡ msg →
            result ≡ has_closing_ahead scenario m self.now.node past }
        ensures no_message { (scenario : ScenarioParts) (past : List NoticeKind) (messages : List Message) (asked : ℕ) →
            IsTotcanOf scenario self.now.node past messages asked self.now →
            ((m : Message) → Contains (messages_of scenario.sends) m → message_key m ≢ msg) → result ≡ false }
    {
        self.queue.has(&msg)
    }

    /// Whether no message is open at this node, so that no closing of any lies ahead.
    ///
    /// Promise: whatever history the value stands for, after the answer `true` no closing of any
    /// message of the scenario is ahead.
    ///
    /// Answers: `true` only where no closing of any message is ahead. No clause says when it comes.
    ///
    /// Shown by: `backlog_first_is_open`.
    pub fn has_nothing_ahead(&self) -> bool
        ensures { result ≡ true → (scenario : ScenarioParts) (past : List NoticeKind) (messages : List Message) (asked : ℕ) (m : Message) →
            IsTotcanOf scenario self.now.node past messages asked self.now → Contains (messages_of scenario.sends) m →
            has_closing_ahead scenario m self.now.node past ≡ false }
    {
        self.queue.is_empty()
    }

    /// Whether this node has asked for the data frame of the message of this key.
    ///
    /// Promise: of a message of this node, whether it is one of those given that the node has asked
    /// for.
    ///
    /// Answers: `true` exactly where that is so, and `false` for each message of another node.
    ///
    /// Shown by: `backlog_first_closes`.
    pub fn asked(&self, msg: MsgKey) -> bool
        ensures own { (scenario : ScenarioParts) (past : List NoticeKind) (messages : List Message) (asked : ℕ) →
            IsTotcanOf scenario self.now.node past messages asked self.now → msg.origin ≡ self.now.node →
            result ≡ list_any (has_seq msg.seq) (take asked messages) }
        ensures other { msg.origin ≢ self.now.node → result ≡ false }
    {
        msg.origin.get() == self.node.get() && self.backlog.is_asked(msg.seq)
    }

    /// What TOTCAN does with the frame in a notice.
    fn hear(&mut self, notice: &Notice, out: &mut Actions)
        requires reads { CanRead self.old notice.now }
        requires room { length out.old.items < out.old.room }
        ensures actions { (scenario : ScenarioParts) (past : List NoticeKind) (messages : List Message) (asked : ℕ) →
            IsTotcanOf scenario self.old.node past messages asked self.old → IsNextNotice scenario past notice.now →
            out.new.items ≡ out.old.items ++ actions_of scenario.params.format (accept_effects scenario.params self.old.node notice.now.kind past) }
        ensures stands { (scenario : ScenarioParts) (past : List NoticeKind) (messages : List Message) (asked : ℕ) →
            IsTotcanOf scenario self.old.node past messages asked self.old → IsNextNotice scenario past notice.now →
            HasHeard scenario self.old.node notice.now.kind past messages asked self.new }
        ensures node { self.new.node ≡ self.old.node }
        ensures queue { self.new.queue.room ≡ self.old.queue.room }
        ensures few { length out.new.items ≤ length out.old.items + 1 }
        ensures room { out.new.room ≡ out.old.room }
    {
        match &notice.kind {
            NoticeKind::Got(frame) => {
                if is_of_class(frame, Class::Tot) {
                    self.hold(notice.slot, frame, false);
                } else if self.accepts_open(frame) {
                    self.on_acceptance(frame, out);
                }
            }
            NoticeKind::Sent(frame) => {
                if is_of_class(frame, Class::Tot) {
                    self.on_own_data(notice.slot, frame, out);
                } else if self.accepts_open(frame) {
                    self.on_own_acceptance(frame);
                }
            }
            NoticeKind::Idle => {}
            NoticeKind::Bad => {}
        }
    }

    /// A data frame was read: its message has its place here, and is accepted by what is read from
    /// now on.
    fn hold(&mut self, slot: Slot, frame: &Frame, is_sent: bool)
        requires { CanHold self.old frame.now slot }
        ensures forgotten { IsNoted forgotten (message_in frame.now) self.old.acceptances self.new.acceptances }
        ensures in_range { frame.now.node < most_nodes }
        ensures state { self.new ≡ held frame.now slot is_sent self.new.acceptances self.old }
    {
        self.queue.place(frame, slot);
        if frame.node.get() == self.node.get() {
            self.backlog.note(frame.number, slot, is_sent);
        }
    }

    /// The node's own transmission of a data frame was read: the origin accepts the message.
    fn on_own_data(&mut self, slot: Slot, frame: &Frame, out: &mut Actions)
        requires holds { CanHold self.old frame.now slot }
        requires room { length out.old.items < out.old.room }
        ensures forgotten { IsNoted forgotten (message_in frame.now) self.old.acceptances self.new.acceptances }
        ensures in_range { frame.now.node < most_nodes }
        ensures state { self.new ≡ held frame.now slot true self.new.acceptances self.old }
        ensures actions { out.new.items ≡ out.old.items ++ origin_actions (frame.now.node == self.old.node) frame.now }
        ensures few { length out.new.items ≤ length out.old.items + 1 }
        ensures room { out.new.room ≡ out.old.room }
    {
        self.hold(slot, frame, true);
        if frame.node.get() == self.node.get() {
            out.push(Action::Ask(bare_frame(Class::Accept, frame)));
        }
    }

    /// Whether a frame accepts an open message.
    fn accepts_open(&self, frame: &Frame) -> bool
        ensures { result ≡ (same_class frame.now.class class.Accept && has_open self.now frame.now) }
    {
        is_of_class(frame, Class::Accept) && self.queue.has(&key_of(frame))
    }

    /// A copy of a frame that accepts an open message was read: the node relays it by the eager
    /// rule.
    fn on_acceptance(&mut self, frame: &Frame, out: &mut Actions)
        requires small { HasSmallNumbers self.old.format frame.now }
        requires there { has_open self.old frame.now ≡ true }
        requires room { length out.old.items < out.old.room }
        ensures learnt { IsNoted with_copy (message_in frame.now) self.old.acceptances self.new.acceptances }
        ensures in_range { frame.now.node < most_nodes }
        ensures state { self.new ≡ record self.old { acceptances = self.new.acceptances } }
        ensures actions { let noted = noted_of self.new.acceptances (message_in frame.now) in
            out.new.items ≡ out.old.items ++ relay_actions self.old.format (learnt_of self.old.omit noted.copies noted.owned) frame.now }
        ensures few { length out.new.items ≤ length out.old.items + 1 }
        ensures room { out.new.room ≡ out.old.room }
    {
        let noted = self.queue.count(&key_of(frame));
        let learnt = Learnt::of(self.omit, noted.copies, noted.owned);
        relay(self.format, &learnt, frame, out);
    }

    /// The node's own transmission of a frame that accepts an open message was read.
    fn on_own_acceptance(&mut self, frame: &Frame)
        requires { has_open self.old frame.now ≡ true }
        ensures owned { IsNoted with_own (message_in frame.now) self.old.acceptances self.new.acceptances }
        ensures in_range { frame.now.node < most_nodes }
        ensures state { self.new ≡ record self.old { acceptances = self.new.acceptances } }
    {
        self.queue.own(&key_of(frame));
    }

    /// The message closes whose place lies `bound` slots back, if there is one.
    fn close(&mut self, slot: Slot, out: &mut Actions)
        requires known { AreKnown self.old }
        requires room { length out.old.items + 2 ≤ out.old.room }
        ensures added { AreAdded (closing_accepted self.old (closing_frame slot self.old)) self.old.deliveries self.new.deliveries }
        ensures noted { AreStillNoted (without_closing slot self.old).queue.items self.old.acceptances self.new.acceptances }
        ensures state { self.new ≡ record (without_closing slot self.old) { acceptances = self.new.acceptances; deliveries = self.new.deliveries } }
        ensures actions { let closing = closing_frame slot self.old in
            out.new.items ≡ (out.old.items ++ closing_actions self.old.format closing)
            ++ tot_actions slot (fresh_of self.old.deliveries (closing_accepted self.old closing)) }
        ensures few { length out.new.items ≤ length out.old.items + 2 }
        ensures room { out.new.room ≡ out.old.room }
    {
        if slot < self.bound {
            return;
        }
        if let Some(oldest) = self.queue.oldest_at(slot - self.bound) {
            let frame = oldest.placed.frame;
            self.on_closed(slot, &frame, oldest.noted, out);
            self.queue.remove_oldest(&key_of(&frame));
        }
    }

    /// A message closes: no frame that accepts it waits any longer. If it is accepted and was not
    /// delivered, it is delivered now, since nothing before it is open.
    fn on_closed(&mut self, slot: Slot, frame: &Frame, noted: Noted, out: &mut Actions)
        requires noted { noted ≡ noted_of self.old.acceptances (message_in frame.now) }
        requires deliver { frame.now.number < length self.old.deliveries.origins }
        requires own { frame.now.node ≡ self.old.node → frame.now.number < length self.old.backlog.own }
        requires small { HasSmallNumbers self.old.format frame.now }
        requires room { length out.old.items + 2 ≤ out.old.room }
        ensures added { AreAdded (if_accepted self.old frame.now) self.old.deliveries self.new.deliveries }
        ensures state { self.new ≡ record self.old { deliveries = self.new.deliveries } }
        ensures actions { out.new.items ≡ (out.old.items ++ withdraw_actions self.old.format true (accept_frame frame.now))
            ++ tot_actions slot (fresh_of self.old.deliveries (if_accepted self.old frame.now)) }
        ensures few { length out.new.items ≤ length out.old.items + 2 }
        ensures room { out.new.room ≡ out.old.room }
    {
        let acceptance = bare_frame(Class::Accept, frame);
        withdraw(self.format, &acceptance, true, out);
        if self.is_accepted(frame, noted) {
            self.deliver(slot, frame, out);
        }
    }

    /// Delivers the accepted messages that no open one before them holds back, in the order of
    /// their places.
    // A hint, since mostly none is, so that one look ends it. The next call stays apart for that.
    #[inline(always)]
    fn deliver_done(&mut self, slot: Slot, out: &mut Actions)
        requires known { AreKnown self.old }
        requires room { length out.old.items + length self.old.queue.items ≤ out.old.room }
        ensures gone { HaveGone slot self.old self.new out.old.items out.new.items }
        ensures all { due self.new ≡ [] }
        ensures few { length out.new.items ≤ length out.old.items + length self.old.queue.items }
        ensures room { out.new.room ≡ out.old.room }
    {
        while let Some(frame) = self.next_accepted() {
            self.deliver_next(slot, &frame, out);
        }
    }

    /// The first open message that is not done is accepted: it is done now, and is delivered unless
    /// it was before.
    #[inline(never)]
    fn deliver_next(&mut self, slot: Slot, frame: &Frame, out: &mut Actions)
        requires next { first_of (due self.old) ≡ Some frame.now }
        requires deliver { frame.now.number < length self.old.deliveries.origins }
        requires room { length out.old.items < out.old.room }
        ensures gone { HaveGone slot self.old self.new out.old.items out.new.items }
        ensures fewer { length (due self.old) ≡ length (due self.new) + 1 }
        ensures few { length out.new.items ≤ length out.old.items + 1 }
        ensures room { out.new.room ≡ out.old.room }
    {
        self.queue.advance();
        self.deliver(slot, frame, out);
    }

    /// The data frame of the first open message that is not done, if it is accepted.
    fn next_accepted(&self) -> Option<Frame>
        requires { AllByRecursion (λ x. x.frame.node ≡ self.now.node → x.frame.number < length self.now.backlog.own) self.now.queue.items }
        ensures { result ≡ first_of (due self.now) }
    {
        let first = self.queue.first_open()?;
        let frame = first.placed.frame;
        if self.is_accepted(&frame, first.noted) {
            Some(frame)
        } else {
            None
        }
    }

    /// Delivers the message of a data frame, unless it was delivered before.
    fn deliver(&mut self, slot: Slot, frame: &Frame, out: &mut Actions)
        requires deliver { frame.now.number < length self.old.deliveries.origins }
        requires room { length out.old.items < out.old.room }
        ensures added { AreAdded (frame.now ∷ []) self.old.deliveries self.new.deliveries }
        ensures in_range { frame.now.node < most_nodes }
        ensures state { self.new ≡ record self.old { deliveries = self.new.deliveries } }
        ensures actions { out.new.items ≡ out.old.items ++ tot_actions slot (fresh_of self.old.deliveries (frame.now ∷ [])) }
        ensures few { length out.new.items ≤ length out.old.items + 1 }
        ensures room { out.new.room ≡ out.old.room }
    {
        let msg = key_of(frame);
        let is_new = !self.deliveries.has(&msg);
        deliver(Service::Tot, slot, frame, is_new, out);
        if is_new {
            self.deliveries.insert(&msg);
        }
    }

    /// Whether the open message of a data frame is accepted. The node has read a frame that says so
    /// since its place, or is its origin and has read its own transmission of the data frame.
    fn is_accepted(&self, frame: &Frame, noted: Noted) -> bool
        requires noted { noted ≡ noted_of self.now.acceptances (message_in frame.now) }
        requires own { frame.now.node ≡ self.now.node → frame.now.number < length self.now.backlog.own }
        ensures { result ≡ is_accepted_by self.now frame.now }
    {
        if noted.copies > 0 {
            return true;
        }
        frame.node.get() == self.node.get() && self.backlog.is_sent(frame.number)
    }
}

/// How many messages may be open at once: at most one has its place in a slot, and each closes
/// `bound` slots after its place.
fn open_at_once(messages: usize, bound: u64) -> usize
    requires { bound ≤ greatest_default }
    ensures { result ≡ min messages (bound + 1) }
{
    let slots = bound as usize + 1;
    if slots < messages { slots } else { messages }
}

/// The key of the message that a frame names.
fn key_of(frame: &Frame) -> MsgKey
    ensures key { result ≡ message_in frame.now }
    ensures in_range { frame.now.node < most_nodes }
{
    // Read for what it ensures: that the node is in range.
    let _number = frame.node.get();
    MsgKey {
        origin: frame.node,
        seq: frame.number,
    }
}
