ghost use Rattle.std.specs.Prelude.{◌≡◌, ◌≤◌, ◌<◌, ◌+◌, ◌-◌, ◌==◌, ◌↔◌, ◌⊎◌, true, false, not, min, [], ◌∷◌, ◌++◌, length, drop, filter, slice_get, All, None, IfOk, OnSome, IfSome, IfNone, IsNone};
ghost use Rattle.std.specs.List.{list_any};
ghost use Rattle.cany_base.specs.declared.notice.NoticeKind.TheVariants.{Got, Sent};
ghost use Rattle.cany_base.specs.Frame.{FrameParts, has_incarnation, identifier_of, key_of};
ghost use Rattle.cany_model.specs.declared.share.Share.TheVariants.{Confirmed, Took};
ghost use Rattle.cany_model.specs.Bus.Frames.{identity_of};
ghost use Rattle.cany_model.specs.Bus.Slot.{exceeds, least_frame};
ghost use Rattle.cany_model.specs.Bus.Waiting.{waits, with_frame, without};
ghost use Rattle.can_frame.specs.Identifier.{FitsFormat, FitsIdentifier};
ghost use Rattle.can_controller.specs.Controller.{ControllerState, HasStoppedBy, fresh_controller, node_state, restarted_at, seen, stopped_at};
ghost use Rattle.can_controller.specs.ControllerFields.{IsSound, controller_state};
ghost use Rattle.can_controller.specs.Waiting.{HasRoomFor};
ghost use Rattle.circular_buffer.specs.Buffer.{buffer};

use crate::counters::Counters;
use crate::notice::notice_of;
use crate::waiting::Waiting;
use cany_base::{Frame, Memory, NodeId, Notice, Params, Slot};
use cany_model::Share;
use circular_buffer::HeapCircularBuffer;
use std::alloc::Global;
use std::marker::Model;

/// The controller of a node. It waits with frames, at most one of an identity, and offers the one
/// that wins, slot after slot, until it was sent with success. It counts errors (CAN Specification
/// 2.0 Part B, 8) and stops where a counter exceeds `GREATEST_ERROR_COUNTER`, which is this
/// project's own rule. It keeps the notices of the slots until its node reads them.
///
/// All memory is taken by `build`.
#[derive(Drop)]
pub struct Controller {
    node: NodeId,
    params: Params,
    pub(crate) waiting: Waiting,
    counters: Counters,
    notices: HeapCircularBuffer<Notice>,
    read: u64,
    stopped: Option<Slot>,
}

impl Model for Controller {
    ghost Value = { ControllerState };

    ghost view = { controller_state };

    ghost invariant = { IsSound };
}

impl Controller {
    /// A running controller of the node, with room for `room` waiting frames and for one unread
    /// notice more than the lag.
    ///
    /// Promise: it is of this node, with these parameters and this room. Nothing waits, nothing is
    /// unread, its counters are zero, and slot 0 is the next to read.
    ///
    /// Shown by: `four_messages`.
    ///
    /// # Errors
    ///
    /// `Memory`: out of memory.
    pub fn build(
        alloc: Global,
        node: NodeId,
        params: &Params,
        room: usize,
    ) -> Result<Controller, Memory>
        ensures { IfOk result (λ built. built ≡ fresh_controller node params.now room) }
    {
        let waiting = Waiting::build(alloc, params.format, room)?;
        let notices = HeapCircularBuffer::with_capacity(alloc, params.lag as usize + 1)?;
        Ok(Controller {
            node,
            params: *params,
            waiting,
            counters: Counters {
                transmit: 0,
                receive: 0,
            },
            notices,
            read: 0,
            stopped: None,
        })
    }

    /// Puts the frame among the waiting frames, in place of one of its identity.
    ///
    /// Promise: the waiting frames are those of before with this one in its place (`with_frame`),
    /// and nothing else changes.
    ///
    /// Shown by: `ask_adds_a_frame_of_another_incarnation`, `four_messages`.
    pub fn ask(&mut self, frame: Frame)
        requires fits { FitsFormat self.old.params.format frame }
        requires room { HasRoomFor frame self.old.waiting self.old.room }
        ensures { self.new ≡ record self.old { waiting = with_frame frame self.old.waiting } }
    {
        self.waiting.ask(frame);
    }

    /// Takes the frame of this identifier from the waiting frames, if one waits.
    ///
    /// Promise: exactly the frames of this identifier leave the waiting frames, and nothing else
    /// changes. If the identifier is that of a frame whose class tells no incarnation, those are
    /// the frames of its identity.
    ///
    /// Shown by: `copies_read_in_a_row`.
    pub fn withdraw(&mut self, ident: u32)
        ensures by_identifier { let others = filter (λ f. not (identifier_of self.old.params.format f == ident)) self.old.waiting in
            self.new ≡ record self.old { waiting = others } }

        // The same, where the identifier is that of a frame f whose class tells no incarnation.
        ensures by_identity { (f : FrameParts) → FitsIdentifier self.old.params.format f → has_incarnation f.class ≡ false →
            identifier_of self.old.params.format f ≡ ident →
            self.new.waiting ≡ without (identity_of f) self.old.waiting }
    {
        self.waiting.withdraw(ident);
    }

    /// Whether a frame of this identifier waits.
    ///
    /// Promise: whether one of the waiting frames has this identifier. If it is that of a frame
    /// whose class tells no incarnation, whether a frame of its identity waits.
    ///
    /// Answers: `true` exactly where a frame of this identifier waits.
    ///
    /// Shown by: `restart_before_any_life_sign`.
    pub fn waits(&self, ident: u32) -> bool
        ensures by_identifier { result ≡ list_any (λ f. identifier_of self.now.params.format f == ident) self.now.waiting }

        // The same, where the identifier is that of a frame f whose class tells no incarnation.
        ensures by_identity { (f : FrameParts) → FitsIdentifier self.now.params.format f → has_incarnation f.class ≡ false →
            identifier_of self.now.params.format f ≡ ident →
            result ≡ waits (identity_of f) self.now.waiting }
    {
        self.waiting.waits(ident)
    }

    /// How many frames more may wait.
    ///
    /// Promise: the room less the number of waiting frames.
    pub fn spare(&self) -> usize
        ensures { result + length self.now.waiting ≡ self.now.room }
    {
        self.waiting.spare()
    }

    /// The waiting frame that wins over the others, which is the one that the controller offers in
    /// a slot.
    ///
    /// Promise: the waiting frame of the least key, which is the first of the list. Each other
    /// waiting frame has a greater key.
    ///
    /// Answers: `None` exactly where nothing waits.
    ///
    /// Shown by: `four_messages`, `the_best_frame_is_the_greatest`.
    pub fn best(&self) -> Option<Frame>
        ensures none { IsNone result ↔ (self.now.waiting ≡ []) }
        ensures head { result ≡ slice_get self.now.waiting 0 }
        ensures least { result ≡ least_frame self.now.waiting }
        ensures fits { IfSome result (FitsIdentifier self.now.params.format) }

        // Each other waiting frame has a greater key.
        ensures least_key { let key = key_of self.now.params.format in
            IfSome result (λ f. All (λ g. (g ≡ f) ⊎ (key f < key g)) self.now.waiting) }
    {
        self.waiting.first()
    }

    /// What the controller did in a slot: it gets the notice, its counters change, a frame sent
    /// with success waits no longer, and where a counter exceeds the limit it stops.
    ///
    /// Promise: the counters, the waiting frames and the unread notices change as the slot rule
    /// says of this share (`seen`). The controller stops at the slot exactly where a counter then
    /// exceeds 127.
    ///
    /// Shown by: `sixteen_lost_slots`, `a_counter_wraps_below_zero`, `a_notice_is_lost`,
    /// `counters_never_stop_a_controller`.
    // A hint, since a run makes most of these calls in one place.
    #[inline(always)]
    pub fn see(&mut self, slot: Slot, share: Share)
        requires running { self.old.stopped ≡ None }
        requires room { length self.old.unread < self.old.params.lag + 1 }
        ensures { self.new ≡ seen slot share self.old }
    {
        self.counters = self.counters.after(&share);
        self.waiting.settle(&share);
        let kind = notice_of(share);
        keep(&mut self.notices, &Notice { slot, kind });
        if self.counters.exceed_limit() {
            self.stopped = Some(slot);
        }
    }

    /// What `see` does where the controller took the frame that the notice brings.
    ///
    /// Promise: the receive counter is one less, but not below 0, and the notice is the last unread
    /// one. Where the notice tells that a frame was got, this is what `see` does for the share
    /// `Took`.
    ///
    /// Shown by: `one_message_no_fault`.
    // A hint, since a run makes most of these calls in one place. So is that of the next.
    #[inline(always)]
    pub fn see_taken(&mut self, notice: &Notice)
        requires running { self.old.stopped ≡ None }
        requires room { length self.old.unread < self.old.params.lag + 1 }
        ensures parts { let unread = self.old.unread ++ notice.now ∷ [] in
            self.new ≡ record self.old { receive = self.old.receive - 1; unread = unread } }
        ensures seen { (frame : FrameParts) → notice.now.kind ≡ Got frame →
            self.new ≡ seen notice.now.slot (Took frame) self.old }
    {
        self.counters = self.counters.after_receipt();
        keep(&mut self.notices, notice);
    }

    /// What `see` does where the controller sent the frame with success, as the notice says.
    ///
    /// Promise: the controller is changed as `see` changes it for the share `Confirmed` of this
    /// frame.
    ///
    /// Shown by: `one_message_no_fault`, `a_confirmed_frame_still_waits`.
    #[inline(always)]
    pub fn see_sent(&mut self, frame: &Frame, notice: &Notice)
        requires running { self.old.stopped ≡ None }
        requires room { length self.old.unread < self.old.params.lag + 1 }
        requires sent { notice.now.kind ≡ Sent frame.now }
        ensures { self.new ≡ seen notice.now.slot (Confirmed frame.now) self.old }
    {
        self.counters = self.counters.after_success();
        self.waiting.drop_frame(frame);
        keep(&mut self.notices, notice);
    }

    /// The controller stops at the end of the slot. One that has stopped stays as it is.
    ///
    /// Promise: a running controller has stopped at the slot, and one that has stopped stays as it
    /// is.
    ///
    /// Shown by: `edcan_sender_stops_after_partial`.
    pub fn stop(&mut self, slot: Slot)
        ensures { self.new ≡ stopped_at slot self.old }
    {
        if self.stopped.is_none() {
            self.stopped = Some(slot);
        }
    }

    /// The controller starts again at the end of the slot, after its stop in this slot or an
    /// earlier one. It then runs, nothing waits, nothing is unread, its counters are zero, and the
    /// next slot is the next to read. It takes no memory.
    ///
    /// Promise: the controller runs, nothing waits, nothing is unread, its counters are zero, and
    /// the slot after this one is the next to read. Its node, parameters and room stay.
    ///
    /// Shown by: `restart_hears_again`, `a_restart_keeps_the_counters`.
    pub fn restart(&mut self, slot: Slot)
        requires { HasStoppedBy slot self.old }
        ensures { self.new ≡ restarted_at slot self.old }
    {
        self.waiting.clear();
        self.counters.clear();
        self.notices.clear();
        self.read = slot + 1;
        self.stopped = None;
    }

    /// The slot at which the controller stopped, if it has not started again since.
    ///
    /// Promise: the slot of its stop.
    ///
    /// Answers: `None` exactly where the controller runs.
    ///
    /// Shown by: `sixteen_lost_slots`, `restart_hears_again`.
    pub fn stopped(&self) -> Option<Slot>
        ensures { result ≡ self.now.stopped }
    {
        self.stopped
    }

    /// The oldest unread notice, which counts as read from then on. The number of the next slot to
    /// read stays at the greatest `u64` once it is there.
    ///
    /// Promise: the oldest unread notice leaves the unread ones, and the next slot to read is one
    /// more. Where nothing is unread nothing changes.
    ///
    /// Answers: `None` exactly where all notices were read.
    ///
    /// Shown by: `one_node_reads_as_late_as_is_legal`.
    pub fn next_notice(&mut self) -> Option<Notice>
        ensures all_read { IsNone result ↔ (self.old.unread ≡ []) }
        ensures oldest { result ≡ slice_get self.old.unread 0 }
        ensures some { let read = min (self.old.read + 1) u64.MAX in
            OnSome result (self.new ≡ record self.old { unread = drop 1 self.old.unread; read = read }) }
        ensures none { IfNone result (self.new ≡ self.old) }
    {
        let notice = self.notices.pop_front()?;
        self.read = self.read.saturating_add(1);
        Some(notice)
    }

    /// How many notices are unread.
    ///
    /// Promise: the number of unread notices, which is at most `lag` + 1.
    pub fn unread(&self) -> u32
        ensures count { result ≡ length self.now.unread }
        ensures within { result ≤ self.now.params.lag + 1 }
    {
        self.notices.len() as u32
    }

    /// Whether no frame waits and every notice was read. If the controller runs too, a slot in
    /// which nobody offers a frame changes nothing of it but that one notice more is to be read.
    ///
    /// Promise: whether no frame waits and no notice is unread.
    ///
    /// Answers: `true` exactly where no frame waits and no notice is unread.
    ///
    /// Shown by: `one_node_reads_as_late_as_is_legal`, `nothing_to_do_is_never_found`.
    pub fn has_nothing_to_do(&self) -> bool
        ensures waiting { result ≡ true → self.now.waiting ≡ [] }
        ensures unread { result ≡ true → self.now.unread ≡ [] }
        ensures exact { self.now.waiting ≡ [] → self.now.unread ≡ [] → result ≡ true }
    {
        self.waiting.is_empty() && self.notices.is_empty()
    }

    /// Passes over a number of slots in which nobody offers a frame, and whose notices are read.
    ///
    /// Promise: the next slot to read is this many later, and nothing else changes.
    pub fn rest(&mut self, slots: u64)
        requires { self.old.read + slots ≤ u64.MAX }
        ensures { self.new ≡ record self.old { read = self.old.read + slots } }
    {
        self.read += slots;
    }

    /// The next slot to read. Of a controller that has never started again this is how many notices
    /// were read; a restart passes over the slots that are unread when it comes.
    ///
    /// Promise: the next slot to read.
    pub fn read(&self) -> u64
        ensures { result ≡ self.now.read }
    {
        self.read
    }

    /// The counters of a controller that runs are within the limit, as they are kept.
    pub(crate) fn counters_within(&self)
        ensures { self.now.stopped ≡ None → exceeds (node_state self.now) ≡ false }
    {
        // A read of a field gives the proof what holds of all fields.
        let _counters = &self.counters;
    }
}

/// Appends a copy of the item to a ring that has room for it.
#[inline(always)]
fn keep<T: Copy>(ring: &mut HeapCircularBuffer<T>, item: &T)
    requires { length ring.old.items < ring.old.capacity }
    ensures { ring.new ≡ buffer (ring.old.items ++ item.now ∷ []) ring.old.capacity }
{
    let _ = ring.try_push_back(*item);
}
