ghost use Rattle.std.specs.Prelude.{◌≡◌, ℕ, ◌<◌, ◌≤◌, ◌+◌, ◌-◌, [], None, length, option_map, slice_get, true, false, IfOk, IfSome, IfNone};
ghost use Rattle.std.specs.List.{AllByRecursion, list_any};
ghost use Rattle.std.specs.VecDeque.{deque_capacity};
ghost use Rattle.cany_model.specs.Rules.Totcan.{message_in};
ghost use Rattle.cany_totcan.specs.Acceptances.{IsNoted, RingParts, forgotten, noted_of, nothing, placed_of, with_copy, with_own};
ghost use Rattle.cany_totcan.specs.Queue.{IsIndexOf, IsKept, is_at, is_removed, moved, oldest_from, without_first, without_key};

use crate::message_set::MessageSet;
use cany_base::{Frame, Memory, MsgKey, Slot};
use std::alloc::Global;
use std::collections::VecDeque;
use std::marker::Model;

/// A message whose data frame was read, at its place.
#[derive(Clone, Copy)]
pub(crate) struct Placed {
    /// The data frame.
    pub(crate) frame: Frame,
    /// The slot in which the node got or sent it last.
    pub(crate) place: Slot,
}

/// What was noted of the frames that accept an open message since its place.
#[derive(Clone, Copy)]
pub(crate) struct Noted {
    /// The copies that were read. The count stands still at the end of its type.
    pub(crate) copies: u32,
    /// The node's own transmission was read.
    pub(crate) owned: bool,
}

/// An open message, and what was noted of the frames that accept it.
#[derive(Clone, Copy)]
pub(crate) struct Open {
    pub(crate) placed: Placed,
    pub(crate) noted: Noted,
}

impl Noted {
    /// Nothing was read.
    fn nothing() -> Noted
        ensures { result ≡ nothing }
    {
        Noted {
            copies: 0,
            owned: false,
        }
    }
}

impl Placed {
    fn is_at(&self, msg: &MsgKey) -> bool
        ensures { result ≡ is_at msg.now self.now }
    {
        msg.seq == self.frame.number && msg.origin.get() == self.frame.node.get()
    }
}

/// The open messages of a node in the order of their places, the oldest first, each once. Of these
/// the first `done` are done.
///
/// All stay open for the same time, so they close in that order, and a turn looks at the first, and
/// at the first that is not done. They stand in a ring, of which no more is touched than is ever
/// open at once. Whether a message is open is read off a set, since most messages
/// are new or closed, and all that are open would have to be looked at.
#[derive(Drop)]
pub(crate) struct OpenMessages {
    entries: VecDeque<Open>,
    /// The same messages.
    members: MessageSet,
    done: usize,
    room: usize,
}

impl Model for OpenMessages {
    ghost Value = { RingParts };

    ghost view = { λ q. record {
      messages = record { items = placed_of q.entries.items; done = q.done; room = q.room; numbers = length q.members.origins };
      entries = q.entries.items;
    } };

    ghost invariant = { λ q. IsKept (placed_of q.entries.items) q.done q.room (deque_capacity q.entries) q.members };
}

impl OpenMessages {
    /// None are open, and `room` of them may be, whose numbers are below the other number.
    pub(crate) fn build(alloc: Global, room: usize, numbers: usize) -> Result<OpenMessages, Memory>
        ensures { IfOk result (λ queue. queue ≡ record { messages = record { items = []; done = 0; room = room; numbers = numbers }; entries = [] }) }
    {
        let entries = VecDeque::with_capacity(alloc, room)?;
        let members = MessageSet::build(alloc, numbers)?;
        Ok(OpenMessages {
            entries,
            members,
            done: 0,
            room,
        })
    }

    /// The data frame of a message was read in a slot, which comes after all places: the message is
    /// the last from now on, and not done.
    // A hint, since a run makes this call in one place. So is that of the next.
    #[inline(always)]
    pub(crate) fn place(&mut self, frame: &Frame, slot: Slot)
        requires number { frame.now.number < self.old.messages.numbers }
        requires room { length (without_key (message_in frame.now) self.old.messages.items) < self.old.messages.room }
        requires later { AllByRecursion (λ x. x.place < slot) self.old.messages.items }
        ensures messages { self.new.messages ≡ moved frame.now slot self.old.messages }
        ensures noted { IsNoted forgotten (message_in frame.now) self.old.entries self.new.entries }
    {
        let msg = MsgKey {
            origin: frame.node,
            seq: frame.number,
        };
        self.remove(&msg);
        self.members.insert(&msg);
        self.entries.push_back_reserved(Open {
            placed: Placed {
                frame: *frame,
                place: slot,
            },
            noted: Noted::nothing(),
        });
    }

    /// Removes a message, if it is there.
    #[inline(always)]
    fn remove(&mut self, msg: &MsgKey)
        ensures messages { self.new.messages ≡ is_removed msg.now self.old.messages }
        ensures noted { IsNoted forgotten msg.now self.old.entries self.new.entries }
    {
        if self.members.has(msg) {
            self.remove_open(msg);
        }
    }

    /// Removes a message, after a look at those from the newest to it.
    fn remove_open(&mut self, msg: &MsgKey)
        ensures messages { self.new.messages ≡ is_removed msg.now self.old.messages }
        ensures noted { IsNoted forgotten msg.now self.old.entries self.new.entries }
    {
        if let Some(index) = index_of(&self.entries, msg) {
            let _ = self.entries.remove(index);
            self.members.take_out(msg);
            if index < self.done {
                self.done -= 1;
            }
        }
    }

    /// The oldest message, if its place is this slot.
    pub(crate) fn oldest_at(&self, place: Slot) -> Option<Open>
        ensures oldest { option_map (λ e. e.placed.frame) result ≡ oldest_from place self.now.messages.items }
        ensures noted { IfSome result (λ e. e.noted ≡ noted_of self.now.entries (message_in e.placed.frame)) }
    {
        let oldest = item_at(&self.entries, 0)?;
        if oldest.placed.place != place {
            return None;
        }
        Some(oldest)
    }

    /// Removes the oldest message, of which this is the key.
    pub(crate) fn remove_oldest(&mut self, msg: &MsgKey)
        requires { IsIndexOf msg.now 0 self.old.messages.items }
        ensures messages { self.new.messages ≡ without_first self.old.messages }
        ensures noted { IsNoted forgotten msg.now self.old.entries self.new.entries }
    {
        let _ = self.entries.pop_front();
        self.members.take_out(msg);
        self.done = self.done.saturating_sub(1);
    }

    /// Counts a copy of a frame that accepts an open message, and gives what is noted then.
    pub(crate) fn count(&mut self, msg: &MsgKey) -> Noted
        requires { list_any (is_at msg.now) self.old.messages.items ≡ true }
        ensures now { result ≡ noted_of self.new.entries msg.now }
        ensures messages { self.new.messages ≡ self.old.messages }
        ensures noted { IsNoted with_copy msg.now self.old.entries self.new.entries }
    {
        let index = self.index(msg);
        let was = self.noted_at(msg, index);
        let noted = Noted {
            copies: was.copies.saturating_add(1),
            ..was
        };
        self.note(msg, index, noted);
        noted
    }

    /// The node's own transmission of a frame that accepts an open message was read.
    pub(crate) fn own(&mut self, msg: &MsgKey)
        requires { list_any (is_at msg.now) self.old.messages.items ≡ true }
        ensures messages { self.new.messages ≡ self.old.messages }
        ensures noted { IsNoted with_own msg.now self.old.entries self.new.entries }
    {
        let index = self.index(msg);
        let was = self.noted_at(msg, index);
        self.note(msg, index, Noted { owned: true, ..was });
    }

    /// The index of an open message.
    fn index(&self, msg: &MsgKey) -> usize
        requires { list_any (is_at msg.now) self.now.messages.items ≡ true }
        ensures { IsIndexOf msg.now result self.now.messages.items }
    {
        index_of(&self.entries, msg).unwrap_or(0)
    }

    /// What is noted of the message at an index.
    fn noted_at(&self, msg: &MsgKey, index: usize) -> Noted
        requires { IsIndexOf msg.now index self.now.messages.items }
        ensures { result ≡ noted_of self.now.entries msg.now }
    {
        self.entries[index].noted
    }

    /// Notes this of the message at an index, in place of what was noted.
    fn note(&mut self, msg: &MsgKey, index: usize, noted: Noted)
        requires { IsIndexOf msg.now index self.old.messages.items }
        ensures messages { self.new.messages ≡ self.old.messages }
        ensures noted { IsNoted (λ was. noted) msg.now self.old.entries self.new.entries }
    {
        let placed = self.entries[index].placed;
        self.entries[index] = Open { placed, noted };
    }

    /// The slot in whose turn the oldest message closes, or `Slot::MAX` where none is open.
    pub(crate) fn closing(&self, bound: Slot) -> Slot
        ensures { (slot : ℕ) → slot < result → bound ≤ slot → oldest_from (slot - bound) self.now.messages.items ≡ None }
    {
        match item_at(&self.entries, 0) {
            Some(oldest) => oldest.placed.place.saturating_add(bound),
            None => Slot::MAX,
        }
    }

    /// The first message that is not done, if there is one.
    pub(crate) fn first_open(&self) -> Option<Open>
        ensures first { option_map (λ e. e.placed.frame) result ≡ option_map (λ x. x.frame) (slice_get self.now.messages.items self.now.messages.done) }
        ensures noted { IfSome result (λ e. e.noted ≡ noted_of self.now.entries (message_in e.placed.frame)) }
    {
        item_at(&self.entries, self.done)
    }

    /// The first message that was not done is done.
    pub(crate) fn advance(&mut self)
        requires { self.old.messages.done < length self.old.messages.items }
        ensures { self.new ≡ record self.old { messages = record self.old.messages { done = self.old.messages.done + 1 } } }
    {
        self.done += 1;
    }

    /// Whether none are open.
    pub(crate) fn is_empty(&self) -> bool
        ensures { result ≡ true → self.now.messages.items ≡ [] }
    {
        self.entries.is_empty()
    }

    /// Whether a message is open.
    pub(crate) fn has(&self, msg: &MsgKey) -> bool
        ensures { result ≡ list_any (is_at msg.now) self.now.messages.items }
    {
        self.members.has(msg)
    }
}

/// The index of a message among these, looked for from the newest on, of which it mostly is one.
fn index_of(entries: &VecDeque<Open>, msg: &MsgKey) -> Option<usize>
    ensures found { IfSome result (λ index. IsIndexOf msg.now index (placed_of entries.now.items)) }
    ensures absent { IfNone result (list_any (is_at msg.now) (placed_of entries.now.items) ≡ false) }
{
    let mut left = entries.len();
    while left > 0 {
        if entries[left - 1].placed.is_at(msg) {
            return Some(left - 1);
        }
        left -= 1;
    }
    None
}

/// The message at an index of the ring, if there is one.
fn item_at(entries: &VecDeque<Open>, index: usize) -> Option<Open>
    ensures { result ≡ slice_get entries.now.items index }
{
    entries.get(index).copied()
}
