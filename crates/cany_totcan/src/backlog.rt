ghost use Rattle.std.specs.Prelude.{◌≡◌, ℕ, ◌<◌, ◌++◌, ◌&&◌, ◌||◌, [], ◌∷◌, None, Some, count_by, false, length, replicate, slice_set, IfOk};
ghost use Rattle.cany_model.specs.Rules.Messages.{is_from};
ghost use Rattle.cany_totcan.specs.Backlog.{after_next, blank, is_asked, is_free, is_past, next_given, own_at};

use cany_base::{BoundedVec, Memory, NodeId, Payload, Scenario, Slot};
use std::alloc::Global;
use std::marker::Model;

/// A message of the node that it was given to send.
#[derive(Clone, Copy)]
pub(crate) struct Given {
    pub(crate) seq: u16,
    pub(crate) payload: Payload,
}

/// What became of a message of the node.
#[derive(Clone, Copy)]
pub(crate) struct OwnMessage {
    /// Its data frame was asked for.
    pub(crate) asked: bool,
    /// The node has read its own transmission of the data frame.
    pub(crate) sent: bool,
    /// The slot in which the node got or sent the data frame last.
    pub(crate) place: Option<Slot>,
}

/// The messages that a node was given to send, how many of them were asked for, and what became of
/// each of its messages.
#[derive(Drop)]
pub(crate) struct Backlog {
    given: BoundedVec<Given>,
    asked: usize,
    /// By sequence number: all messages of the node, whatever their service.
    own: BoundedVec<OwnMessage>,
}

impl Model for Backlog {
    ghost use Rattle.cany_totcan.specs.Backlog.{BacklogParts, IsKept};

    ghost Value = { BacklogParts };

    ghost view = { λ b. record { given = b.given.items; room = b.given.room; asked = b.asked; own = b.own.items } };

    ghost invariant = { λ b. IsKept b.given.items b.asked b.own.items };
}

impl OwnMessage {
    /// Nothing became of it yet.
    fn blank() -> OwnMessage
        ensures { result ≡ blank }
    {
        OwnMessage {
            asked: false,
            sent: false,
            place: None,
        }
    }
}

impl Backlog {
    /// Nothing was given, and there is room for all messages of the node.
    pub(crate) fn build(alloc: Global, node: NodeId, scenario: &Scenario) -> Result<Backlog, Memory>
        ensures { IfOk result (λ backlog. let own = count_by (is_from node) scenario.now.sends in
            backlog ≡ record { given = []; room = own; asked = 0; own = replicate own blank }) }
    {
        let room = count_of(node, scenario);
        let given = BoundedVec::build(alloc, room)?;
        let mut own = BoundedVec::build(alloc, room)?;
        for _ in 0..room {
            own.push(OwnMessage::blank());
        }
        Ok(Backlog {
            given,
            asked: 0,
            own,
        })
    }

    /// A message is given to be sent after those before it.
    pub(crate) fn give(&mut self, seq: u16, payload: Payload)
        requires room { length self.old.given < self.old.room }
        requires own { seq < length self.old.own }
        ensures { self.new ≡ record self.old { given = self.old.given ++ record { seq = seq; payload = payload } ∷ [] } }
    {
        self.given.push(Given { seq, payload });
    }

    /// The data frame of a message was read in a slot: the node got it, or sent it itself.
    pub(crate) fn note(&mut self, seq: u16, slot: Slot, is_sent: bool)
        requires { seq < length self.old.own }
        ensures { let was = own_at self.old.own seq in
            self.new ≡ record self.old { own = slice_set self.old.own seq (record was { sent = is_sent || was.sent; place = Some slot }) } }
    {
        let place = usize::from(seq);
        let was = self.own.get(place);
        self.own.set(
            place,
            OwnMessage {
                sent: is_sent || was.sent,
                place: Some(slot),
                ..was
            },
        );
    }

    /// Whether the node has read its own transmission of a message.
    pub(crate) fn is_sent(&self, seq: u16) -> bool
        requires { seq < length self.now.own }
        ensures { result ≡ (own_at self.now.own seq).sent }
    {
        self.own.get(usize::from(seq)).sent
    }

    /// Takes the next message that is to be asked for in the turn of a slot, if there is one. The
    /// last one that was asked for must have been sent, and its place lie `spacing` slots back.
    pub(crate) fn next(&mut self, now: Slot, spacing: Slot) -> Option<Given>
        ensures next { result ≡ next_given now spacing self.old }
        ensures after { self.new ≡ after_next now spacing self.old }
    {
        if self.asked >= self.given.len() || !self.is_free(now, spacing) {
            return None;
        }
        let given = self.given.get(self.asked);
        let place = usize::from(given.seq);
        let was = self.own.get(place);
        self.own.set(place, OwnMessage { asked: true, ..was });
        self.asked += 1;
        Some(given)
    }

    /// The first slot in whose turn `next` may find a message, if nothing is read or given before
    /// it: `Slot::MAX` where none is left, or the last one that was asked for was not sent.
    pub(crate) fn wake(&self, spacing: Slot) -> Slot
        ensures { (now : ℕ) → now < result → next_given now spacing self.now ≡ None }
    {
        if self.asked >= self.given.len() {
            return Slot::MAX;
        }
        if self.asked == 0 {
            return 0;
        }
        let last = self.last_asked();
        if last.sent {
            past_from(last.place, spacing)
        } else {
            Slot::MAX
        }
    }

    /// Whether another message may be asked for after the last one.
    fn is_free(&self, now: Slot, spacing: Slot) -> bool
        ensures { result ≡ is_free now spacing self.now }
    {
        if self.asked == 0 {
            return true;
        }
        let last = self.last_asked();
        last.sent && is_past(last.place, now, spacing)
    }

    /// What became of the last message that was asked for.
    fn last_asked(&self) -> OwnMessage
        requires { 0 < self.now.asked }
        ensures { (now spacing : ℕ) → is_free now spacing self.now ≡ (result.sent && is_past now spacing result.place) }
    {
        let last = self.given.get(self.asked - 1);
        self.own.get(usize::from(last.seq))
    }

    /// Whether the data frame of a message was asked for.
    pub(crate) fn is_asked(&self, seq: u16) -> bool
        ensures { result ≡ is_asked self.now.own seq }
    {
        let place = usize::from(seq);
        place < self.own.len() && self.own.get(place).asked
    }
}

/// Whether this number of slots has passed since a place, in the turn of a slot.
fn is_past(place: Option<Slot>, now: Slot, slots: Slot) -> bool
    ensures { result ≡ is_past now slots place }
{
    match place {
        Some(place) => now >= place && now - place >= slots,
        None => true,
    }
}

/// The first slot in whose turn this number of slots has passed since a place.
fn past_from(place: Option<Slot>, slots: Slot) -> Slot
    ensures { (now : ℕ) → now < result → is_past now slots place ≡ false }
{
    match place {
        Some(place) => place.saturating_add(slots),
        None => 0,
    }
}

/// How many scripted sends are of the node.
fn count_of(node: NodeId, scenario: &Scenario) -> usize
    ensures { result ≡ count_by (is_from node) scenario.now.sends }
{
    scenario.sends_of(node)
}
