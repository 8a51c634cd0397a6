//! The slots in which messages were sent and carried, found in one pass over the trace.
ghost use Rattle.std.specs.Prelude.{◌≡◌, ◌∷◌, List, length, map, reverse, Some, IfOk};
ghost use Rattle.cany_base.specs.declared.slot_note.SlotNote.{SlotNote as AnyNote};
ghost use Rattle.cany_model.specs.Bus.Frames.{is_of, same_frame};
ghost use Rattle.cany_model.specs.Bus.Slot.{carried};
ghost use Rattle.cany_check.specs.Accounts.Places.{AreNumbered};
ghost use Rattle.cany_check.specs.Accounts.Records.{message_slots, record_frame, record_id, sends_record, slots_after, with_last};

use crate::account::places::{Places, places_of};
use crate::account::record::{FirstAndLast, MessageRecord};
use cany_base::{Frame, Memory, MsgKey, Slot, SlotNote};
use std::alloc::Global;

/// The slots of a message, as its record has them.
#[derive(Clone, Copy)]
pub(crate) struct MessageSlots {
    pub(crate) sent: Option<Slot>,
    pub(crate) carried: Option<FirstAndLast>,
}

/// The slots with a later one.
pub(crate) fn with_last(slots: Option<FirstAndLast>, slot: Slot) -> Option<FirstAndLast>
    ensures { result ≡ with_last slots slot }
{
    let first = match slots {
        None => slot,
        Some(slots) => slots.first,
    };
    Some(FirstAndLast { first, last: slot })
}

/// Whether the frame has the identity of the data frame of the message.
#[tactic(auto, unfolding(cany_model::specs::Bus::Frames::same_identity, cany_model::specs::Bus::Frames::same_class))]
fn is_of(message: &MessageRecord, frame: &Frame) -> bool
    ensures { result ≡ is_of (record_id message.now) frame.now }
{
    message.service.class() == frame.class
        && message.key.seq == frame.number
        && message.key.origin == frame.node
}

/// Whether it is that frame, payload included.
#[tactic(auto, unfolding(cany_model::specs::Bus::Frames::same_frame))]
fn is_data(message: &MessageRecord, frame: &Frame) -> bool
    ensures { result ≡ same_frame (record_frame message.now) frame.now }
{
    is_of(message, frame) && frame.inc == 0 && message.payload == frame.payload
}

/// Whether the slot carried that frame with the origin of the message among the senders.
fn sends(message: &MessageRecord, note: &SlotNote) -> bool
    ensures { result ≡ sends_record message.now note.now }
{
    match note.frame {
        Some(frame) => is_data(message, &frame) && note.senders.has(message.key.origin),
        None => false,
    }
}

/// Whether the slot carried a frame of that identity.
fn carries(message: &MessageRecord, note: &SlotNote) -> bool
    ensures { result ≡ carried (is_of (record_id message.now)) note.now }
{
    match note.frame {
        Some(frame) => is_of(message, &frame),
        None => false,
    }
}

/// The slots of the message, after one more slot.
fn slots_after(message: &MessageRecord, note: &SlotNote, slots: MessageSlots) -> MessageSlots
    ensures { result ≡ slots_after message.now note.now slots }
{
    let mut after = slots;
    if after.sent.is_none() && sends(message, note) {
        after.sent = Some(note.slot);
    }
    if carries(message, note) {
        after.carried = with_last(after.carried, note.slot);
    }
    after
}

/// The slots of the messages, after one more slot.
fn go_over(
    note: &SlotNote,
    messages: &[MessageRecord],
    places: &Places<'_>,
    slots: &mut [MessageSlots],
)
    requires places { places.now ≡ messages.now }
    requires count { length slots.old ≡ length messages.now }
    requires numbered { AreNumbered messages.now }
    ensures { (trace : List AnyNote) → slots.old ≡ map (message_slots trace) messages.now → slots.new ≡ map (message_slots (note.now ∷ trace)) messages.now }
{
    if let Some(frame) = note.frame {
        let key = MsgKey {
            origin: frame.node,
            seq: frame.number,
        };
        if let Some(place) = places.find(key) {
            slots[place] = slots_after(&messages[place], note, slots[place]);
        }
    }
}

/// The slots of the messages in a run with this trace, oldest slot first.
pub(crate) fn slots_of_messages(
    alloc: Global,
    trace: &[SlotNote],
    messages: &[MessageRecord],
) -> Result<Vec<MessageSlots>, Memory>
    requires { AreNumbered messages.now }
    ensures { IfOk result (λ slots. slots.items ≡ map (message_slots (reverse trace.now)) messages.now) }
{
    let places = places_of(alloc, messages)?;
    let none = MessageSlots {
        sent: None,
        carried: None,
    };
    let mut slots = vec![in alloc; none; messages.len()]?;
    for i in 0..trace.len() {
        go_over(&trace[i], messages, &places, slots.as_mut_slice());
    }
    Ok(slots)
}
