//! Whether correct nodes delivered in one order.
//!
//! One list of reference is enough: the nodes are compared with it in the order in which they came
//! to take part, and what a node has beyond it is appended.
ghost use Rattle.std.specs.Prelude.{◌≡◌, ◌≤◌, [], ◌∷◌, drop, length, map, nat_le, option_map, slice_get, true, IfOk, List, None, Some};
ghost use Rattle.cany_check.specs.declared.deciders.findings.Parting.{Parting as AnyParting};
ghost use Rattle.cany_check.specs.declared.deciders.order.Item.{Item as AnyItem};
ghost use Rattle.cany_check.specs.Accounts.Account.{LogParts};
ghost use Rattle.cany_check.specs.Accounts.AccountFields.{log_parts};
ghost use Rattle.cany_check.specs.Deciding.Meeting.{ClashesBy, GoesOn, entry_items};
ghost use Rattle.cany_check.specs.Deciding.NodeOrder.{AreAt, HasPlaces};
ghost use Rattle.cany_check.specs.Deciding.OneOrder.{parting};
ghost use Rattle.cany_check.specs.Accounts.Places.{AreNumbered};
ghost use Rattle.cany_check.specs.Deciding.Reference.{clash, cut, first_clash, first_slot, item_in, items_of, parting_at, with_items};
ghost use Rattle.cany_check.specs.Accounts.Words.{same_key};

use crate::account::Account;
use crate::account::entries::is_service;
use crate::account::places::{Places, places_of};
use crate::account::record::{LogRecord, MessageRecord};
use crate::deciders::findings::{Delivery, Parting};
use crate::deciders::node_order::by_from;
use cany_base::{LogEntry, Memory, MsgKey, NodeId, Service, Slot};
use std::alloc::Global;

/// What a node delivered by TOTCAN, in which slot, and the first slot that carried it.
#[derive(Clone, Copy)]
struct Item {
    msg: MsgKey,
    slot: Slot,
    node: NodeId,
    carried: Slot,
}

/// How far a node has been compared with the list of reference.
#[derive(Clone, Copy)]
struct Cursor {
    /// The place in the list of the first item that is not compared yet.
    next: usize,
    /// How many items were compared.
    place: usize,
}

/// The first slot that carried the message of this key, if there is one.
fn first_slot(messages: &[MessageRecord], places: &Places<'_>, key: &MsgKey) -> Option<Slot>
    requires { places.now ≡ messages.now }
    ensures { result ≡ first_slot messages.now key.now }
{
    let place = places.find(*key)?;
    let slots = messages[place].carried?;
    Some(slots.first)
}

/// The item of an entry of the node's log, if it delivers by TOTCAN what was carried.
fn item_in(
    messages: &[MessageRecord],
    places: &Places<'_>,
    node: NodeId,
    entry: &LogEntry,
) -> Option<Item>
    requires { places.now ≡ messages.now }
    ensures { result ≡ item_in messages.now node entry.now }
{
    match entry {
        LogEntry::Deliver {
            slot,
            service,
            msg,
            ..
        } => {
            if !is_service(*service, Service::Tot) {
                return None;
            }
            let carried = first_slot(messages, places, msg)?;
            Some(Item {
                msg: *msg,
                slot: *slot,
                node,
                carried,
            })
        }
        LogEntry::Failed { .. } => None,
        LogEntry::View { .. } => None,
    }
}

/// The place of the first item, from this place on, of what was first carried in this slot or
/// later.
fn place_from(reference: &[Item], next: usize, from: Slot) -> usize
    requires { next ≤ length reference.now }
    ensures within { result ≤ length reference.now }
    ensures after { next ≤ result }
    ensures rest { cut from (drop result reference.now) ≡ cut from (drop next reference.now) }
    ensures later { (item : AnyItem) → slice_get reference.now result ≡ Some item → nat_le from item.carried ≡ true }
{
    for i in next..reference.len() {
        if from <= reference[i].carried {
            return i;
        }
    }
    reference.len()
}

/// Whether both are of one message.
fn is_same(here: &Item, there: &Item) -> bool
    ensures { result ≡ same_key here.now.msg there.now.msg }
{
    here.msg.origin.get() == there.msg.origin.get() && here.msg.seq == there.msg.seq
}

/// That two nodes part at this place, by what they have there.
fn parting_at(place: usize, here: &Item, there: &Item) -> Parting
    ensures { result ≡ parting_at (record { place = place; here = here.now; there = there.now }) }
{
    Parting {
        first: here.node,
        second: there.node,
        place,
        here: Delivery {
            msg: here.msg,
            slot: here.slot,
        },
        there: Delivery {
            msg: there.msg,
            slot: there.slot,
        },
    }
}

/// Compares the next item of a node that takes part since this slot with the list, or appends it.
fn meet(
    reference: &mut Vec<Item>,
    cursor: &mut Cursor,
    from: Slot,
    item: &Item,
) -> Result<Option<Parting>, Memory>
    requires within { cursor.old.next ≤ length reference.old.items }
    requires behind { cursor.old.place ≤ cursor.old.next }
    ensures on { IfOk result (λ found. found ≡ None → GoesOn from (item.now ∷ []) cursor.old cursor.new reference.old.items reference.new.items) }
    ensures off { IfOk result (λ found. (p : AnyParting) → found ≡ Some p → ClashesBy from (item.now ∷ []) cursor.old reference.old.items p) }
{
    let at = place_from(reference.as_slice(), cursor.next, from);
    if at == reference.len() {
        reference.push(*item)?;
    } else if !is_same(&reference[at], item) {
        return Ok(Some(parting_at(cursor.place, &reference[at], item)));
    }
    cursor.next = at + 1;
    cursor.place += 1;
    Ok(None)
}

/// Compares what an entry of the log delivers with the list of reference, or appends it.
fn meet_entry(
    reference: &mut Vec<Item>,
    cursor: &mut Cursor,
    messages: &[MessageRecord],
    places: &Places<'_>,
    log: &LogRecord<'_>,
    entry: &LogEntry,
) -> Result<Option<Parting>, Memory>
    requires places { places.now ≡ messages.now }
    requires within { cursor.old.next ≤ length reference.old.items }
    requires behind { cursor.old.place ≤ cursor.old.next }
    ensures on { IfOk result (λ found. found ≡ None
        → GoesOn log.now.from (entry_items messages.now (log_parts log.now) entry.now) cursor.old cursor.new reference.old.items reference.new.items) }
    ensures off { IfOk result (λ found. (p : AnyParting) → found ≡ Some p
        → ClashesBy log.now.from (entry_items messages.now (log_parts log.now) entry.now) cursor.old reference.old.items p) }
{
    match item_in(messages, places, log.node, entry) {
        None => Ok(None),
        Some(item) => {
            if item.carried < log.from {
                return Ok(None);
            }
            meet(reference, cursor, log.from, &item)
        }
    }
}

/// Compares a node with the list of reference, and appends what it has beyond it.
fn compare(
    reference: &mut Vec<Item>,
    messages: &[MessageRecord],
    places: &Places<'_>,
    log: &LogRecord<'_>,
) -> Result<Option<Parting>, Memory>
    requires { places.now ≡ messages.now }
    ensures found { IfOk result (λ found. found ≡ option_map parting_at (clash 0 (cut log.now.from reference.old.items) (items_of messages.now (log_parts log.now)))) }
    ensures on { IfOk result (λ found. found ≡ None
        → reference.new.items ≡ with_items log.now.from (items_of messages.now (log_parts log.now)) reference.old.items) }
{
    let mut cursor = Cursor { next: 0, place: 0 };
    for entry in log.entries {
        let found = meet_entry(reference, &mut cursor, messages, places, log, entry)?;
        if found.is_some() {
            return Ok(found);
        }
    }
    Ok(None)
}

/// The first of the nodes whose logs stand at these places, in this order, that differs from the
/// list of reference and from what those before it appended, and where.
fn first_clash(
    reference: &mut Vec<Item>,
    messages: &[MessageRecord],
    places: &Places<'_>,
    logs: &[LogRecord<'_>],
    order: &[usize],
) -> Result<Option<Parting>, Memory>
    requires messages { places.now ≡ messages.now }
    requires places { HasPlaces (map log_parts logs.now) order.now }
    ensures { (sorted : List LogParts) → AreAt (map log_parts logs.now) order.now sorted
        → IfOk result (λ found. found ≡ option_map parting_at (first_clash messages.now reference.old.items sorted)) }
{
    for i in 0..order.len() {
        let found = compare(reference, messages, places, &logs[order[i]])?;
        if found.is_some() {
            return Ok(found);
        }
    }
    Ok(None)
}

/// The first of the nodes whose logs stand at these places, in this order, that differs from what
/// those before it delivered, and where.
fn first_parting(
    alloc: Global,
    messages: &[MessageRecord],
    logs: &[LogRecord<'_>],
    order: &[usize],
) -> Result<Option<Parting>, Memory>
    requires numbered { AreNumbered messages.now }
    requires places { HasPlaces (map log_parts logs.now) order.now }
    ensures { (sorted : List LogParts) → AreAt (map log_parts logs.now) order.now sorted
        → IfOk result (λ found. found ≡ option_map parting_at (first_clash messages.now [] sorted)) }
{
    let places = places_of(alloc, messages)?;
    let mut reference = Vec::new(alloc);
    first_clash(&mut reference, messages, &places, logs, order)
}

/// Where two correct nodes part, if two do: of the messages first carried since both take part.
///
/// The second node is the first that parts from one before it, in the order in which the nodes came
/// to take part. The first node is the first that it parts from.
///
/// Promise: exactly the witness of the definition.
///
/// Answers: `None` exactly where no two correct nodes part.
///
/// Shown by: `an_account_is_broken`, `verdict_order_is_parted`, `verdict_order_since_a_restart`,
/// `order_is_never_cut`, `order_of_neighbours`.
///
/// # Errors
///
/// `Memory`: out of memory.
pub fn parting(alloc: Global, account: &Account<'_>) -> Result<Option<Parting>, Memory>
    ensures { IfOk result (λ found. found ≡ parting account.now) }
{
    let order = by_from(alloc, account.logs())?;
    first_parting(alloc, account.messages(), account.logs(), order.as_slice())
}
