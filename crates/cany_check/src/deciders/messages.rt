//! What became of the messages of an account.
ghost use Rattle.std.specs.Prelude.{◌≡◌, ℕ, Bool, Option, Some, length, map, IfOk};
ghost use Rattle.cany_check.specs.Deciding.Fates.{fate_by, message_fates, message_told};
ghost use Rattle.cany_check.specs.Deciding.Holders.{AreHolders, holders_in};
ghost use Rattle.cany_check.specs.Deciding.MessageSubjects.{delivers_at, place_named, since_at};
ghost use Rattle.cany_check.specs.Accounts.Words.{is_delivery, is_settled, since};

use crate::account::Account;
use crate::account::entries::is_delivery;
use crate::account::places::{Places, places_of};
use crate::account::record::MessageRecord;
use crate::deciders::findings::{Fate, Told};
use crate::deciders::holders::{Holders, Subjects, counting, holders_of};
use crate::deciders::told::{HasFate, told_of_all};
use cany_base::{LogEntry, Memory, NodeSet, Slot};
use std::alloc::Global;

/// The first slot that carried its data frame, or else its scripted slot.
fn since(message: &MessageRecord) -> Slot
    ensures { result ≡ since message.now }
{
    match message.carried {
        None => message.slot,
        Some(slots) => slots.first,
    }
}

/// The place of the message of which the entry has the key.
fn place_named(places: &Places<'_>, entry: &LogEntry) -> Option<usize>
    ensures { result ≡ place_named places.now entry.now }
{
    match entry {
        LogEntry::Deliver { msg, .. } => places.find(*msg),
        LogEntry::Failed { .. } => None,
        LogEntry::View { .. } => None,
    }
}

impl<'a> Subjects for Places<'a> {
    ghost number = { λ messages. length messages };

    ghost tells = { λ messages. delivers_at messages };

    ghost since = { λ messages. since_at messages };

    fn count(&self) -> usize {
        self.messages().len()
    }

    fn since(&self, index: usize) -> Option<Slot> {
        Some(since(&self.messages()[index]))
    }

    fn told_by(&self, entry: &LogEntry) -> Option<usize> {
        let messages = self.messages();
        match place_named(self, entry) {
            None => None,
            Some(place) => {
                if is_delivery(&messages[place], entry) {
                    Some(place)
                } else {
                    None
                }
            }
        }
    }
}

/// Whether nobody waits with the message or has it ahead, and its origin has not yet to ask for it.
fn is_settled(message: &MessageRecord) -> bool
    ensures { result ≡ is_settled message.now }
{
    !message.queued && message.waits.is_empty() && message.ahead.is_empty()
}

/// The fate of a message, where these of the nodes that count have it and those lack it, and its
/// origin counts or not.
fn fate(settled: bool, has: NodeSet, lacks: NodeSet, origin: bool) -> Fate
    ensures { result ≡ fate_by settled has lacks origin }
{
    if !settled {
        return Fate::Open;
    }
    if !lacks.is_empty() && (!has.is_empty() || origin) {
        return Fate::Apart;
    }
    if lacks.is_empty() && !has.is_empty() {
        return Fate::All;
    }
    Fate::Nobody
}

/// What is told of a message of the account, of which these are the holders.
fn told(account: &Account<'_>, message: &MessageRecord, holders: Holders) -> Told
    requires { holders ≡ holders_in (is_delivery message.now) (Some (since message.now)) account.now.logs }
    ensures { result ≡ message_told account.now message.now }
{
    let counting = counting(Some(since(message)), account.logs());
    let lacks = counting.minus(holders.has);
    let origin = counting.has(message.key.origin);
    Told {
        fate: fate(is_settled(message), holders.has, lacks, origin),
        has: holders.has,
        lacks,
        had: holders.had,
        slots: holders.slots,
    }
}

impl HasFate for MessageRecord {
    ghost held = { λ a m. holders_in (is_delivery m) (Some (since m)) a.logs };

    ghost told = { message_told };

    fn told(&self, account: &Account<'_>, holders: Holders) -> Told {
        told(account, self, holders)
    }
}

/// Who has each message of the account.
fn holders_of_messages(alloc: Global, account: &Account<'_>) -> Result<Vec<Holders>, Memory>
    ensures { IfOk result (λ holders. AreHolders (length account.now.messages) (delivers_at account.now.messages) (since_at account.now.messages) account.now.logs holders.items) }
{
    let places = places_of(alloc, account.messages())?;
    holders_of(alloc, &places, account.logs())
}

/// What is told of each message of the account, in its order.
///
/// Promise: exactly what the definition says of each message, in their order: its fate, the nodes
/// that have it, lack it or had it, and the first and last slot of its deliveries.
///
/// Shown by: `an_account_is_judged`, `verdict_order_is_parted`,
/// `verdict_delivered_by_a_stopped_node`, `verdict_messages_are_open`, `the_origin_does_not_count`,
/// `a_stopped_node_counts`, `a_late_node_counts`, `open_counts_as_settled`.
///
/// # Errors
///
/// `Memory`: out of memory.
pub fn message_fates(alloc: Global, account: &Account<'_>) -> Result<Vec<Told>, Memory>
    ensures { IfOk result (λ told. told.items ≡ message_fates account.now) }
{
    let holders = holders_of_messages(alloc, account)?;
    told_of_all(alloc, account, account.messages(), holders.as_slice())
}
