//! Which entry of an account is wrong.
ghost use Rattle.std.specs.Prelude.{◌≡◌, ◌+◌, ◌<◌, ◌≤◌, ◌||◌, ◌∷◌, ◌++◌, [], List, true, false, not, None, length, if◌then◌else◌, IfOk};
ghost use Rattle.std.specs.List.{list_any};
ghost use Rattle.std.specs.Option.{option_map_or};
ghost use Rattle.cany_base.specs.declared.log_entry.LogEntry.{LogEntry as AnyEntry};
ghost use Rattle.cany_model.specs.Promises.Entries.{delivers_key};
ghost use Rattle.cany_check.specs.Accounts.AccountFields.{log_parts};
ghost use Rattle.cany_check.specs.Deciding.Integrity as integrity;
ghost use Rattle.cany_check.specs.Deciding.Marks.{AreBelow, AreMarked};
ghost use Rattle.cany_check.specs.Accounts.Places.{AreNumbered};

use crate::account::Account;
use crate::account::entries::{entry_slot, is_delivery};
use crate::account::places::{Places, places_of};
use crate::account::record::{LogRecord, MessageRecord};
use crate::deciders::findings::EntryAt;
use cany_base::{LogEntry, Memory, MsgKey, Slot};
use std::alloc::Global;

/// Whether the message is what the entry delivers, and was sent by then.
fn was_sent_by_then(message: &MessageRecord, entry: &LogEntry) -> bool
    ensures { result ≡ integrity.was_sent_by_then entry.now message.now }
{
    match message.sent {
        Some(sent) => is_delivery(message, entry) && sent <= entry_slot(entry),
        None => false,
    }
}

/// Whether the entry, which delivers this key, delivers what an earlier one of its log does, or
/// what was not sent by then. If neither, the message is marked.
fn is_wrong_delivery(
    messages: &[MessageRecord],
    places: &Places<'_>,
    entry: &LogEntry,
    msg: MsgKey,
    number: usize,
    marks: &mut [usize],
) -> bool
    requires places { places.now ≡ messages.now }
    requires numbered { AreNumbered messages.now }
    requires count { length marks.old ≡ length messages.now }
    requires key { delivers_key msg entry.now ≡ true }
    ensures wrong { (earlier : List AnyEntry) → AreMarked messages.now number earlier marks.old
        → result ≡ (list_any (delivers_key msg) earlier || not (list_any (integrity.was_sent_by_then entry.now) messages.now)) }
    ensures marked { (earlier : List AnyEntry) → AreMarked messages.now number earlier marks.old
        → result ≡ false → AreMarked messages.now number (earlier ++ entry.now ∷ []) marks.new }
{
    match places.find(msg) {
        Some(place) => {
            let message = &messages[place];
            if marks[place] == number || !was_sent_by_then(message, entry) {
                return true;
            }
            marks[place] = number;
            false
        }
        None => true,
    }
}

/// Whether the entry is wrong after the earlier ones of its log. If it is not, and delivers a
/// message, the message is marked.
fn is_wrong(
    account: &Account<'_>,
    places: &Places<'_>,
    entry: &LogEntry,
    number: usize,
    marks: &mut [usize],
) -> bool
    requires places { places.now ≡ account.now.messages }
    requires count { length marks.old ≡ length account.now.messages }
    ensures wrong { (earlier : List AnyEntry) → AreMarked account.now.messages number earlier marks.old
        → result ≡ integrity.is_wrong account.now earlier entry.now }
    ensures marked { (earlier : List AnyEntry) → AreMarked account.now.messages number earlier marks.old
        → result ≡ false → AreMarked account.now.messages number (earlier ++ entry.now ∷ []) marks.new }
{
    let params = account.params();
    match *entry {
        LogEntry::Deliver { msg, .. } => {
            is_wrong_delivery(account.messages(), places, entry, msg, number, marks)
        }
        LogEntry::Failed { slot, node, cycle } => {
            node.get() >= params.nodes || u64::from(cycle) > slot / params.cycle
        }
        LogEntry::View { slot, number, .. } => u64::from(number) != slot / params.cycle,
    }
}

/// The place of the first wrong entry of a log.
fn first_wrong(
    account: &Account<'_>,
    places: &Places<'_>,
    entries: &[LogEntry],
    number: usize,
    marks: &mut [usize],
) -> Option<usize>
    requires places { places.now ≡ account.now.messages }
    requires marks { AreMarked account.now.messages number [] marks.old }
    ensures place { result ≡ integrity.first_wrong account.now [] entries.now }
    ensures marks { result ≡ None → AreMarked account.now.messages number entries.now marks.new }
{
    for i in 0..entries.len() {
        if is_wrong(account, places, &entries[i], number, marks) {
            return Some(i);
        }
    }
    None
}

/// The first wrong entry of a log, if it runs.
fn wrong_in(
    account: &Account<'_>,
    places: &Places<'_>,
    log: &LogRecord<'_>,
    number: usize,
    marks: &mut [usize],
) -> Option<EntryAt>
    requires places { places.now ≡ account.now.messages }
    requires marks { AreBelow account.now.messages number marks.old }
    ensures entry { result ≡ (if log.now.runs then integrity.wrong_in account.now (log_parts log.now) else None) }
    ensures marks { result ≡ None → AreBelow account.now.messages (number + 1) marks.new }
{
    if !log.runs {
        return None;
    }
    match first_wrong(account, places, log.entries, number, marks) {
        Some(place) => Some(EntryAt {
            node: log.node,
            place,
        }),
        None => None,
    }
}

/// The first wrong entry of the log of a correct node, with a mark for each message.
fn first_wrong_of(
    account: &Account<'_>,
    places: &Places<'_>,
    marks: &mut [usize],
) -> Option<EntryAt>
    requires places { places.now ≡ account.now.messages }
    requires marks { AreBelow account.now.messages 1 marks.old }
    ensures { result ≡ integrity.wrong_entry account.now }
{
    let logs = account.logs();
    for i in 0..logs.len() {
        let found = wrong_in(account, places, &logs[i], i + 1, marks);
        if found.is_some() {
            return found;
        }
    }
    None
}

/// The first wrong entry in the logs of correct nodes, by ascending node and then place. Wrong is a
/// second delivery of a message, or a delivery of what was not sent by then. So is a failure sign
/// of a node that is not there or of a cycle to come, and a view of another cycle. In the account
/// of a run there is none.
///
/// Promise: exactly the first wrong entry of the definition, by ascending node and then place.
///
/// Answers: `None` exactly where no entry of the log of a correct node is wrong.
///
/// Shown by: `an_account_is_judged`, `verdict_all_held`.
///
/// # Errors
///
/// `Memory`: out of memory.
pub fn wrong_entry(alloc: Global, account: &Account<'_>) -> Result<Option<EntryAt>, Memory>
    ensures { IfOk result (λ found. found ≡ integrity.wrong_entry account.now) }
{
    let messages = account.messages();
    let places = places_of(alloc, messages)?;
    let mut marks = vec![in alloc; 0usize; messages.len()]?;
    Ok(first_wrong_of(account, &places, marks.as_mut_slice()))
}
