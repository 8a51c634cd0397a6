//! Which nodes have what the entries of logs tell of, found in one pass over the logs.
ghost use Rattle.std.specs.Prelude.{◌≡◌, ◌<◌, ◌++◌, ℕ, Bool, List, [], ◌∷◌, Option, None, filter, length, map, replicate, IfOk};
ghost use Rattle.cany_base.specs.Nodes.{nobody};
ghost use Rattle.cany_base.specs.declared.log_entry.LogEntry.{LogEntry as Entry};
ghost use Rattle.cany_check.specs.Accounts.Account.{LogParts};
ghost use Rattle.cany_check.specs.Accounts.AccountFields.{log_parts};
ghost use Rattle.cany_check.specs.Deciding.Holders.{AreHolders, IsOnly, log_with, counts_since, no_holders, with_entry};
ghost use Rattle.cany_check.specs.Accounts.Words.{nodes_of};

use crate::account::entries::{entry_slot, with_slot};
use crate::account::record::{FirstAndLast, LogRecord};
use cany_base::{LogEntry, Memory, NodeSet, Slot};
use std::alloc::Global;

/// What entries of logs tell of, each under an index: messages, failure signs, or failed nodes.
pub(crate) trait Subjects {
    ghost use Rattle.cany_base.specs.declared.log_entry.LogEntry.{LogEntry};

    /// How many there are.
    ghost number: { Self → ℕ };

    /// Whether the entry tells of the one at the index.
    ghost tells: { Self → ℕ → LogEntry → Bool };

    /// The slot since which a node has to take part to count for it, if there is one.
    ghost since: { Self → ℕ → Option ℕ };

    fn count(&self) -> usize
        ensures { result ≡ number self.now };

    fn since(&self, index: usize) -> Option<Slot>
        requires { index < number self.now }
        ensures { result ≡ since self.now index };

    /// The index of the one that the entry tells of, if it tells of one.
    fn told_by(&self, entry: &LogEntry) -> Option<usize>
        ensures { IsOnly (number self.now) (λ index. tells self.now index entry.now) result };
}

/// Who has what entries tell of.
#[derive(Clone, Copy)]
pub(crate) struct Holders {
    /// The nodes that count for it and whose logs tell of it.
    pub has: NodeSet,
    /// The nodes of which some log tells of it.
    pub had: NodeSet,
    /// The slots of the entries that tell of it in the logs of those that count.
    pub slots: Option<FirstAndLast>,
}

/// Whether the node of the log counts, where it has to take part since this slot.
fn counts(since: Option<Slot>, log: &LogRecord<'_>) -> bool
    ensures { result ≡ counts_since since (log_parts log.now) }
{
    if !log.runs {
        return false;
    }
    match since {
        None => true,
        Some(slot) => log.from <= slot,
    }
}

/// The nodes of these logs that count.
pub(crate) fn counting(since: Option<Slot>, logs: &[LogRecord<'_>]) -> NodeSet
    ensures { result ≡ nodes_of (filter (counts_since since) (map log_parts logs.now)) }
{
    let mut nodes = NodeSet::empty();
    for i in 0..logs.len() {
        if counts(since, &logs[i]) {
            nodes.insert(logs[i].node);
        }
    }
    nodes
}

/// The holders so far, with an entry of this slot that the log has.
fn with_entry(so_far: Holders, since: Option<Slot>, log: &LogRecord<'_>, slot: Slot) -> Holders
    ensures { result ≡ with_entry so_far since (log_parts log.now) slot }
{
    let mut holders = so_far;
    holders.had.insert(log.node);
    if counts(since, log) {
        holders.has.insert(log.node);
        holders.slots = with_slot(so_far.slots, slot);
    }
    holders
}

/// Takes one more entry of the log into account.
fn add_entry<S: Subjects>(
    subjects: &S,
    holders: &mut [Holders],
    log: &LogRecord<'_>,
    entry: &LogEntry,
)
    requires { length holders.old ≡ S.number subjects.now }
    ensures { (before : List LogParts) (entries : List Entry) →
        AreHolders (S.number subjects.now) (S.tells subjects.now) (S.since subjects.now) (before ++ log_with (log_parts log.now) entries ∷ []) holders.old
        → AreHolders (S.number subjects.now) (S.tells subjects.now) (S.since subjects.now) (before ++ log_with (log_parts log.now) (entries ++ entry.now ∷ []) ∷ []) holders.new }
{
    match subjects.told_by(entry) {
        Some(index) => {
            let since = subjects.since(index);
            holders[index] = with_entry(holders[index], since, log, entry_slot(entry));
        }
        None => {}
    }
}

/// Takes one more log into account.
fn add_log<S: Subjects>(subjects: &S, holders: &mut [Holders], log: &LogRecord<'_>)
    requires { length holders.old ≡ S.number subjects.now }
    ensures { (before : List LogParts) →
        AreHolders (S.number subjects.now) (S.tells subjects.now) (S.since subjects.now) before holders.old
        → AreHolders (S.number subjects.now) (S.tells subjects.now) (S.since subjects.now) (before ++ log_parts log.now ∷ []) holders.new }
{
    for entry in log.entries {
        add_entry(subjects, holders, log, entry);
    }
}

/// Of each subject who has it by these logs.
pub(crate) fn holders_of<S: Subjects>(
    alloc: Global,
    subjects: &S,
    logs: &[LogRecord<'_>],
) -> Result<Vec<Holders>, Memory>
    ensures { IfOk result (λ holders. AreHolders (S.number subjects.now) (S.tells subjects.now) (S.since subjects.now) (map log_parts logs.now) holders.items) }
{
    let nobody = Holders {
        has: NodeSet::empty(),
        had: NodeSet::empty(),
        slots: None,
    };
    let mut holders = vec![in alloc; nobody; subjects.count()]?;
    for i in 0..logs.len() {
        add_log(subjects, &mut holders, &logs[i]);
    }
    Ok(holders)
}
