//! Which nodes of an account were taken for failed, of those that ran all the time.
ghost use Rattle.std.specs.Prelude.{◌≡◌, ◌&&◌, if◌then◌else◌, length, None, IfOk};
ghost use Rattle.cany_base.specs.Limits.{most_nodes};
ghost use Rattle.cany_check.specs.Accounts.Account.{AccountParts};
ghost use Rattle.cany_check.specs.Accounts.AccountFields.{log_parts};
ghost use Rattle.cany_check.specs.Deciding.Accuracy.{accusation_of, accusations, is_failure_of};
ghost use Rattle.cany_check.specs.Deciding.Holders.{AreHolders, since_ever};
ghost use Rattle.cany_check.specs.Accounts.Words.{takes_part};

use crate::account::Account;
use crate::account::record::LogRecord;
use crate::deciders::findings::Accusation;
use crate::deciders::holders::{Holders, Subjects, holders_of};
use cany_base::{LogEntry, Memory, NodeId, Slot};
use std::alloc::Global;

/// The nodes that there can be, as what entries take for failed.
struct FailedNodes;

impl Subjects for FailedNodes {
    ghost number = { λ nodes. most_nodes };

    ghost tells = { λ nodes. is_failure_of };

    ghost since = { λ nodes. since_ever };

    fn count(&self) -> usize {
        usize::from(NodeId::COUNT)
    }

    fn since(&self, _index: usize) -> Option<Slot> {
        None
    }

    fn told_by(&self, entry: &LogEntry) -> Option<usize> {
        match entry {
            LogEntry::Failed { node, .. } => Some(usize::from(node.get())),
            LogEntry::Deliver { .. } => None,
            LogEntry::View { .. } => None,
        }
    }
}

/// The accusation of the node of a log, if there is one, where these are the accusers of each node.
fn accusation_of(accusers: &[Holders], log: &LogRecord<'_>) -> Option<Accusation>
    requires { length accusers.now ≡ most_nodes }
    ensures { (a : AccountParts) → AreHolders most_nodes is_failure_of since_ever a.logs accusers.now → result ≡ accusation_of a (log_parts log.now) }
{
    let accusers = accusers[usize::from(log.node.get())];
    match accusers.slots {
        None => None,
        Some(slots) => Some(Accusation {
            node: log.node,
            by: accusers.has,
            first: slots.first,
        }),
    }
}

/// The accusation of the node of a log, if it ran all the time and there is one.
fn judged_accusation(accusers: &[Holders], log: &LogRecord<'_>) -> Option<Accusation>
    requires { length accusers.now ≡ most_nodes }
    ensures { (a : AccountParts) → AreHolders most_nodes is_failure_of since_ever a.logs accusers.now
        → result ≡ (if log.now.runs && takes_part 0 (log_parts log.now) then accusation_of a (log_parts log.now) else None) }
{
    if log.runs && log.from == 0 {
        return accusation_of(accusers, log);
    }
    None
}

/// The nodes that ran all the time and were taken for failed, ascending, where these are the
/// accusers of each node.
fn accusations_by(
    alloc: Global,
    accusers: &[Holders],
    account: &Account<'_>,
) -> Result<Vec<Accusation>, Memory>
    requires { AreHolders most_nodes is_failure_of since_ever account.now.logs accusers.now }
    ensures { IfOk result (λ found. found.items ≡ accusations account.now) }
{
    let logs = account.logs();
    let mut found = Vec::new(alloc);
    for i in 0..logs.len() {
        match judged_accusation(accusers, &logs[i]) {
            Some(accusation) => found.push(accusation)?,
            None => {}
        }
    }
    Ok(found)
}

/// The nodes that ran all the time and were taken for failed, ascending.
///
/// Promise: exactly the accusations of the definition, ascending: of each node that ran all the
/// time and was taken for failed, the accusers and the first slot.
///
/// Shown by: `an_account_is_judged`, `verdict_views_are_apart`.
///
/// # Errors
///
/// `Memory`: out of memory.
pub fn accusations(alloc: Global, account: &Account<'_>) -> Result<Vec<Accusation>, Memory>
    ensures { IfOk result (λ found. found.items ≡ accusations account.now) }
{
    let accusers = holders_of(alloc, &FailedNodes, account.logs())?;
    accusations_by(alloc, accusers.as_slice(), account)
}
