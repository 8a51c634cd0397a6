//! What became of the failure signs of an account.
ghost use Rattle.std.specs.Prelude.{◌≡◌, not, is_none, length, IfOk};
ghost use Rattle.cany_base.specs.Nodes.{is_nobody};
ghost use Rattle.cany_check.specs.Deciding.Fates.{sign_fate_by, sign_fates, sign_told};
ghost use Rattle.cany_check.specs.Deciding.Holders.{IsOnly, holders_in};
ghost use Rattle.cany_check.specs.Deciding.SignSubjects.{DoAscend, names_at, sign_since, sign_since_at, tells_at};
ghost use Rattle.cany_check.specs.Accounts.Words.{tells_sign};

use crate::account::Account;
use crate::account::record::SignRecord;
use crate::deciders::findings::{Fate, Told};
use crate::deciders::holders::{Holders, Subjects, counting, holders_of};
use crate::deciders::told::{HasFate, told_of_all};
use cany_base::{LogEntry, Memory, NodeId, NodeSet, Slot};
use std::alloc::Global;
use std::marker::Model;

/// The signs of an account, by ascending cycle and then node.
#[derive(Drop)]
struct Signs<'a> {
    signs: &'a [SignRecord],
}

impl<'a> Model for Signs<'a> {
    ghost use Rattle.std.specs.Prelude.{List};
    ghost use Rattle.cany_check.specs.declared.account.record.SignRecord.{SignRecord};
    ghost use Rattle.cany_check.specs.Deciding.SignSubjects.{DoAscend};

    ghost Value = { List SignRecord };

    ghost view = { λ v. v.signs.now };

    ghost invariant = { λ v. DoAscend v.signs.now };
}

/// The first slot that carried the frame of the sign, if there is one.
fn since(sign: &SignRecord) -> Option<Slot>
    ensures { result ≡ sign_since sign.now }
{
    match sign.carried {
        None => None,
        Some(slots) => Some(slots.first),
    }
}

/// The index of the sign of a node and a cycle.
fn index_of(signs: &[SignRecord], node: NodeId, cycle: u16) -> Option<usize>
    requires { DoAscend signs.now }
    ensures { IsOnly (length signs.now) (λ index. names_at signs.now index node cycle) result }
{
    match signs.binary_search_by_key(&(cycle, node), |sign| (sign.cycle, sign.node)) {
        Ok(index) => Some(index),
        Err(_) => None,
    }
}

impl<'a> Signs<'a> {
    fn all(&self) -> &[SignRecord]
        ensures signs { result.now ≡ self.now }
        ensures ascending { DoAscend self.now }
    {
        self.signs
    }
}

impl<'a> Subjects for Signs<'a> {
    ghost number = { λ signs. length signs };

    ghost tells = { λ signs. tells_at signs };

    ghost since = { λ signs. sign_since_at signs };

    fn count(&self) -> usize {
        self.all().len()
    }

    fn since(&self, index: usize) -> Option<Slot> {
        since(&self.all()[index])
    }

    fn told_by(&self, entry: &LogEntry) -> Option<usize> {
        match entry {
            LogEntry::Failed { node, cycle, .. } => index_of(self.all(), *node, *cycle),
            LogEntry::Deliver { .. } => None,
            LogEntry::View { .. } => None,
        }
    }
}

/// The fate of the sign, where these of the nodes that count know it and those lack it.
fn fate(sign: &SignRecord, has: NodeSet, lacks: NodeSet) -> Fate
    ensures { result ≡ sign_fate_by (not (is_nobody sign.now.waits)) (not (is_none sign.now.carried)) has lacks }
{
    if !sign.waits.is_empty() {
        return Fate::Open;
    }
    if !has.is_empty() && (!lacks.is_empty() || sign.carried.is_none()) {
        return Fate::Apart;
    }
    if sign.carried.is_some() && !has.is_empty() && lacks.is_empty() {
        return Fate::All;
    }
    Fate::Nobody
}

/// What is told of a sign of the account, of which these are the holders.
fn told(account: &Account<'_>, sign: &SignRecord, holders: Holders) -> Told
    requires { holders ≡ holders_in (tells_sign sign.now) (sign_since sign.now) account.now.logs }
    ensures { result ≡ sign_told account.now sign.now }
{
    let lacks = counting(since(sign), account.logs()).minus(holders.has);
    Told {
        fate: fate(sign, holders.has, lacks),
        has: holders.has,
        lacks,
        had: NodeSet::empty(),
        slots: holders.slots,
    }
}

impl HasFate for SignRecord {
    ghost held = { λ a sign. holders_in (tells_sign sign) (sign_since sign) a.logs };

    ghost told = { sign_told };

    fn told(&self, account: &Account<'_>, holders: Holders) -> Told {
        told(account, self, holders)
    }
}

/// What is told of each failure sign of the account, in its order.
///
/// Promise: exactly what the definition says of each sign, in their order: its fate, the nodes that
/// have it or lack it, and the first and last slot of its entries.
///
/// Shown by: `verdict_sign_at_one_node`, `verdict_sign_is_open`, `verdict_order_since_a_restart`,
/// `a_late_node_counts`.
///
/// # Errors
///
/// `Memory`: out of memory.
pub fn sign_fates(alloc: Global, account: &Account<'_>) -> Result<Vec<Told>, Memory>
    ensures { IfOk result (λ told. told.items ≡ sign_fates account.now) }
{
    let signs = account.signs();
    let holders = holders_of(alloc, &Signs { signs }, account.logs())?;
    told_of_all(alloc, account, signs, holders.as_slice())
}
