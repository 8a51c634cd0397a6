//! What the head of a verdict counts.
ghost use Rattle.std.specs.Prelude.{◌≡◌, count_by, length, map};
ghost use Rattle.cany_check.specs.Accounts.AccountFields.{log_parts};
ghost use Rattle.cany_check.specs.Texts.Counts as counted;
ghost use Rattle.cany_check.specs.Texts.Counts.{counts_of, fate_count, lengths_of, running_counts};
ghost use Rattle.cany_check.specs.Deciding.Fates.{message_fates};
ghost use Rattle.cany_check.specs.Deciding.OneOrder.{deliveries};
ghost use Rattle.cany_check.specs.Deciding.Verdict.{fates_of_service};

use crate::account::Account;
use crate::account::entries::is_service;
use crate::account::record::LogRecord;
use crate::deciders::findings::{Fate, Told};
use cany_base::{LogEntry, Service};

/// How many messages or signs have each fate.
#[derive(Clone, Copy)]
pub(crate) struct FateCounts {
    pub(crate) all: usize,
    pub(crate) nobody: usize,
    pub(crate) apart: usize,
    pub(crate) unsettled: usize,
}

/// How many messages the logs of correct nodes deliver by TOTCAN, at least and at most.
#[derive(Clone, Copy)]
pub(crate) struct Lengths {
    pub(crate) shortest: usize,
    pub(crate) longest: usize,
}

fn is_fate(wanted: Fate, fate: Fate) -> bool
    ensures { result ≡ counted.is_fate wanted fate }
{
    wanted == fate
}

/// How many messages of the service have this fate.
fn message_count(account: &Account<'_>, told: &[Told], by: Service, fate: Fate) -> usize
    requires { told.now ≡ message_fates account.now }
    ensures { result ≡ fate_count fate (fates_of_service account.now by) }
{
    let messages = account.messages();
    let mut count = 0usize;
    for i in 0..messages.len() {
        let is_counted = is_service(messages[i].service, by) && is_fate(fate, told[i].fate);
        count += usize::from(is_counted);
    }
    count
}

/// How many messages of the service have each fate.
pub(crate) fn message_counts(account: &Account<'_>, told: &[Told], by: Service) -> FateCounts
    requires { told.now ≡ message_fates account.now }
    ensures { result ≡ counts_of (fates_of_service account.now by) }
{
    FateCounts {
        all: message_count(account, told, by, Fate::All),
        nobody: message_count(account, told, by, Fate::Nobody),
        apart: message_count(account, told, by, Fate::Apart),
        unsettled: message_count(account, told, by, Fate::Open),
    }
}

/// How many of these have this fate.
fn told_count(told: &[Told], fate: Fate) -> usize
    ensures { result ≡ fate_count fate (map (λ t. t.fate) told.now) }
{
    let mut count = 0usize;
    for i in 0..told.len() {
        count += usize::from(is_fate(fate, told[i].fate));
    }
    count
}

/// How many of these have each fate.
pub(crate) fn told_counts(told: &[Told]) -> FateCounts
    ensures { result ≡ counts_of (map (λ t. t.fate) told.now) }
{
    FateCounts {
        all: told_count(told, Fate::All),
        nobody: told_count(told, Fate::Nobody),
        apart: told_count(told, Fate::Apart),
        unsettled: told_count(told, Fate::Open),
    }
}

fn is_tot_delivery(entry: &LogEntry) -> bool
    ensures { result ≡ counted.is_tot_delivery entry.now }
{
    match entry {
        LogEntry::Deliver { service, .. } => is_service(*service, Service::Tot),
        LogEntry::Failed { .. } => false,
        LogEntry::View { .. } => false,
    }
}

fn deliveries_in(entries: &[LogEntry]) -> usize
    ensures { result ≡ count_by counted.is_tot_delivery entries.now }
{
    entries
        .iter()
        .filter(|entry| is_tot_delivery(entry))
        .count()
}

/// How many messages the log delivers by TOTCAN.
#[tactic(auto, using(crate::proofs::Texts::CountFacts::deliveries_counted))]
fn delivery_count(log: &LogRecord<'_>) -> usize
    ensures { result ≡ length (deliveries (log_parts log.now)) }
{
    deliveries_in(log.entries)
}

/// The lengths so far, with one more.
fn with_length(lengths: Option<Lengths>, length: usize) -> Option<Lengths>
    ensures { result ≡ counted.with_length lengths length }
{
    match lengths {
        None => Some(Lengths {
            shortest: length,
            longest: length,
        }),
        Some(lengths) => Some(Lengths {
            shortest: length.min(lengths.shortest),
            longest: length.max(lengths.longest),
        }),
    }
}

/// The lengths so far, with that of the log, if it runs.
fn with_log(lengths: Option<Lengths>, log: &LogRecord<'_>) -> Option<Lengths>
    ensures { result ≡ counted.with_log lengths (log_parts log.now) }
{
    if log.runs {
        return with_length(lengths, delivery_count(log));
    }
    lengths
}

/// How many messages the logs of correct nodes deliver by TOTCAN, at least and at most: 0 where
/// there is no such log.
pub(crate) fn shortest_and_longest(logs: &[LogRecord<'_>]) -> Lengths
    ensures { result ≡ lengths_of (running_counts (map log_parts logs.now)) }
{
    let mut lengths = None;
    for i in 0..logs.len() {
        lengths = with_log(lengths, &logs[i]);
    }
    match lengths {
        None => Lengths {
            shortest: 0,
            longest: 0,
        },
        Some(lengths) => lengths,
    }
}
