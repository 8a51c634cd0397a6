//! Whether correct nodes hold one view of each number.
ghost use Rattle.std.specs.Prelude.{◌≡◌, ◌==◌, ◌<◌, ◌++◌, ℕ, List, if◌then◌else◌, is_some, count_by, filter_map, length, map, slice_index_or, None, IfOk, OnOk};
ghost use Rattle.std.specs.List.{flat_map};
ghost use Rattle.cany_check.specs.Accounts.Account.{running};
ghost use Rattle.cany_check.specs.Accounts.AccountFields.{log_parts};
ghost use Rattle.cany_check.specs.Deciding.ViewRows.{HasRows, views_differ, row_parting, views_in, with_other, with_view};
ghost use Rattle.cany_check.specs.Deciding.Views.{HeldView, view_in, view_numbers, view_partings};

use crate::account::Account;
use crate::account::record::LogRecord;
use crate::deciders::findings::{ViewParting, Views};
use cany_base::{LogEntry, Memory, NodeId, NodeSet};
use std::alloc::Global;

/// Of a number the first view, and the first that has other members or, where none has, the first
/// again; `None`, where there is no view of it.
type ViewRow = Option<ViewParting>;

/// Whether the two views have other members.
fn views_differ(row: &ViewParting) -> bool
    ensures { result ≡ views_differ row.now }
{
    row.members.bits() != row.others.bits()
}

/// The first view of a number and the first that differs, with one more view of it.
fn with_other(row: &ViewParting, node: NodeId, members: NodeSet) -> ViewParting
    ensures { result ≡ with_other row.now node members }
{
    if views_differ(row) {
        return *row;
    }
    if row.members.bits() == members.bits() {
        return *row;
    }
    ViewParting {
        number: row.number,
        first: row.first,
        members: row.members,
        second: node,
        others: members,
    }
}

/// The row of a number, with one more view of it.
fn with_view(row: &ViewRow, number: u16, node: NodeId, members: NodeSet) -> ViewRow
    ensures { result ≡ with_view row.now (record { node = node; number = number; members = members }) }
{
    match row {
        None => Some(ViewParting {
            number,
            first: node,
            members,
            second: node,
            others: members,
        }),
        Some(row) => Some(with_other(row, node, members)),
    }
}

/// Makes the table so long that it has a row for the number.
fn grow(rows: &mut Vec<ViewRow>, number: usize) -> Result<(), Memory>
    ensures within { OnOk result (number < length rows.new.items) }
    ensures kept { OnOk result ((k : ℕ) → slice_index_or rows.new.items k None ≡ slice_index_or rows.old.items k None) }
{
    while rows.len() <= number {
        rows.push(None)?;
    }
    Ok(())
}

/// Puts one more view into the table.
fn put_view(
    rows: &mut Vec<ViewRow>,
    number: u16,
    node: NodeId,
    members: NodeSet,
) -> Result<(), Memory>
    ensures { OnOk result ((k : ℕ) → slice_index_or rows.new.items k None ≡ (if k == number
        then with_view (slice_index_or rows.old.items k None) (record { node = node; number = number; members = members })
        else slice_index_or rows.old.items k None)) }
{
    let place = usize::from(number);
    grow(rows, place)?;
    let row = with_view(&rows[place], number, node, members);
    rows[place] = row;
    Ok(())
}

/// Puts the view of an entry of the node's log into the table, if the entry has one.
fn put_entry(rows: &mut Vec<ViewRow>, node: NodeId, entry: &LogEntry) -> Result<(), Memory>
    ensures { OnOk result ((views : List HeldView) → HasRows views rows.old.items → HasRows (views ++ view_in node entry.now) rows.new.items) }
{
    match entry {
        LogEntry::View {
            number,
            members,
            ..
        } => put_view(rows, *number, node, *members),
        LogEntry::Deliver { .. } => Ok(()),
        LogEntry::Failed { .. } => Ok(()),
    }
}

/// Puts the views of the log into the table.
fn put_log(rows: &mut Vec<ViewRow>, log: &LogRecord<'_>) -> Result<(), Memory>
    ensures { OnOk result ((views : List HeldView) → HasRows views rows.old.items → HasRows (views ++ views_in (log_parts log.now)) rows.new.items) }
{
    for entry in log.entries {
        put_entry(rows, log.node, entry)?;
    }
    Ok(())
}

/// The views of the logs that run, in a table by number.
fn rows_of(alloc: Global, logs: &[LogRecord<'_>]) -> Result<Vec<ViewRow>, Memory>
    ensures { IfOk result (λ rows. HasRows (flat_map views_in (running (map log_parts logs.now))) rows.items) }
{
    let mut rows = Vec::new(alloc);
    for i in 0..logs.len() {
        if logs[i].runs {
            put_log(&mut rows, &logs[i])?;
        }
    }
    Ok(rows)
}

/// How many numbers there is a view of.
fn count_numbers(rows: &[ViewRow]) -> usize
    ensures { result ≡ count_by is_some rows.now }
{
    rows.iter().filter(|row| row.is_some()).count()
}

/// Where the views of a number part, if there are some and they do.
fn row_parting(row: &ViewRow) -> Option<ViewParting>
    ensures { result ≡ row_parting row.now }
{
    match row {
        None => None,
        Some(row) => { if views_differ(row) { Some(*row) } else { None } }
    }
}

/// Where the views of each number part that is apart, ascending.
fn find_partings(alloc: Global, rows: &[ViewRow]) -> Result<Vec<ViewParting>, Memory>
    ensures { IfOk result (λ found. found.items ≡ filter_map row_parting rows.now) }
{
    let mut found = Vec::new(alloc);
    for row in rows {
        if let Some(parting) = row_parting(row) {
            found.push(parting)?;
        }
    }
    Ok(found)
}

/// Of how many numbers correct nodes hold views, and where those of a number are unequal.
///
/// Promise: exactly how many numbers there are of which correct nodes hold a view, and of each
/// number that is apart the first view and the first that differs from it.
///
/// Shown by: `an_account_is_judged`, `verdict_views_are_apart`, `views_by_place`.
///
/// # Errors
///
/// `Memory`: out of memory.
pub fn view_partings(alloc: Global, account: &Account<'_>) -> Result<Views, Memory>
    ensures numbers { IfOk result (λ views. views.numbers ≡ length (view_numbers account.now)) }
    ensures apart { IfOk result (λ views. views.apart.items ≡ view_partings account.now) }
{
    let rows = rows_of(alloc, account.logs())?;
    Ok(Views {
        numbers: count_numbers(rows.as_slice()),
        apart: find_partings(alloc, rows.as_slice())?,
    })
}
