//! The text of a verdict.
ghost use Rattle.std.specs.List.{concat};
ghost use Rattle.cany_check.specs.Texts.CheckText.{verdict_text};
ghost use Rattle.cany_check.specs.Deciding.Findings.{AreFindings};
ghost use Rattle.cany_check.specs.Texts.TextParts as parts;
ghost use Rattle.cany_log.specs.Written.{IsWritten};

pub(crate) mod counts;
pub(crate) mod fate_fields;
pub(crate) mod head;
pub(crate) mod lines;
pub(crate) mod message_lines;
pub(crate) mod sign_lines;
pub(crate) mod unused_lines;
pub(crate) mod witness_lines;

use crate::account::Account;
use crate::deciders::judging::Findings;
use crate::text::head::write_head;
use crate::text::lines::write_lines;
use crate::text::message_lines::write_messages;
use crate::text::sign_lines::write_signs;
use crate::unused_entries::unused_entry::Unused;
use cany_io::{Failed, Sink};
use cany_log::write_short_line;
use cany_model::Break;

/// Writes the wrong entry, the messages and where two nodes part.
fn write_deliveries<K: Sink>(
    account: &Account<'_>,
    findings: &Findings,
    sink: &mut K,
) -> Result<(), Failed>
    requires { AreFindings account.now findings.now }
    ensures { IsWritten (concat (parts.delivery_lines account.now)) result
        (K.taken sink.old) (K.taken sink.new) (K.faults sink.old) (K.faults sink.new) }
{
    let wrong = findings.wrong_entry();
    let parting = findings.parting();
    write_lines(wrong.as_slice(), sink)?;
    write_messages(account, findings.messages(), sink)?;
    write_lines(parting.as_slice(), sink)
}

/// Writes the views that are apart, the signs, and who was taken for failed.
fn write_membership<K: Sink>(
    account: &Account<'_>,
    findings: &Findings,
    sink: &mut K,
) -> Result<(), Failed>
    requires { AreFindings account.now findings.now }
    ensures { IsWritten (concat (parts.membership_lines account.now)) result
        (K.taken sink.old) (K.taken sink.new) (K.faults sink.old) (K.faults sink.new) }
{
    write_lines(findings.views().apart.as_slice(), sink)?;
    write_signs(account, findings.signs(), sink)?;
    write_lines(findings.accusations(), sink)
}

/// Writes the entries of the scenario that did nothing, and the end.
fn write_ending<K: Sink>(unused: &[Unused], sink: &mut K) -> Result<(), Failed>
    ensures { IsWritten (concat (parts.ending_lines unused.now)) result
        (K.taken sink.old) (K.taken sink.new) (K.faults sink.old) (K.faults sink.new) }
{
    write_lines(unused, sink)?;
    write_short_line("end", &[], sink)
}

/// Writes the verdict on an account, line by line. The findings are those of the account, `found`
/// is where the run leaves the fault hypothesis first, and `unused` are the entries of its scenario
/// that did nothing. It takes no memory.
///
/// Promise: exactly the text of this verdict is written, or at a failure a prefix of it.
///
/// Shown by: `verdict_views_are_apart`, `verdict_entries_that_did_nothing`,
/// `each_write_fails_in_turn`, `.ci/calls.py`.
///
/// # Errors
///
/// `Failed` only where the sink's count of faults rose.
pub fn write_check<K: Sink>(
    account: &Account<'_>,
    findings: &Findings,
    found: Option<Break>,
    unused: &[Unused],
    sink: &mut K,
) -> Result<(), Failed>
    requires { AreFindings account.now findings.now }
    ensures { IsWritten (verdict_text account.now found unused.now) result
        (K.taken sink.old) (K.taken sink.new) (K.faults sink.old) (K.faults sink.new) }
{
    write_head(account, findings, found, sink)?;
    write_deliveries(account, findings, sink)?;
    write_membership(account, findings, sink)?;
    write_ending(unused, sink)
}
