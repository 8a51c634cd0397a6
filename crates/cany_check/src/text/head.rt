//! The head of a verdict: what the text is, whether the run is within the fault hypothesis, and a
//! line for each part of the promise.
ghost use Rattle.std.specs.Prelude.{◌≡◌, ◌≤◌, ◌∷◌, ◌++◌, [], length, map};
ghost use Rattle.std.specs.List.{concat};
ghost use Rattle.cany_check.specs.Texts.CheckHead as head;
ghost use Rattle.cany_check.specs.Deciding.Findings.{AreFindings};
ghost use Rattle.cany_check.specs.Texts.HeadParts.{count_texts, fate_count_texts, part_line, service_texts};
ghost use Rattle.cany_log.specs.Fields.{most_bytes, texts_of};
ghost use Rattle.cany_log.specs.Written.{IsWritten};
ghost use Rattle.cany_text.specs.ReportLines.{line_of};

use crate::account::Account;
use crate::deciders::findings::{Judgement, Part};
use crate::deciders::judging::{Findings, PARTS};
use crate::text::counts::{FateCounts, message_counts, shortest_and_longest, told_counts};
use crate::text::fate_fields::NOTHING;
use cany_base::{Format, Service};
use cany_io::{Failed, Sink};
use cany_log::{TextField, write_hypothesis, write_short_line};
use cany_model::Break;
use cany_text::names::service_name;

#[tactic(auto, unfolding(crate::specs::Texts::CheckHead::judgement_name))]
fn judgement_name(judgement: Judgement) -> &'static str
    ensures name { result.now ≡ head.judgement_name judgement }
    ensures short { length result.now ≤ 6 }
{
    match judgement {
        Judgement::Held => "held",
        Judgement::Broken => "broken",
        Judgement::Open => "open",
    }
}

/// Writes the line that begins a verdict.
#[tactic(auto, unfolding(crate::specs::Texts::CheckHead::first_line))]
fn write_first_line<K: Sink>(format: Format, sink: &mut K) -> Result<(), Failed>
    ensures { IsWritten (head.first_line format) result
        (K.taken sink.old) (K.taken sink.new) (K.faults sink.old) (K.faults sink.new) }
{
    write_short_line(
        "canely check",
        &[TextField::Number(u64::from(format.number()))],
        sink,
    )
}

/// A number, and the name that stands before it.
#[derive(Clone, Copy)]
struct Count {
    name: &'static str,
    number: usize,
}

/// Writes the line of a part of which nothing is counted.
fn write_judgement<K: Sink>(
    words: &'static str,
    judgement: Judgement,
    sink: &mut K,
) -> Result<(), Failed>
    requires { length words.now ≤ 9 }
    ensures { IsWritten (line_of (words.now ∷ head.judgement_name judgement ∷ [])) result
        (K.taken sink.old) (K.taken sink.new) (K.faults sink.old) (K.faults sink.new) }
{
    write_short_line(words, &[TextField::Text(judgement_name(judgement))], sink)
}

/// Writes the line of a part of which two numbers are told.
fn write_counts<K: Sink>(
    words: &'static str,
    judgement: Judgement,
    first: Count,
    second: Count,
    sink: &mut K,
) -> Result<(), Failed>
    requires words { length words.now ≤ 9 }
    requires first { length first.name.now ≤ 9 }
    requires second { length second.name.now ≤ 9 }
    ensures { IsWritten (line_of (words.now ∷ head.judgement_name judgement ∷ count_texts first ++ count_texts second)) result
        (K.taken sink.old) (K.taken sink.new) (K.faults sink.old) (K.faults sink.new) }
{
    write_short_line(
        words,
        &[
            TextField::Text(judgement_name(judgement)),
            TextField::Text(first.name),
            TextField::Number(first.number as u64),
            TextField::Text(second.name),
            TextField::Number(second.number as u64),
        ],
        sink,
    )
}

/// The name of the service, where it is of one.
fn service_if_any(by: Option<Service>) -> TextField
    ensures texts { texts_of result ≡ service_texts by }
    ensures short { most_bytes result ≤ 22 }
{
    match by {
        Some(by) => TextField::Text(service_name(by)),
        None => NOTHING,
    }
}

/// Writes the line of a part of which it is told how many messages, of this service, or signs have
/// each fate.
fn write_fates<K: Sink>(
    words: &'static str,
    by: Option<Service>,
    judgement: Judgement,
    counts: FateCounts,
    sink: &mut K,
) -> Result<(), Failed>
    requires { length words.now ≤ 9 }
    ensures { IsWritten (line_of (words.now ∷ service_texts by ++ head.judgement_name judgement ∷ fate_count_texts counts)) result
        (K.taken sink.old) (K.taken sink.new) (K.faults sink.old) (K.faults sink.new) }
{
    write_short_line(
        words,
        &[
            service_if_any(by),
            TextField::Text(judgement_name(judgement)),
            TextField::Text("all"),
            TextField::Number(counts.all as u64),
            TextField::Text("none"),
            TextField::Number(counts.nobody as u64),
            TextField::Text("apart"),
            TextField::Number(counts.apart as u64),
            TextField::Text("open"),
            TextField::Number(counts.unsettled as u64),
        ],
        sink,
    )
}

/// Writes the line of a part of the promise.
fn write_part<K: Sink>(
    account: &Account<'_>,
    findings: &Findings,
    part: Part,
    sink: &mut K,
) -> Result<(), Failed>
    requires { AreFindings account.now findings.now }
    ensures { IsWritten (part_line account.now part) result
        (K.taken sink.old) (K.taken sink.new) (K.faults sink.old) (K.faults sink.new) }
{
    let judgement = findings.judgement(part);
    match part {
        Part::Integrity => write_judgement("integrity", judgement, sink),
        Part::Agreement(by) => {
            let counts = message_counts(account, findings.messages(), by);
            write_fates("agreement", Some(by), judgement, counts, sink)
        }
        Part::Order => {
            let lengths = shortest_and_longest(account.logs());
            let shortest = Count {
                name: "shortest",
                number: lengths.shortest,
            };
            let longest = Count {
                name: "longest",
                number: lengths.longest,
            };
            write_counts("order", judgement, shortest, longest, sink)
        }
        Part::Views => {
            let views = findings.views();
            let numbers = Count {
                name: "numbers",
                number: views.numbers,
            };
            let apart = Count {
                name: "apart",
                number: views.apart.len(),
            };
            write_counts("views", judgement, numbers, apart, sink)
        }
        Part::Signs => {
            let counts = told_counts(findings.signs());
            write_fates("signs", None, judgement, counts, sink)
        }
        Part::Accuracy => write_judgement("accuracy", judgement, sink),
    }
}

/// Writes the lines of these parts of the promise.
fn write_parts<K: Sink>(
    account: &Account<'_>,
    findings: &Findings,
    parts: &[Part],
    sink: &mut K,
) -> Result<(), Failed>
    requires { AreFindings account.now findings.now }
    ensures { IsWritten (concat (map (part_line account.now) parts.now)) result
        (K.taken sink.old) (K.taken sink.new) (K.faults sink.old) (K.faults sink.new) }
{
    for part in parts {
        write_part(account, findings, *part, sink)?;
    }
    Ok(())
}

/// Writes the head.
pub(crate) fn write_head<K: Sink>(
    account: &Account<'_>,
    findings: &Findings,
    found: Option<Break>,
    sink: &mut K,
) -> Result<(), Failed>
    requires { AreFindings account.now findings.now }
    ensures { IsWritten (concat (head.head_lines account.now found)) result
        (K.taken sink.old) (K.taken sink.new) (K.faults sink.old) (K.faults sink.new) }
{
    write_first_line(account.params().format, sink)?;
    write_hypothesis(found, sink)?;
    write_parts(account, findings, &PARTS, sink)
}
