//! The lines of texts that are no scenarios.
ghost use Rattle.std.specs.Prelude.{◌≤◌, [], ◌∷◌, length, codes, decimal};
ghost use Rattle.cany_text.specs.declared.scenario_fault.ScenarioFault.TheVariants.{OutOfRange};
ghost use Rattle.cany_text.specs.RefusalLines.{scenario_refusal_line};
ghost use Rattle.cany_text.specs.ReportLines.{line_of};
ghost use Rattle.cany_text.specs.TextNames as names;
ghost use Rattle.cany_log.specs.Written.{IsWritten};

use crate::line::write_line;
use crate::text_field::TextField;
use cany_base::ParamName;
use cany_io::{Failed, Sink};
use cany_text::names::{key_name, param_name, table_name};
use cany_text::{KeyName, ScenarioFault, TableName};

/// Writes the line of a text that is no scenario, by its first fault. Want of memory has no line.
#[tactic(auto, unfolding(cany_text::specs::RefusalLines::scenario_refusal_line))]
pub(crate) fn write_scenario_refusal<K: Sink>(
    fault: ScenarioFault,
    sink: &mut K,
) -> Result<(), Failed>
    ensures { IsWritten (scenario_refusal_line fault) result
        (K.taken sink.old) (K.taken sink.new) (K.faults sink.old) (K.faults sink.new) }
{
    match fault {
        ScenarioFault::NotText => write_words("refused not utf-8", sink),
        ScenarioFault::NotToml => write_words("refused not toml", sink),
        ScenarioFault::UnknownKey { table, place } => write_unknown_key(table, place, sink),
        ScenarioFault::MissingKey { table, place, name } => write_of_key(
            "refused missing key",
            table,
            place,
            name,
            sink,
        ),
        ScenarioFault::WrongKind { table, place, name } => write_of_key(
            "refused wrong kind",
            table,
            place,
            name,
            sink,
        ),
        ScenarioFault::OutOfRange {
            table,
            place,
            name,
            value,
        } => write_out_of_range(table, place, name, value, sink),
        ScenarioFault::TooMany { table } => write_too_many(table, sink),
        ScenarioFault::BadData { place } => write_at("refused bad data in send", place, sink),
        ScenarioFault::BoundTooSmall { which, needed } => write_too_small(which, needed, sink),
        ScenarioFault::RepeatedRule { index } => write_at("refused repeated rule", index, sink),
        ScenarioFault::TooOften { place } => write_at("refused too often in restart", place, sink),
        ScenarioFault::BadJournal { place } => write_at("refused bad journal at", place, sink),
        ScenarioFault::Memory => Ok(()),
    }
}

/// Writes the line of a fault of the whole text.
fn write_words<K: Sink>(words: &'static str, sink: &mut K) -> Result<(), Failed>
    requires { length words.now ≤ 30 }
    ensures { IsWritten (line_of (words.now ∷ [])) result
        (K.taken sink.old) (K.taken sink.new) (K.faults sink.old) (K.faults sink.new) }
{
    write_line(words, &[], sink)
}

fn write_too_many<K: Sink>(table: TableName, sink: &mut K) -> Result<(), Failed>
    ensures { IsWritten (line_of (codes "refused too many" ∷ names.table_name table ∷ [])) result
        (K.taken sink.old) (K.taken sink.new) (K.faults sink.old) (K.faults sink.new) }
{
    write_line(
        "refused too many",
        &[TextField::Text(table_name(table))],
        sink,
    )
}

fn write_too_small<K: Sink>(which: ParamName, needed: u64, sink: &mut K) -> Result<(), Failed>
    ensures { IsWritten (line_of (codes "refused bound too small" ∷ names.param_name which ∷ codes "needs" ∷ decimal needed ∷ [])) result
        (K.taken sink.old) (K.taken sink.new) (K.faults sink.old) (K.faults sink.new) }
{
    let fields = [
        TextField::Text(param_name(which)),
        TextField::Text("needs"),
        TextField::Number(needed),
    ];
    write_line("refused bound too small", &fields, sink)
}

/// Writes the line of a fault that has only a place.
fn write_at<K: Sink>(words: &'static str, place: usize, sink: &mut K) -> Result<(), Failed>
    requires { length words.now ≤ 30 }
    ensures { IsWritten (line_of (words.now ∷ decimal place ∷ [])) result
        (K.taken sink.old) (K.taken sink.new) (K.faults sink.old) (K.faults sink.new) }
{
    write_line(words, &[TextField::Number(place as u64)], sink)
}

fn write_unknown_key<K: Sink>(table: TableName, place: usize, sink: &mut K) -> Result<(), Failed>
    ensures { IsWritten (line_of (codes "refused unknown key" ∷ codes "in" ∷ names.table_name table ∷ decimal place ∷ [])) result
        (K.taken sink.old) (K.taken sink.new) (K.faults sink.old) (K.faults sink.new) }
{
    let fields = [
        TextField::Text("in"),
        TextField::Text(table_name(table)),
        TextField::Number(place as u64),
    ];
    write_line("refused unknown key", &fields, sink)
}

/// Writes the line of a fault of a key.
fn write_of_key<K: Sink>(
    words: &'static str,
    table: TableName,
    place: usize,
    name: KeyName,
    sink: &mut K,
) -> Result<(), Failed>
    requires { length words.now ≤ 30 }
    ensures { IsWritten (line_of (words.now ∷ names.key_name name ∷ codes "in" ∷ names.table_name table ∷ decimal place ∷ [])) result
        (K.taken sink.old) (K.taken sink.new) (K.faults sink.old) (K.faults sink.new) }
{
    let fields = [
        TextField::Text(key_name(name)),
        TextField::Text("in"),
        TextField::Text(table_name(table)),
        TextField::Number(place as u64),
    ];
    write_line(words, &fields, sink)
}

#[tactic(auto, unfolding(cany_text::specs::RefusalLines::scenario_refusal_line))]
fn write_out_of_range<K: Sink>(
    table: TableName,
    place: usize,
    name: KeyName,
    value: i64,
    sink: &mut K,
) -> Result<(), Failed>
    ensures { IsWritten (scenario_refusal_line (OutOfRange table place name value)) result
        (K.taken sink.old) (K.taken sink.new) (K.faults sink.old) (K.faults sink.new) }
{
    write_line(
        "refused out of range",
        &[
            TextField::Text(key_name(name)),
            TextField::Text("in"),
            TextField::Text(table_name(table)),
            TextField::Number(place as u64),
            TextField::Text("value"),
            TextField::SignedNumber(value),
        ],
        sink,
    )
}
