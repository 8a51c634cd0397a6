//! The journal of a scenario text.
ghost use Rattle.std.specs.Prelude.{◌≡◌, ◌≢◌, length, option_map, Ok, Err, IfOk, IfErr};
ghost use Rattle.toml.specs.View.{view, items_view};
ghost use Rattle.cany_text.specs.declared.scenario_fault.ScenarioFault.TheVariants.{Memory};
ghost use Rattle.cany_text.specs.JournalText.{journal_from, journal_of_text, node_of, step_of, steps_from, turn_in};
ghost use Rattle.cany_scenario.specs.Arrays.{after};
ghost use Rattle.cany_scenario.specs.Entries.{entry_of};
ghost use Rattle.cany_scenario.specs.JournalParts.{are_texts, texts_in_order};

use crate::entry::{Entry, wrong_kind};
use cany_base::{Format, NodeId, Step};
use cany_text::{KeyName, Position, ScenarioFault};
use std::alloc::Global;
use toml::Value;

/// The steps that the top key `journal` lists, where the key is there.
pub(crate) fn read_journal(
    alloc: Global,
    format: Format,
    top: &Entry,
) -> Result<Option<Vec<Step>>, ScenarioFault>
    ensures ok { IfOk result (λ journal. journal_of_text format (entry_of top.now) ≡ Ok (option_map (λ steps. steps.items) journal)) }
    ensures fault { IfErr result (λ fault. fault ≢ Memory → journal_of_text format (entry_of top.now) ≡ Err fault) }
{
    match top.value(KeyName::Journal) {
        Some(value) => journal_from(alloc, format, top.position(KeyName::Journal), value),
        None => Ok(None),
    }
}

fn journal_from(
    alloc: Global,
    format: Format,
    at: Position,
    value: &Value,
) -> Result<Option<Vec<Step>>, ScenarioFault>
    ensures ok { IfOk result (λ journal. journal_from format at (view value.now) ≡ Ok (option_map (λ steps. steps.items) journal)) }
    ensures fault { IfErr result (λ fault. fault ≢ Memory → journal_from format at (view value.now) ≡ Err fault) }
{
    let Some(texts) = value.as_array() else {
        return Err(wrong_kind(at));
    };
    // The kinds of all texts come before the bytes of the first.
    if !are_texts(texts) {
        return Err(wrong_kind(at));
    }
    let steps = read_texts(alloc, format, at, texts)?;
    Ok(Some(steps))
}

/// Whether each value is a text.
fn are_texts(values: &[Value]) -> bool
    ensures { result ≡ are_texts values.now }
{
    values.iter().all(|value| value.is_str())
}

/// The steps of some texts, one text after another.
fn read_texts(
    alloc: Global,
    format: Format,
    at: Position,
    texts: &[Value],
) -> Result<Vec<Step>, ScenarioFault>
    ensures ok { IfOk result (λ steps. texts_in_order format at 0 (items_view texts.now) ≡ Ok steps.items) }
    ensures fault { IfErr result (λ fault. fault ≢ Memory → texts_in_order format at 0 (items_view texts.now) ≡ Err fault) }
{
    let mut steps = Vec::new(alloc);
    for value in texts {
        let Some(text) = value.as_str() else {
            return Err(wrong_kind(at));
        };
        push_steps(format, &mut steps, text.as_bytes())?;
    }
    Ok(steps)
}

/// Appends the steps that the bytes write. Each byte before them has written one, so the place of a
/// byte is how many there are.
fn push_steps(format: Format, steps: &mut Vec<Step>, bytes: &[u8]) -> Result<(), ScenarioFault>
    ensures ok { IfOk result (λ _. after steps.old.items (steps_from format (length steps.old.items) bytes.now) ≡ Ok steps.new.items) }
    ensures fault { IfErr result (λ fault. fault ≢ Memory → after steps.old.items (steps_from format (length steps.old.items) bytes.now) ≡ Err fault) }
{
    for byte in bytes {
        let Some(step) = step_of(format, *byte) else {
            return Err(ScenarioFault::BadJournal { place: steps.len() });
        };
        steps.push(step)?;
    }
    Ok(())
}

/// The step that a byte writes.
#[tactic(auto, unfolding(cany_text::specs::JournalText::step_of))]
fn step_of(format: Format, byte: u8) -> Option<Step>
    ensures { result ≡ step_of format byte }
{
    if byte == b'.' {
        return Some(Step::Slot);
    }
    turn_in(format, node_of(byte)?)
}

/// The node that a digit writes.
fn node_of(byte: u8) -> Option<u8>
    ensures { result ≡ node_of byte }
{
    match byte {
        b'0'..=b'9' => Some(byte - b'0'),
        b'a'..=b'z' => Some(byte - b'a' + 10),
        b'A'..=b'Z' => Some(byte - b'A' + 36),
        b'+' => Some(62),
        b'-' => Some(63),
        _ => None,
    }
}

/// The turn of a node, where the format can have it.
#[tactic(auto, using(crate::proofs::FormatFacts::at_most_nodes))]
fn turn_in(format: Format, node: u8) -> Option<Step>
    ensures { result ≡ turn_in format node }
{
    if node < format.nodes() {
        Some(Step::Turn(NodeId::of_index(usize::from(node))))
    } else {
        None
    }
}
