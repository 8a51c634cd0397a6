//! Where a fault rule of a scenario text acts.
ghost use Rattle.std.specs.Prelude.{◌≡◌};
ghost use Rattle.cany_base.specs.Limits.{greatest_attempt, greatest_number};
ghost use Rattle.cany_text.specs.declared.scenario_fault.KeyName.TheVariants as key;
ghost use Rattle.cany_text.specs.FaultsText.{slot_place_from, frame_place_from, place_from};
ghost use Rattle.cany_text.specs.TomlKeys.{number_from, required};
ghost use Rattle.cany_scenario.specs.Entries.{entry_of};

use crate::asks::{node_at, slot_at};
use crate::entry::Entry;
use crate::value::FromValue;
use crate::word::{Named, one_of};
use cany_base::limits::{greatest_attempt, greatest_number};
use cany_base::{Class, Params, Place};
use cany_text::names::class_name;
use cany_text::{KeyName, Position, ScenarioFault};
use toml::Value;

/// The keys that a rule for a slot can have.
const SLOT_RULE_KEYS: [KeyName; 4] = [
    KeyName::Slot,
    KeyName::Verdict,
    KeyName::Reject,
    KeyName::Stop,
];

/// The keys that a rule for a frame can have.
const FRAME_RULE_KEYS: [KeyName; 7] = [
    KeyName::Class,
    KeyName::Number,
    KeyName::Node,
    KeyName::Nth,
    KeyName::Verdict,
    KeyName::Reject,
    KeyName::Stop,
];

/// The classes that an entry can name.
const CLASSES: [Class; 10] = [
    Class::Accept,
    Class::Rha,
    Class::Els,
    Class::Fda,
    Class::Join,
    Class::Leave,
    Class::Confirm,
    Class::Tot,
    Class::Rel,
    Class::Ed,
];

impl Named for Class {
    ghost use Rattle.cany_text.specs.TextNames.{class_name};

    ghost word = { class_name };

    fn name(self) -> &'static str {
        class_name(self)
    }
}

/// Where the rule of an entry acts: at a frame where the entry has the key `class`, whatever that
/// holds, and at a slot elsewhere.
#[tactic(auto, unfolding(cany_text::specs::FaultsText::place_from))]
pub(crate) fn place_from(params: &Params, entry: &Entry) -> Result<Place, ScenarioFault>
    ensures { result ≡ place_from params.now (entry_of entry.now) }
{
    if entry.value(KeyName::Class).is_some() {
        frame_place_from(params, entry)
    } else {
        slot_place_from(params, entry)
    }
}

#[tactic(auto, unfolding(cany_text::specs::FaultsText::slot_place_from))]
fn slot_place_from(params: &Params, entry: &Entry) -> Result<Place, ScenarioFault>
    ensures { result ≡ slot_place_from params.now (entry_of entry.now) }
{
    entry.only_keys(&SLOT_RULE_KEYS)?;
    let slot = slot_at(params, entry)?;
    Ok(Place::At { slot })
}

#[tactic(auto, unfolding(cany_text::specs::FaultsText::frame_place_from))]
fn frame_place_from(params: &Params, entry: &Entry) -> Result<Place, ScenarioFault>
    ensures { result ≡ frame_place_from params.now (entry_of entry.now) }
{
    entry.only_keys(&FRAME_RULE_KEYS)?;
    let class = entry.read(KeyName::Class)?;
    let number = read_number(params, entry)?;
    let node = node_at(params, entry)?;
    let nth = read_attempt(params, entry)?;
    Ok(Place::FrameNth {
        class,
        number,
        node,
        nth,
    })
}

/// The number of the frame.
#[tactic(auto, using(crate::proofs::FormatFacts::at_most_number))]
fn read_number(params: &Params, entry: &Entry) -> Result<u16, ScenarioFault>
    ensures { result ≡ required (number_from 0 (greatest_number params.now.format)) key.Number (entry_of entry.now) }
{
    let number = entry.number(KeyName::Number, 0, greatest_number(params.format))?;
    Ok(number as u16)
}

/// Which attempt to carry the frame, counted from 1.
#[tactic(auto, using(crate::proofs::FormatFacts::at_most_attempt))]
fn read_attempt(params: &Params, entry: &Entry) -> Result<u32, ScenarioFault>
    ensures { result ≡ required (number_from 1 (greatest_attempt params.now.format)) key.Nth (entry_of entry.now) }
{
    let nth = entry.number(KeyName::Nth, 1, greatest_attempt(params.format))?;
    Ok(nth as u32)
}

impl FromValue for Class {
    ghost use Rattle.cany_text.specs.FaultsText.{class_from};

    ghost meaning = { class_from };

    #[tactic(auto, unfolding(cany_text::specs::FaultsText::class_from))]
    fn from_value(at: Position, value: &Value) -> Result<Class, ScenarioFault> {
        one_of(&CLASSES, at, value)
    }
}
