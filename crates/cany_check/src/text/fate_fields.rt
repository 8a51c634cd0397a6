//! The pieces of the lines of messages and signs that are not the same in every line.
ghost use Rattle.std.specs.Prelude.{◌≡◌, ◌+◌, ◌≤◌, ◌∷◌, [], length, option_map};
ghost use Rattle.cany_check.specs.Texts.CheckLines as line;
ghost use Rattle.cany_check.specs.Texts.FateParts as parts;
ghost use Rattle.cany_check.specs.Texts.FateParts.{fate_room, fate_texts, most_fate_bytes};
ghost use Rattle.cany_log.specs.Fields.{most_bytes, texts_of};
ghost use Rattle.cany_text.specs.ReportLines.{set_text};

use crate::account::record::FirstAndLast;
use crate::deciders::findings::Told;
use cany_base::{NodeSet, Slot};
use cany_log::TextField;

/// No field: a word and a number, of which there is none.
pub(crate) const NOTHING: TextField = TextField::NumberIfAny("", None);

/// The pieces of a fate, one after another.
#[derive(Clone, Copy)]
pub(crate) struct FateFields {
    pub(crate) first: TextField,
    pub(crate) second: TextField,
    pub(crate) third: TextField,
    pub(crate) fourth: TextField,
    pub(crate) fifth: TextField,
}

/// A fate of these words.
pub(crate) fn named(words: &'static str) -> FateFields
    requires { length words.now ≤ 16 }
    ensures texts { fate_texts result ≡ words.now ∷ [] }
    ensures short { fate_room result ≤ most_fate_bytes }
{
    FateFields {
        first: TextField::Text(words),
        second: NOTHING,
        third: NOTHING,
        fourth: NOTHING,
        fifth: NOTHING,
    }
}

/// A fate of these words and a set.
pub(crate) fn named_set(words: &'static str, nodes: NodeSet) -> FateFields
    requires { length words.now ≤ 16 }
    ensures texts { fate_texts result ≡ words.now ∷ set_text nodes ∷ [] }
    ensures short { fate_room result ≤ most_fate_bytes }
{
    FateFields {
        first: TextField::Text(words),
        second: TextField::Set(nodes),
        third: NOTHING,
        fourth: NOTHING,
        fifth: NOTHING,
    }
}

/// The fate of what some have and others lack.
pub(crate) fn apart_fields(told: &Told) -> FateFields
    ensures texts { fate_texts result ≡ line.apart_fields told.now }
    ensures short { fate_room result ≤ most_fate_bytes }
{
    FateFields {
        first: TextField::Text("apart has"),
        second: TextField::Set(told.has),
        third: TextField::Text("lacks"),
        fourth: TextField::Set(told.lacks),
        fifth: NOTHING,
    }
}

/// The word, where the test holds.
pub(crate) fn text_if(test: bool, word: &'static str) -> TextField
    ensures texts { texts_of result ≡ line.text_if test word.now }
    ensures short { most_bytes result ≤ 22 + length word.now }
{
    if test { TextField::Text(word) } else { NOTHING }
}

/// The first slot, or a dash.
pub(crate) fn first_or_dash(slots: Option<FirstAndLast>) -> TextField
    ensures texts { texts_of result ≡ parts.first_or_dash slots }
    ensures short { most_bytes result ≤ 22 }
{
    match slots {
        Some(slots) => TextField::Number(slots.first),
        None => TextField::Text("-"),
    }
}

/// The last slot, where there is one.
pub(crate) fn last_if_any(slots: Option<FirstAndLast>) -> TextField
    ensures texts { texts_of result ≡ parts.last_if_any slots }
    ensures short { most_bytes result ≤ 22 }
{
    match slots {
        Some(slots) => TextField::Number(slots.last),
        None => NOTHING,
    }
}

/// The first slot, where there is one.
pub(crate) fn first_of(slots: Option<FirstAndLast>) -> Option<Slot>
    ensures { result ≡ option_map (λ s. s.first) slots }
{
    match slots {
        Some(slots) => Some(slots.first),
        None => None,
    }
}
