//! The words of the command `media`. None of these calls but the last two takes memory.
ghost use Rattle.std.specs.Prelude.{◌≡◌, ◌≤◌, ◌<◌, [], ◌∷◌, Some, length, map, string_bytes, IsTrue, IfOk, IfSome, IfNone, MatchOption, true, is_some, option_map, ◌≢◌};
ghost use Rattle.cany_base.specs.Nodes.{nobody};
ghost use Rattle.cany_media.specs.MediaWords.{AreMedia, down_of, fault_from, fault_in, faults_in, if_node, line_number, media_faults, node_of, parts, set_with, span_between, span_of, split_of, state_of};

use crate::line::{Line, LineFault};
use cany_base::{Memory, NodeId, NodeSet, Slot};
use cany_command::number_in;
use std::alloc::Global;

/// The most digits of a slot.
const MOST_SLOT_DIGITS: usize = 6;

/// The most digits of a node.
const MOST_NODE_DIGITS: usize = 2;

/// The text before the first of these marks and that after it, where there is one.
fn cut(text: &str, mark: char) -> Option<(&str, &str)>
    requires { mark < 128 }
    ensures parts { MatchOption result (parts mark text.now ≡ text.now ∷ []) (λ c. parts mark text.now ≡ c.0.now ∷ parts mark c.1.now) }
    ensures shorter { IfSome result (λ c. length c.1.now < length text.now) }
{
    text.split_once(mark)
}

/// The two texts beside the mark, where there is one alone.
fn halves(text: &str, mark: char) -> Option<(&str, &str)>
    requires { mark < 128 }
    ensures some { IfSome result (λ h. parts mark text.now ≡ h.0.now ∷ h.1.now ∷ []) }
    ensures none { IfNone result (length (parts mark text.now) ≢ 2) }
{
    let (first, second) = cut(text, mark)?;
    match cut(second, mark) {
        None => Some((first, second)),
        Some(_) => None,
    }
}

#[tactic(auto, unfolding(crate::specs::MediaWords::line_number))]
fn line_in(word: &str) -> Option<u8>
    ensures line { result ≡ line_number word.now }
    ensures two { IfSome result (λ line. line < 2) }
{
    if word == "0" {
        Some(0)
    } else if word == "1" {
        Some(1)
    } else {
        None
    }
}

/// The slots from one to another that is not below it.
fn span_between(from: Option<Slot>, to: Option<Slot>) -> Option<(Slot, Slot)>
    ensures span { result ≡ span_between from to }
    ensures ordered { IfSome result (λ s. s.0 ≤ s.1) }
{
    let (from, to) = (from?, to?);
    if from <= to { Some((from, to)) } else { None }
}

/// The first and the last slot that `FROM-TO` names.
fn span_in(text: &str) -> Option<(Slot, Slot)>
    ensures span { result ≡ span_of (parts 45 text.now) }
    ensures ordered { IfSome result (λ s. s.0 ≤ s.1) }
{
    match halves(text, '-') {
        Some((from, to)) => span_between(
            number_in(from, MOST_SLOT_DIGITS),
            number_in(to, MOST_SLOT_DIGITS),
        ),
        None => None,
    }
}

/// The node of this number.
fn if_node(number: u64) -> Option<NodeId>
    ensures { result ≡ if_node number }
{
    if number < u64::from(NodeId::COUNT) {
        NodeId::new(number as u8)
    } else {
        None
    }
}

/// The node that 1 or 2 digits name.
#[tactic(auto, unfolding(crate::specs::MediaWords::node_of))]
fn node_in(word: &str) -> Option<NodeId>
    ensures { result ≡ node_of word.now }
{
    match number_in(word, MOST_NODE_DIGITS) {
        Some(number) => if_node(number),
        None => None,
    }
}

/// The set of the nodes that stand between commas.
fn set_in(text: &str) -> Option<NodeSet>
    ensures { result ≡ set_with nobody (parts 44 text.now) }
{
    let mut nodes = NodeSet::empty();
    let mut rest = text;
    while let Some((word, later)) = cut(rest, ',') {
        nodes.insert(node_in(word)?);
        rest = later;
    }
    nodes.insert(node_in(rest)?);
    Some(nodes)
}

/// How a line is, by `split` and the nodes of a part.
fn split_in(word: &str, nodes: &str) -> Option<Line>
    ensures { result ≡ split_of word.now nodes.now }
{
    if word == "split" {
        let part = set_in(nodes)?;
        Some(Line::Split(part))
    } else {
        None
    }
}

fn down_in(word: &str) -> Option<Line>
    ensures { result ≡ down_of word.now }
{
    if word == "down" {
        Some(Line::Down)
    } else {
        None
    }
}

/// How a line is, by `down` or `split:SET`.
fn state_in(text: &str) -> Option<Line>
    ensures { result ≡ state_of (parts 58 text.now) }
{
    match cut(text, ':') {
        None => down_in(text),
        Some((word, nodes)) => match cut(nodes, ':') {
            None => split_in(word, nodes),
            Some(_) => None,
        },
    }
}

/// The fault of a line, a span and a state, where there are all three.
fn fault_from(
    line: Option<u8>,
    span: Option<(Slot, Slot)>,
    state: Option<Line>,
) -> Option<LineFault>
    requires line { IfSome line (λ number. number < 2) }
    requires span { IfSome span (λ s. s.0 ≤ s.1) }
    ensures { result ≡ fault_from line span state }
{
    let line = line?;
    let (from, to) = span?;
    let state = state?;
    Some(LineFault {
        line,
        from,
        to,
        state,
    })
}

/// The fault that a word names.
pub(crate) fn fault_in(word: &str) -> Option<LineFault>
    ensures { result ≡ fault_in word.now }
{
    let (line, rest) = cut(word, ':')?;
    let (span, state) = cut(rest, ':')?;
    fault_from(line_in(line), span_in(span), state_in(state))
}

fn is_fault(word: &str) -> bool
    ensures { result ≡ is_some (fault_in word.now) }
{
    fault_in(word).is_some()
}

/// Whether each of the words names a fault.
fn are_faults(words: &[String]) -> bool
    ensures { result ≡ is_some (faults_in (map string_bytes words.now)) }
{
    for word in words {
        if !is_fault(word.as_str()) {
            return false;
        }
    }
    true
}

/// Whether the words are those of the command.
pub(crate) fn are_media(words: &[String]) -> bool
    ensures { result ≡ is_some (media_faults (map string_bytes words.now)) }
{
    if words.is_empty() || words[0].as_str() != "media" {
        return false;
    }
    are_faults(&words[1..])
}

/// The faults that the words name, each of them one.
fn faults_in(alloc: Global, words: &[String]) -> Result<Vec<LineFault>, Memory>
    requires { is_some (faults_in (map string_bytes words.now)) ≡ true }
    ensures { IfOk result (λ faults. faults_in (map string_bytes words.now) ≡ Some faults.items) }
{
    let mut faults = Vec::new(alloc);
    for word in words {
        let Some(fault) = fault_in(word.as_str()) else {
            unreachable!()
        };
        faults.push(fault)?;
    }
    Ok(faults)
}

/// The faults that the words of the command name.
pub(crate) fn media_faults(alloc: Global, words: &[String]) -> Result<Vec<LineFault>, Memory>
    requires { AreMedia (map string_bytes words.now) }
    ensures { IfOk result (λ faults. media_faults (map string_bytes words.now) ≡ Some faults.items) }
{
    if words.is_empty() {
        return Ok(Vec::new(alloc));
    }
    faults_in(alloc, &words[1..])
}
