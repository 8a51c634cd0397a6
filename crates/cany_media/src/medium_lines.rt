//! The lines of the faults, one after another, as they are written before the report.
ghost use Rattle.std.specs.Prelude.{◌≡◌, ◌<◌, ◌∷◌, ◌++◌, [], decimal, IfOk, OnOk, if◌then◌else◌};
ghost use Rattle.cany_base.specs.Limits.{most_nodes};
ghost use Rattle.cany_base.specs.Nodes.{has};
ghost use Rattle.cany_media.specs.MediaText.{medium_line, medium_lines, state_fields};
ghost use Rattle.cany_media.specs.Spaced.{spaced};
ghost use Rattle.cany_text.specs.ReportLines.{set_text};

use crate::line::{Line, LineFault};
use cany_base::{Memory, NodeId, NodeSet};
use itoa::Buffer;
use std::alloc::Global;

fn put(text: &mut Vec<u8>, bytes: &[u8]) -> Result<(), Memory>
    ensures { OnOk result (text.new.items ≡ text.old.items ++ bytes.now) }
{
    text.extend_from_slice(bytes)?;
    Ok(())
}

/// Puts a field with the space before it.
fn put_field(text: &mut Vec<u8>, field: &str) -> Result<(), Memory>
    ensures { OnOk result (text.new.items ≡ text.old.items ++ 32 ∷ field.now) }
{
    put(text, b" ")?;
    put(text, field.as_bytes())
}

fn put_decimal(text: &mut Vec<u8>, number: u64) -> Result<(), Memory>
    ensures { OnOk result (text.new.items ≡ text.old.items ++ decimal number) }
{
    let mut digits = Buffer::new();
    put(text, digits.format(number).as_bytes())
}

/// Puts a number with the space before it.
fn put_number(text: &mut Vec<u8>, number: u64) -> Result<(), Memory>
    ensures { OnOk result (text.new.items ≡ text.old.items ++ 32 ∷ decimal number) }
{
    put(text, b" ")?;
    put_decimal(text, number)
}

fn has(nodes: NodeSet, number: u8) -> bool
    requires { number < most_nodes }
    ensures { result ≡ has nodes number }
{
    nodes.has(NodeId::of_index(number as usize))
}

/// Puts a number, after a comma where it is not the first.
fn put_next(text: &mut Vec<u8>, is_first: bool, number: u8) -> Result<(), Memory>
    ensures { OnOk result (text.new.items ≡ (if is_first then text.old.items else text.old.items ++ 44 ∷ []) ++ decimal number) }
{
    if !is_first {
        put(text, b",")?;
    }
    put_decimal(text, u64::from(number))
}

/// Puts the numbers of the set's nodes, ascending and with a comma between them, or `-` where there
/// are none.
fn put_set(text: &mut Vec<u8>, nodes: NodeSet) -> Result<(), Memory>
    ensures { OnOk result (text.new.items ≡ text.old.items ++ set_text nodes) }
{
    let mut is_first = true;
    for number in 0..NodeId::COUNT {
        if has(nodes, number) {
            put_next(text, is_first, number)?;
            is_first = false;
        }
    }
    if is_first {
        put(text, b"-")?;
    }
    Ok(())
}

/// Puts how a line is.
fn put_state(text: &mut Vec<u8>, state: &Line) -> Result<(), Memory>
    ensures { OnOk result (text.new.items ≡ text.old.items ++ spaced (state_fields state.now)) }
{
    match *state {
        Line::Whole => put_field(text, "whole"),
        Line::Down => put_field(text, "down"),
        Line::Split(part) => {
            put_field(text, "split")?;
            put(text, b" ")?;
            put_set(text, part)
        }
    }
}

fn put_line(text: &mut Vec<u8>, fault: &LineFault) -> Result<(), Memory>
    ensures { OnOk result (text.new.items ≡ text.old.items ++ medium_line fault.now) }
{
    put(text, b"medium")?;
    put_number(text, u64::from(fault.line))?;
    put_number(text, fault.from)?;
    put_number(text, fault.to)?;
    put_state(text, &fault.state)?;
    put(text, b"\n")?;
    Ok(())
}

/// The lines of the faults, in their order.
pub(crate) fn medium_lines(alloc: Global, faults: &[LineFault]) -> Result<Vec<u8>, Memory>
    ensures { IfOk result (λ text. text.items ≡ medium_lines faults.now) }
{
    let mut text = Vec::new(alloc);
    for fault in faults {
        put_line(&mut text, fault)?;
    }
    Ok(text)
}
