//! What the nodes came to: of each its incarnations, the first one first, and their logs.
ghost use Rattle.std.specs.Prelude.{◌≡◌, ◌==◌, ◌<◌, ◌≤◌, [], if◌then◌else◌, Some, None};
ghost use Rattle.std.specs.List.{concat, flat_map, range_with_len};
ghost use Rattle.cany_model.specs.Bus.State.{node_at};
ghost use Rattle.cany_text.specs.Report.{incarnation_lines, node_lines};
ghost use Rattle.cany_text.specs.ReportLines.{node_line};
ghost use Rattle.cany_log.specs.Fields.{most_bytes, stop_texts, texts_of};
ghost use Rattle.cany_log.specs.Written.{IsWritten};
ghost use Rattle.cany_world.specs.World.{state_of};

use crate::entries::write_entries;
use crate::line::write_line;
use crate::page::Page;
use crate::text_field::TextField;
use cany_base::{NodeId, Slot};
use cany_io::{Failed, Sink};
use cany_model::Span;
use cany_world::World;

/// The number, where the incarnation is not the first.
fn if_later(inc: u8, number: u64) -> Option<u64>
    ensures { result ≡ (if inc == 0 then None else Some number) }
{
    if inc > 0 { Some(number) } else { None }
}

/// Whether an incarnation stopped, and in which slot.
fn stop_field(stopped: Option<Slot>) -> TextField
    ensures texts { texts_of result ≡ stop_texts stopped }
    ensures short { most_bytes result ≤ 30 }
{
    match stopped {
        None => TextField::Text("correct"),
        Some(slot) => TextField::NumberIfAny("stopped", Some(slot)),
    }
}

/// Writes the line of an incarnation of a node: since when it runs, where it is not the first;
/// whether it stopped; and how many notices it read.
pub(crate) fn write_node_line<K: Sink>(
    node: NodeId,
    inc: u8,
    span: &Span,
    sink: &mut K,
) -> Result<(), Failed>
    ensures { IsWritten (node_line node inc span.now) result
        (K.taken sink.old) (K.taken sink.new) (K.faults sink.old) (K.faults sink.new) }
{
    let number = TextField::Number(u64::from(node.get()));
    let incarnation = TextField::NumberIfAny("inc", if_later(inc, u64::from(inc)));
    let since = TextField::NumberIfAny("since", if_later(inc, span.since));
    let word = TextField::Text("read");
    let read = TextField::Number(span.read);
    let stopped = stop_field(span.stopped);
    write_line(
        "node",
        &[number, incarnation, since, stopped, word, read],
        sink,
    )
}

/// Writes an incarnation of a node and its log.
fn write_incarnation<K: Sink>(
    world: &World,
    node: NodeId,
    inc: u8,
    page: &mut Page,
    sink: &mut K,
) -> Result<(), Failed>
    requires page { page.old ≡ [] }
    requires node { node < world.now.scenario.params.nodes }
    requires inc { inc ≤ (node_at (state_of world.now).nodes node).present.number }
    ensures written { IsWritten (concat (incarnation_lines world.now.scenario (state_of world.now) node inc)) result
        (K.taken sink.old) (K.taken sink.new) (K.faults sink.old) (K.faults sink.new) }
    ensures empty { page.new ≡ [] }
{
    write_node_line(node, inc, &world.span(node, inc), sink)?;
    write_entries(world.log_of(node, inc), page, sink)
}

/// Writes the incarnations of a node.
fn write_node<K: Sink>(
    world: &World,
    node: NodeId,
    page: &mut Page,
    sink: &mut K,
) -> Result<(), Failed>
    requires page { page.old ≡ [] }
    requires node { node < world.now.scenario.params.nodes }
    ensures written { IsWritten (concat (node_lines world.now.scenario (state_of world.now) node)) result
        (K.taken sink.old) (K.taken sink.new) (K.faults sink.old) (K.faults sink.new) }
    ensures empty { page.new ≡ [] }
{
    for inc in 0..=world.incarnation(node) {
        write_incarnation(world, node, inc, page, sink)?;
    }
    Ok(())
}

/// Writes the nodes.
pub(crate) fn write_nodes<K: Sink>(
    world: &World,
    page: &mut Page,
    sink: &mut K,
) -> Result<(), Failed>
    requires { page.old ≡ [] }
    ensures written { IsWritten (concat (flat_map (node_lines world.now.scenario (state_of world.now))
        (range_with_len 0 world.now.scenario.params.nodes))) result
        (K.taken sink.old) (K.taken sink.new) (K.faults sink.old) (K.faults sink.new) }
    ensures empty { page.new ≡ [] }
{
    for number in 0..world.scenario().params().nodes {
        write_node(world, NodeId::new(number).unwrap(), page, sink)?;
    }
    Ok(())
}
