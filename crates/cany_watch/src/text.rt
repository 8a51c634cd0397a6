//! The lines of the text.
ghost use Rattle.std.specs.Prelude.{◌++◌};
ghost use Rattle.std.specs.List.{flat_map};
ghost use Rattle.cany_log.specs.Written.{IsWritten};
ghost use Rattle.cany_watch.specs.WatchText as text;

use cany_base::Action;
use cany_io::{Failed, Sink};
use cany_log::{TextField, write_entry, write_short_line};

/// Writes which node was watched.
#[tactic(auto, unfolding(crate::specs::WatchText::node_line, cany_text::specs::ReportLines::line_of))]
fn write_node_line<K: Sink>(node: u8, sink: &mut K) -> Result<(), Failed>
    ensures { IsWritten (text.node_line node) result
        (K.taken sink.old) (K.taken sink.new) (K.faults sink.old) (K.faults sink.new) }
{
    write_short_line("node", &[TextField::Number(u64::from(node))], sink)
}

/// Writes the entry that was read.
fn write_read<K: Sink>(read: &Action, sink: &mut K) -> Result<(), Failed>
    ensures { IsWritten (text.read_text read.now) result
        (K.taken sink.old) (K.taken sink.new) (K.faults sink.old) (K.faults sink.new) }
{
    match read {
        Action::Enter(entry) => write_entry(entry, sink),
        _ => Ok(()),
    }
}

/// Writes the entries that were read, in their order.
fn write_all_read<K: Sink>(reads: &[Action], sink: &mut K) -> Result<(), Failed>
    ensures { IsWritten (flat_map text.read_text reads.now) result
        (K.taken sink.old) (K.taken sink.new) (K.faults sink.old) (K.faults sink.new) }
{
    for read in reads {
        write_read(read, sink)?;
    }
    Ok(())
}

/// Writes the text of a node, by what was read of its line.
pub(crate) fn write_watched<K: Sink>(node: u8, reads: &[Action], sink: &mut K) -> Result<(), Failed>
    ensures { IsWritten (text.first_line ++ text.node_line node ++ flat_map text.read_text reads.now ++ text.last_line) result
        (K.taken sink.old) (K.taken sink.new) (K.faults sink.old) (K.faults sink.new) }
{
    write_short_line("canely watch 1", &[], sink)?;
    write_node_line(node, sink)?;
    write_all_read(reads, sink)?;
    write_short_line("end", &[], sink)
}

/// Writes that there is no such node.
#[tactic(auto, unfolding(crate::specs::WatchText::no_node_line, cany_text::specs::ReportLines::line_of))]
pub(crate) fn write_no_node<K: Sink>(node: u8, sink: &mut K) -> Result<(), Failed>
    ensures { IsWritten (text.no_node_line node) result
        (K.taken sink.old) (K.taken sink.new) (K.faults sink.old) (K.faults sink.new) }
{
    write_short_line(
        "refused no node",
        &[TextField::Number(u64::from(node))],
        sink,
    )
}
