//! The lines of the entries of a log.
ghost use Rattle.std.specs.Prelude.{◌≡◌, ◌≤◌, ◌++◌, ◌*◌, ◌+◌, [], length};
ghost use Rattle.std.specs.List.{flat_map};
ghost use Rattle.cany_text.specs.ReportLines.{entry_line};
ghost use Rattle.cany_base.specs.declared.log_entry.LogEntry.TheVariants.{Failed as AsFailed, View};
ghost use Rattle.cany_log.specs.Written.{IsWritten};

use crate::line::SHORT_LINE_BYTES;
use crate::line_buffer::LineBuffer;
use crate::page::{PAGE_BYTES, Page, SHORT_LINES, write_page};
use cany_base::{LogEntry, NodeId, NodeSet, Slot};
use cany_io::{Failed, Sink, write_whole};

/// Puts the line of a failure.
fn put_failure<const ROOM: usize>(
    line_buffer: &mut LineBuffer<ROOM>,
    slot: Slot,
    node: NodeId,
    cycle: u16,
)
    requires { length line_buffer.old + SHORT_LINE_BYTES ≤ ROOM }
    ensures text { line_buffer.new ≡ entry_line (AsFailed slot node cycle) ++ line_buffer.old }
    ensures short { length line_buffer.new ≤ length line_buffer.old + SHORT_LINE_BYTES }
{
    line_buffer.put_bytes(b"\n");
    line_buffer.put_number(u64::from(cycle));
    line_buffer.put_number(u64::from(node.get()));
    line_buffer.put_number(slot);
    line_buffer.put_bytes(b"failed");
}

/// Puts the line of a view.
fn put_view<const ROOM: usize>(
    line_buffer: &mut LineBuffer<ROOM>,
    slot: Slot,
    number: u16,
    members: NodeSet,
)
    requires { length line_buffer.old + SHORT_LINE_BYTES ≤ ROOM }
    ensures text { line_buffer.new ≡ entry_line (View slot number members) ++ line_buffer.old }
    ensures short { length line_buffer.new ≤ length line_buffer.old + SHORT_LINE_BYTES }
{
    line_buffer.put_bytes(b"\n");
    line_buffer.put_set(members);
    line_buffer.put_number(u64::from(number));
    line_buffer.put_number(slot);
    line_buffer.put_bytes(b"view");
}

/// Puts the line of an entry, which is a short one.
#[inline(always)]
fn put_entry<const ROOM: usize>(line_buffer: &mut LineBuffer<ROOM>, entry: &LogEntry)
    requires { length line_buffer.old + SHORT_LINE_BYTES ≤ ROOM }
    ensures text { line_buffer.new ≡ entry_line entry.now ++ line_buffer.old }
    ensures short { length line_buffer.new ≤ length line_buffer.old + SHORT_LINE_BYTES }
{
    match *entry {
        LogEntry::Deliver {
            slot,
            service,
            msg,
            payload,
        } => line_buffer.put_delivery(slot, service, msg, &payload),
        LogEntry::Failed { slot, node, cycle } => put_failure(line_buffer, slot, node, cycle),
        LogEntry::View {
            slot,
            number,
            members,
        } => put_view(line_buffer, slot, number, members),
    }
}

/// Writes the line of an entry of a log. It takes no memory.
///
/// Promise: exactly the line of the entry is written, or at a failure a prefix of it.
///
/// Shown by: `watch_one_node`, `watch_two_incarnations`.
///
/// # Errors
///
/// `Failed` only where the sink's count of faults rose.
pub fn write_entry<K: Sink>(entry: &LogEntry, sink: &mut K) -> Result<(), Failed>
    ensures { IsWritten (entry_line entry.now) result
        (K.taken sink.old) (K.taken sink.new) (K.faults sink.old) (K.faults sink.new) }
{
    let mut line_buffer: LineBuffer<SHORT_LINE_BYTES> = LineBuffer::new();
    put_entry(&mut line_buffer, entry);
    write_whole(sink, line_buffer.as_slice())
}

/// Puts the lines of some entries of a log.
fn put_entries(entries: &[LogEntry], page: &mut Page)
    requires { length page.old + SHORT_LINE_BYTES * length entries.now ≤ PAGE_BYTES }
    ensures { page.new ≡ flat_map entry_line entries.now ++ page.old }
{
    let mut left = entries.len();
    while left > 0 {
        left -= 1;
        put_entry(page, &entries[left]);
    }
}

/// Writes the lines of a log. The page is empty before and after.
pub(crate) fn write_entries<K: Sink>(
    log: &[LogEntry],
    page: &mut Page,
    sink: &mut K,
) -> Result<(), Failed>
    requires { page.old ≡ [] }
    ensures written { IsWritten (flat_map entry_line log.now) result
        (K.taken sink.old) (K.taken sink.new) (K.faults sink.old) (K.faults sink.new) }
    ensures empty { page.new ≡ [] }
{
    for entries in log.chunks(SHORT_LINES) {
        put_entries(entries, page);
        write_page(page, sink)?;
    }
    Ok(())
}
