//! The line of a slot of the bus.
ghost use Rattle.std.specs.Prelude.{◌≡◌, ◌+◌, ◌≤◌, ◌∷◌, ◌++◌, [], codes, decimal, length};
ghost use Rattle.cany_base.specs.Limits.{most_line_bytes};
ghost use Rattle.cany_text.specs.ReportLines as report;
ghost use Rattle.cany_text.specs.TextNames.{class_name, verdict_name};
ghost use Rattle.cany_log.specs.Fields.{most_payload_bytes, spaced};

use crate::line::put_set_if_any;
use crate::page::{PAGE_BYTES, Page};
use can_frame::is_remote;
use cany_base::{Frame, NodeSet, SlotNote};
use cany_text::names::{class_name, verdict_name};

/// Puts the bytes of a data frame. A remote frame has none to show.
fn put_frame_payload(frame: &Frame, page: &mut Page)
    requires { length page.old + (1 + most_payload_bytes) ≤ PAGE_BYTES }
    ensures text { page.new ≡ (32 ∷ report.frame_payload frame.now) ++ page.old }
    ensures short { length (report.frame_payload frame.now) ≤ most_payload_bytes }
{
    if is_remote(frame.class) {
        page.put_bytes(b" r");
    } else {
        page.put_payload(&frame.payload);
    }
}

/// Puts what a slot carried, and what came of it.
fn put_carried(note: &SlotNote, frame: &Frame, page: &mut Page)
    requires { length page.old + 512 ≤ PAGE_BYTES }
    ensures text { page.new ≡ spaced (
        class_name frame.now.class ∷ report.node_text frame.now.node frame.now.inc ∷ decimal frame.now.number
        ∷ report.frame_payload frame.now ∷ codes "from" ∷ report.set_text note.now.senders
        ∷ codes "to" ∷ report.set_text note.now.takers ∷ verdict_name note.now.verdict ∷ []) ++ page.old }
    ensures short { length page.new ≤ length page.old + 512 }
{
    page.put_text(verdict_name(note.verdict));
    page.put_set(note.takers);
    page.put_bytes(b" to");
    page.put_set(note.senders);
    page.put_bytes(b" from");
    put_frame_payload(frame, page);
    page.put_number(u64::from(frame.number));
    page.put_node(frame.node, frame.inc);
    page.put_text(class_name(frame.class));
}

/// Puts the line of a slot, at whose end these nodes started again.
pub(crate) fn put_bus_line(note: &SlotNote, again: NodeSet, page: &mut Page)
    requires { length page.old + most_line_bytes ≤ PAGE_BYTES }
    ensures text { page.new ≡ report.bus_line note.now again ++ page.old }
    ensures short { length page.new ≤ length page.old + most_line_bytes }
{
    page.put_bytes(b"\n");
    put_set_if_any(page, "restart", again);
    put_set_if_any(page, "stop", note.stops);
    match &note.frame {
        None => page.put_bytes(b" idle"),
        Some(frame) => put_carried(note, frame, page),
    }
    page.put_number(note.slot);
    page.put_bytes(b"bus");
}

/// Whether a slot has a line: it carried a frame, or a node stopped or started again in it.
#[tactic(auto, unfolding(cany_text::specs::ReportLines::is_shown))]
pub(crate) fn is_shown(note: &SlotNote, again: NodeSet) -> bool
    ensures { result ≡ report.is_shown note.now again }
{
    note.frame.is_some() || !note.stops.is_empty() || !again.is_empty()
}
