//! The line of a message.
ghost use Rattle.std.specs.Prelude.{◌≡◌, ◌+◌, ◌≤◌, ◌++◌, codes, if◌then◌else◌, length};
ghost use Rattle.cany_text.specs.ReportLines.{message_line};

use crate::line::SHORT_LINE_BYTES;
use crate::page::{PAGE_BYTES, Page};
use cany_base::SendAsk;

/// The word for whether a message is settled.
fn state_name(is_settled: bool) -> &'static str
    ensures name { result.now ≡ (if is_settled then codes "settled" else codes "open") }
    ensures short { length result.now ≤ 7 }
{
    if is_settled { "settled" } else { "open" }
}

/// Puts the line of the message of a send, which has this sequence number.
pub(crate) fn put_message(send: &SendAsk, seq: u64, is_settled: bool, page: &mut Page)
    requires { length page.old + SHORT_LINE_BYTES ≤ PAGE_BYTES }
    ensures text { page.new ≡ message_line (record {
      slot = send.now.slot;
      origin = send.now.node;
      seq = seq;
      service = send.now.service;
      payload = send.now.payload;
    }) is_settled ++ page.old }
    ensures short { length page.new ≤ length page.old + SHORT_LINE_BYTES }
{
    page.put_bytes(b"\n");
    page.put_text(state_name(is_settled));
    page.put_number(seq);
    page.put_number(u64::from(send.node.get()));
    page.put_service(send.service);
    page.put_bytes(b"message");
}
