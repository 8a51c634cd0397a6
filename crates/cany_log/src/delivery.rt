//! The line of a delivery, which most lines of a report are.
ghost use Rattle.std.specs.Prelude.{◌≡◌, ◌+◌, ◌≤◌, ◌++◌, length, drop};
ghost use Rattle.cany_base.specs.declared.log_entry.LogEntry.TheVariants.{Deliver};
ghost use Rattle.cany_text.specs.ReportLines.{entry_line};

use crate::line::SHORT_LINE_BYTES;
use crate::text_before::{byte_before, number_before, payload_before, service_before, word_before};
use cany_base::{MsgKey, Payload, Service, Slot};

/// Writes the line of a delivery so that it ends at a place of a row of bytes, and answers where it
/// begins.
#[inline(always)]
pub(crate) fn delivery_before(
    row: &mut [u8],
    end: usize,
    slot: Slot,
    service: Service,
    msg: MsgKey,
    payload: &Payload,
) -> usize
    requires { (SHORT_LINE_BYTES ≤ end) × (end ≤ length row.old) }
    ensures within { result ≤ end }
    ensures short { end ≤ result + SHORT_LINE_BYTES }
    ensures text { drop result row.new ≡ entry_line (Deliver slot service msg payload.now) ++ drop end row.old }
{
    let at = byte_before(row, end, b'\n');
    let at = payload_before(row, at, payload);
    let at = number_before(row, at, u64::from(msg.seq));
    let at = number_before(row, at, u64::from(msg.origin.get()));
    let at = service_before(row, at, service);
    let at = number_before(row, at, slot);
    word_before(row, at, b"deliver")
}
