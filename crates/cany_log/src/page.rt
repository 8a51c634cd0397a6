//! Lines that go to the sink together, since to hand over a line takes as long as to put it
//! together.
ghost use Rattle.std.specs.Prelude.{◌≡◌, [], replicate};
ghost use Rattle.std.specs.List.{concat};
ghost use Rattle.cany_log.specs.Written.{IsWritten};

use crate::line_buffer::LineBuffer;
use cany_io::{Failed, Sink, write_whole};

/// How many lines a page has at most.
pub(crate) const LINES: usize = 16;

/// How many short lines a page has at most.
pub(crate) const SHORT_LINES: usize = 64;

/// How many bytes so many lines have at most.
pub(crate) const PAGE_BYTES: usize = 16_384;

/// Some lines, of which the last one is put first.
pub(crate) type Page = LineBuffer<PAGE_BYTES>;

/// Writes the lines of a page, which has none then.
pub(crate) fn write_page<K: Sink>(page: &mut Page, sink: &mut K) -> Result<(), Failed>
    ensures written { IsWritten page.old result
        (K.taken sink.old) (K.taken sink.new) (K.faults sink.old) (K.faults sink.new) }
    ensures empty { page.new ≡ [] }
{
    let written = write_whole(sink, page.as_slice());
    page.clear();
    written
}

/// Writes bytes so many times.
fn write_times<K: Sink>(bytes: &[u8], times: usize, sink: &mut K) -> Result<(), Failed>
    ensures { IsWritten (concat (replicate times bytes.now)) result
        (K.taken sink.old) (K.taken sink.new) (K.faults sink.old) (K.faults sink.new) }
{
    for _time in 0..times {
        write_whole(sink, bytes)?;
    }
    Ok(())
}

/// Writes the lines of a page, which has none then, so many times.
pub(crate) fn write_page_times<K: Sink>(
    page: &mut Page,
    times: usize,
    sink: &mut K,
) -> Result<(), Failed>
    ensures written { IsWritten (concat (replicate times page.old)) result
        (K.taken sink.old) (K.taken sink.new) (K.faults sink.old) (K.faults sink.new) }
    ensures empty { page.new ≡ [] }
{
    let written = write_times(page.as_slice(), times, sink);
    page.clear();
    written
}
