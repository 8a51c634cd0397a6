//! A line for each item of a list.
ghost use Rattle.std.specs.Prelude.{ℕ, List, map};
ghost use Rattle.std.specs.List.{concat};
ghost use Rattle.cany_log.specs.Written.{IsWritten};

use cany_io::{Failed, Sink};

/// What has a line in the text of a verdict.
pub(crate) trait Line {
    /// The bytes of the line.
    ghost line: { Self → List ℕ };

    /// Writes the line. It takes no memory.
    fn write<K: Sink>(&self, sink: &mut K) -> Result<(), Failed>
        ensures { IsWritten (line self.now) result
            (K.taken sink.old) (K.taken sink.new) (K.faults sink.old) (K.faults sink.new) };
}

/// Writes the lines of these items.
pub(crate) fn write_lines<L: Line, K: Sink>(items: &[L], sink: &mut K) -> Result<(), Failed>
    ensures { IsWritten (concat (map L.line items.now)) result
        (K.taken sink.old) (K.taken sink.new) (K.faults sink.old) (K.faults sink.new) }
{
    for item in items {
        item.write(sink)?;
    }
    Ok(())
}
