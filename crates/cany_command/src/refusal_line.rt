//! The line of a refusal.
ghost use Rattle.std.specs.Prelude.{ℕ, List};
ghost use Rattle.cany_log.specs.Written.{IsWritten};

use cany_io::{Failed, Sink};
use cany_log::{Refusal, write_refusal};

/// Why a command refuses what it was given, with the line that says so. The line begins with
/// `refused` and has its line feed.
pub trait RefusalLine: Drop {
    /// The bytes of the line.
    ghost line: { Self → List ℕ };

    /// Writes the line. It takes no memory.
    ///
    /// Promise: exactly the line of the refusal is written, or at a failure a prefix of it.
    ///
    /// Shown by: `the_write_of_a_refusal_fails`, `.ci/refusals.py`.
    ///
    /// # Errors
    ///
    /// `Failed` only where the sink's count of faults rose.
    fn write_line<K: Sink>(&self, sink: &mut K) -> Result<(), Failed>
        ensures { IsWritten (line self.now) result
            (K.taken sink.old) (K.taken sink.new) (K.faults sink.old) (K.faults sink.new) };
}

impl RefusalLine for Refusal {
    ghost use Rattle.cany_log.specs.Refusals.{refusal_line};

    ghost line = { refusal_line };

    fn write_line<K: Sink>(&self, sink: &mut K) -> Result<(), Failed> {
        write_refusal(self, sink)
    }
}

/// The refusal of a command that has none of its own. No command makes one; its line is empty.
///
/// It has a value, since a call that nothing could make would prove whatever its contract says, and
/// the gate lets no such call pass.
#[derive(Clone, Copy, Debug)]
pub struct NoRefusal;

impl RefusalLine for NoRefusal {
    ghost use Rattle.std.specs.Prelude.{[]};

    ghost line = { λ _. [] };

    fn write_line<K: Sink>(&self, _sink: &mut K) -> Result<(), Failed> {
        Ok(())
    }
}
