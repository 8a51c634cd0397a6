ghost use Rattle.std.specs.Prelude.{◌≡◌, ℕ, ◌<◌, ◌≤◌, List, length, take, Option, IfOk, OnErr};
ghost use Rattle.cany_io.specs.Faults.{HasRisen};
ghost use Rattle.cany_io.specs.Sink.{Takes};

use crate::Failed;

/// Where bytes go. A sink may tell which bytes it took, as one in memory does, or keep silent about
/// them, as a terminal does.
pub trait Sink {
    /// The bytes taken so far, or `None`, which claims nothing.
    ghost taken: { Self → Option (List ℕ) };

    /// How often a write has failed. It never falls, and stands still at the last number of 64
    /// bits.
    ghost faults: { Self → ℕ };

    /// Takes bytes off the front of `piece`, at least one. A device that takes none answers
    /// `Failed`. After an error a write may be tried again.
    ///
    /// Promise: it takes some first bytes of the piece, at least one. Where the sink tells its
    /// bytes, these then stand behind those before. At an error no byte is taken, and the count of
    /// faults never falls.
    ///
    /// Shown by: `the_third_write_fails`, `streams_of_std`, `taking_nothing_is_ok`.
    ///
    /// # Errors
    ///
    /// `Failed` only where the count of faults rose, or stands at the last number of 64 bits.
    fn write(&mut self, piece: &[u8]) -> Result<usize, Failed>
        requires { 0 < length piece.now }
        ensures bound { IfOk result (λ n. n ≤ length piece.now) }
        ensures some { IfOk result (λ n. 0 < n) }
        ensures bytes { IfOk result (λ n. Takes (taken self.old) (take n piece.now) (taken self.new)) }
        ensures kept { OnErr result (taken self.new ≡ taken self.old) }
        ensures count { faults self.old ≤ faults self.new }
        ensures failed { OnErr result (HasRisen (faults self.old) (faults self.new)) };
}
