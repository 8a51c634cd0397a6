ghost use Rattle.std.specs.Prelude.{◌≡◌, ℕ, ◌<◌, ◌≤◌, ◌↔◌, List, [], length, take, Option, IfOk, IfSome, OnErr};
ghost use Rattle.cany_io.specs.Faults.{HasRisen};
ghost use Rattle.cany_io.specs.Source.{Gives};

use crate::Failed;

/// Where bytes come from. A source may tell which bytes it has left, as one in memory does, or keep
/// silent about them, as a file does.
pub trait Source {
    /// The bytes that reads will give from here on, or `None`, which claims nothing.
    ghost left: { Self → Option (List ℕ) };

    /// How often a read has failed. It never falls, and stands still at the last number of 64 bits.
    ghost faults: { Self → ℕ };

    /// Takes bytes off the front of those left and puts them at the start of `buf`, which may be
    /// filled in part. Nothing is said of what stands in `buf` behind them, nor of any of it after
    /// an error. After an error a read may be tried again.
    ///
    /// Promise: where the source tells its bytes, it gives the first of those left, and none
    /// exactly where none is left. At an error all bytes are left, and the count of faults never
    /// falls.
    ///
    /// Shown by: `the_first_read_fails`, `streams_of_std`.
    ///
    /// # Errors
    ///
    /// `Failed` only where the count of faults rose, or stands at the last number of 64 bits.
    fn read(&mut self, buf: &mut [u8]) -> Result<usize, Failed>
        requires { 0 < length buf.old }
        ensures bound { IfOk result (λ n. n ≤ length buf.new) }
        ensures bytes { IfOk result (λ n. Gives (left self.old) (take n buf.new) (left self.new)) }
        ensures end { IfOk result (λ n. IfSome (left self.old) (λ bytes. (n ≡ 0) ↔ (bytes ≡ []))) }
        ensures kept { OnErr result (left self.new ≡ left self.old) }
        ensures count { faults self.old ≤ faults self.new }
        ensures failed { OnErr result (HasRisen (faults self.old) (faults self.new)) };
}
