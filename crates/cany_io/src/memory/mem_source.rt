ghost use Rattle.std.specs.Prelude.{◌≡◌, ℕ, ◌<◌, ◌≤◌, ◌↔◌, min, [], ◌++◌, length, take, drop, Some, IsErr, IfOk, OnErr};
ghost use Rattle.cany_io.specs.Faults.{HasRisen, next_count};
ghost use Rattle.cany_io.specs.InMemory.{SourceState, FailsNext};

use super::call_plan::CallPlan;
use crate::{Failed, PlainSource, Source};
use std::marker::Model;

/// A source over bytes in memory, some of whose calls fail.
#[derive(Drop)]
pub struct MemSource {
    bytes: PlainSource,
    plan: CallPlan,
}

impl Model for MemSource {
    ghost Value = { SourceState };

    ghost view = { λ s. record { left = s.bytes; failing = s.plan.failing.items; calls = s.plan.calls; faults = s.plan.faults } };
}

impl MemSource {
    /// A source that gives these bytes, from the first on. `failing` lists the reads that fail,
    /// counted from 1.
    ///
    /// Promise: all of these bytes are left, the source has this list, no read was made, and none
    /// failed.
    ///
    /// Shown by: `the_first_read_fails`.
    pub fn new(bytes: Vec<u8>, failing: Vec<u32>) -> MemSource
        ensures { result ≡ record { left = bytes.items; failing = failing.items; calls = 0; faults = 0 } }
    {
        MemSource {
            bytes: PlainSource::new(bytes),
            plan: CallPlan::new(failing),
        }
    }

    /// How many reads were made.
    ///
    /// Promise: the number of reads made.
    ///
    /// Shown by: `other_words_read_nothing`.
    pub fn calls(&self) -> u64
        ensures { result ≡ self.now.calls }
    {
        self.plan.calls
    }

    /// How many reads failed.
    ///
    /// Promise: the number of reads that failed.
    ///
    /// Shown by: `the_first_read_fails`.
    pub fn faults(&self) -> u64
        ensures { result ≡ self.now.faults }
    {
        self.plan.faults
    }
}

impl Source for MemSource {
    ghost left = { λ s. Some s.left };

    ghost faults = { λ s. s.faults };

    /// Fills `buf` as far as there are bytes, unless this call is listed.
    ///
    /// Promise: it gives as many of the bytes left as there is room for, and these leave the
    /// source. At an error all bytes are left. The count of calls is one more, and at an error that
    /// of faults too, up to the last number of 64 bits.
    ///
    /// Shown by: `the_first_read_fails`, `each_read_fails_in_turn`.
    ///
    /// # Errors
    ///
    /// `Failed` exactly at a listed call.
    fn read(&mut self, buf: &mut [u8]) -> Result<usize, Failed>
        requires { 0 < length buf.old }
        ensures listed { IsErr result ↔ FailsNext self.old.failing self.old.calls }
        ensures filled { IfOk result (λ n. n ≡ min (length self.old.left) (length buf.new)) }
        ensures bytes { IfOk result (λ n. self.old.left ≡ take n buf.new ++ self.new.left) }
        ensures end { IfOk result (λ n. (n ≡ 0) ↔ (self.old.left ≡ [])) }
        ensures after_ok { IfOk result (λ n. self.new
            ≡ record self.old { left = drop n self.old.left; calls = next_count self.old.calls }) }
        ensures after_failed { OnErr result (self.new
            ≡ record self.old { calls = next_count self.old.calls; faults = next_count self.old.faults }) }
        ensures count { self.old.faults ≤ self.new.faults }
        ensures failed { OnErr result (HasRisen self.old.faults self.new.faults) }
    {
        if self.plan.begin() {
            return Err(self.plan.fail());
        }
        self.bytes.read(buf)
    }
}
