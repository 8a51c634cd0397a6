ghost use Rattle.std.specs.Prelude.{◌≡◌, ◌⊎◌, ℕ, ◌-◌, ◌<◌, ◌≤◌, ◌↔◌, min, List, [], ◌++◌, length, vec_capacity, take, Some, IsErr, IfOk, OnErr};
ghost use Rattle.cany_io.specs.Faults.{HasRisen, next_count};
ghost use Rattle.cany_io.specs.InMemory.{SinkState, FailsNext};
ghost use Rattle.cany_io.specs.Sink.{Takes};

use super::call_plan::CallPlan;
use crate::{Failed, Sink};
use cany_base::Memory;
use std::alloc::Global;
use std::marker::Model;

/// A sink that keeps what it takes, up to the room that it was made with, and some of whose calls
/// fail.
#[derive(Drop)]
pub struct MemSink {
    taken: Vec<u8>,
    room: usize,
    plan: CallPlan,
}

impl Model for MemSink {
    ghost Value = { SinkState };

    ghost view = { λ s. record { taken = s.taken.items; failing = s.plan.failing.items; room = s.room; calls = s.plan.calls; faults = s.plan.faults } };

    ghost invariant = { λ s. (length s.taken.items ≤ s.room) × (s.room ≤ vec_capacity s.taken) };
}

impl MemSink {
    /// A sink with room for `room` bytes. `failing` lists the writes that fail, counted from 1.
    ///
    /// Promise: the sink has this room and this list, no byte is taken, no write was made, and none
    /// failed.
    ///
    /// Shown by: `the_third_write_fails`.
    ///
    /// # Errors
    ///
    /// `Memory`: out of memory.
    pub fn new(alloc: Global, failing: Vec<u32>, room: usize) -> Result<MemSink, Memory>
        ensures { IfOk result (λ sink. sink
            ≡ record { taken = []; failing = failing.items; room = room; calls = 0; faults = 0 }) }
    {
        Ok(MemSink {
            taken: Vec::with_capacity(alloc, room)?,
            room,
            plan: CallPlan::new(failing),
        })
    }

    /// The bytes taken so far.
    ///
    /// Promise: the bytes taken so far, in their order.
    ///
    /// Shown by: `the_third_write_fails`.
    pub fn taken(&self) -> &[u8]
        ensures { result.now ≡ self.now.taken }
    {
        &self.taken
    }

    /// How many writes were made.
    ///
    /// Promise: the number of writes made.
    ///
    /// Shown by: nothing runs it; it has no edit.
    pub fn calls(&self) -> u64
        ensures { result ≡ self.now.calls }
    {
        self.plan.calls
    }

    /// How many writes failed.
    ///
    /// Promise: the number of writes that failed.
    ///
    /// Shown by: `the_third_write_fails`.
    pub fn faults(&self) -> u64
        ensures { result ≡ self.now.faults }
    {
        self.plan.faults
    }
}

impl Sink for MemSink {
    ghost taken = { λ s. Some s.taken };

    ghost faults = { λ s. s.faults };

    /// Takes as much of `piece` as there is room for, unless this call is listed or no room is
    /// left.
    ///
    /// Promise: it takes as many first bytes of the piece as there is room for, at least one. At an
    /// error it takes none. The count of calls is one more, and at an error that of faults too, up
    /// to the last number of 64 bits.
    ///
    /// Shown by: `the_third_write_fails`, `each_write_fails_in_turn`, `a_write_is_dropped`.
    ///
    /// # Errors
    ///
    /// `Failed` exactly at a listed call, or where no room is left.
    fn write(&mut self, piece: &[u8]) -> Result<usize, Failed>
        requires { 0 < length piece.now }
        ensures refused { IsErr result ↔ FailsNext self.old.failing self.old.calls ⊎ (length self.old.taken ≡ self.old.room) }
        ensures some { IfOk result (λ n. 0 < n) }
        ensures filled { IfOk result (λ n. n ≡ min (length piece.now) (self.old.room - length self.old.taken)) }
        ensures after_ok { IfOk result (λ n. self.new
            ≡ record self.old { taken = self.old.taken ++ take n piece.now; calls = next_count self.old.calls }) }
        ensures after_failed { OnErr result (self.new
            ≡ record self.old { calls = next_count self.old.calls; faults = next_count self.old.faults }) }
        ensures count { self.old.faults ≤ self.new.faults }
        ensures failed { OnErr result (HasRisen self.old.faults self.new.faults) }
    {
        let is_listed = self.plan.begin();
        let space = self.room - self.taken.len();
        if is_listed || space == 0 {
            return Err(self.plan.fail());
        }
        let count = piece.len().min(space);
        self.taken.extend_from_slice(&piece[..count]).unwrap();
        Ok(count)
    }
}
