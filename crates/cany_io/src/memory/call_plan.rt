ghost use Rattle.std.specs.Prelude.{◌≡◌, ◌≤◌, ◌↔◌, IsTrue};
ghost use Rattle.cany_io.specs.Faults.{next_count};
ghost use Rattle.cany_io.specs.InMemory.{FailsNext};

use crate::Failed;

/// Which calls are to fail, counted from 1, and how many were made and failed. Both counts stand
/// still at their last number.
#[derive(Drop)]
pub struct CallPlan {
    pub failing: Vec<u32>,
    pub calls: u64,
    pub faults: u64,
}

impl CallPlan {
    /// A plan by which the calls of these numbers fail, counted from 1.
    ///
    /// Promise: these calls are listed, no call was made, and none failed.
    ///
    /// Shown by: `the_first_read_fails`, `the_third_write_fails`.
    pub fn new(failing: Vec<u32>) -> CallPlan
        ensures { result ≡ record { failing = failing; calls = 0; faults = 0 } }
    {
        CallPlan {
            failing,
            calls: 0,
            faults: 0,
        }
    }

    /// Counts a call, and says whether it is one of those that are to fail.
    ///
    /// Promise: the count of calls is one more, up to the last number of 64 bits, and all else
    /// stays.
    ///
    /// Answers: `true` exactly where this call is listed.
    ///
    /// Shown by: `the_first_read_fails`, `the_third_write_fails`.
    pub fn begin(&mut self) -> bool
        ensures listed { IsTrue result ↔ FailsNext self.old.failing.items self.old.calls }
        ensures called { self.new ≡ record self.old { calls = next_count self.old.calls } }
    {
        self.calls = self.calls.saturating_add(1);
        let number = self.calls;
        self.failing
            .iter()
            .any(|listed| u64::from(*listed) == number)
    }

    /// Counts a fault.
    ///
    /// Promise: the count of faults is one more, up to the last number of 64 bits, and all else
    /// stays.
    ///
    /// Shown by: `the_first_read_fails`, `a_fault_is_not_counted`.
    pub fn fail(&mut self) -> Failed
        ensures failed { self.new ≡ record self.old { faults = next_count self.old.faults } }
        ensures count { self.old.faults ≤ self.new.faults }
    {
        self.faults = self.faults.saturating_add(1);
        Failed
    }
}
