//! All workers at once.
ghost use Rattle.std.specs.Prelude.{◌<◌, vec_len};
ghost use Rattle.cany_crew.specs.Assignments.{AreAfterWork};

use crate::assignment::Assignment;
use crate::gate::Gate;
use crate::worker::{Work, work_assignment};
use cany_yard::Course;
use std::sync::Wait;
use std::sync::ledger::Ledger;
use std::thread;
use std::thread::Threads;

/// Works all assignments, each in a thread of its own. Where no thread can be made they are worked
/// one after another.
pub(crate) fn work_all<
    L: Course + Send + Sync,
    B: Ledger + Send + Sync,
    G: Gate,
    R: Threads + Wait + Sync,
>(rt: &R, work: &Work<'_, L, B>, assignments: &mut Vec<Assignment<L, B, G>>)
    requires { 0 < vec_len assignments.old }
    ensures { AreAfterWork assignments.old.items assignments.new.items }
{
    let threads = assignments.len();
    let each = assignments.as_mut_slice();
    thread::for_each_mut(
        rt,
        each,
        threads,
        &|_, assignment| work_assignment(rt, work, assignment),
    );
}
