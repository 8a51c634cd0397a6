ghost use Rattle.std.specs.Prelude.{◌≡◌, ℕ, Err, Some, None, IfOk, OnOk};
ghost use Rattle.cany_media.specs.Overlaps.{first_overlap};
ghost use Rattle.cany_media.specs.Plan.{lines_at};

use crate::line::{Line, LineFault};
use crate::tables::LineTables;
use cany_base::{Memory, Slot};
use std::alloc::{AllocError, Global};
use std::marker::Model;
use thiserror::Error;

/// Why faults make no plan.
#[derive(Clone, Copy, Debug, Error)]
pub enum MediaFault {
    /// The fault at `index`, counted from 0, shares a slot with an earlier one of its line.
    #[error("fault {index} shares a slot with an earlier fault of its line")]
    Overlap { index: usize },
    /// There was no memory. No contract ties it to a cause.
    #[error("out of memory")]
    Memory,
}

impl From<Memory> for MediaFault {
    ghost use Rattle.cany_media.specs.declared.plan.MediaFault.TheVariants as fault;

    ghost from_gives = { λ _ e. e ≡ fault.Memory };

    fn from(_: Memory) -> Self {
        MediaFault::Memory
    }
}

impl From<AllocError> for MediaFault {
    ghost use Rattle.cany_media.specs.declared.plan.MediaFault.TheVariants as fault;

    ghost from_gives = { λ _ e. e ≡ fault.Memory };

    fn from(_: AllocError) -> Self {
        MediaFault::Memory
    }
}

/// What is planned for the two lines of a run: faults in the order given, of which no two of one
/// line share a slot. Of its slots those that the run has not are of no effect.
#[derive(Drop)]
pub struct MediaPlan {
    faults: Vec<LineFault>,
    tables: LineTables,
}

impl Model for MediaPlan {
    ghost use Rattle.std.specs.Prelude.{List};
    ghost use Rattle.cany_media.specs.Plan.{FaultParts};
    ghost use Rattle.cany_media.specs.Tables.{AreTablesOf};

    ghost Value = { List FaultParts };

    ghost view = { λ plan. plan.faults.items };

    ghost invariant = { λ plan. AreTablesOf plan.faults.items plan.tables };
}

impl MediaPlan {
    /// The plan of these faults.
    ///
    /// Promise: the plan has exactly these faults, and none of them shares a slot with an earlier
    /// one of its line.
    ///
    /// Shown by: `one_line_down`, `blind_slot`, `two_faults_of_one_line_overlap`,
    /// `a_fault_may_begin_where_another_ends`, `a_fault_is_entered_for_the_other_line`.
    ///
    /// # Errors
    ///
    /// `Overlap` exactly where a fault shares a slot with an earlier one of its line, if there is
    /// memory: the place of the first such fault. `Memory`: out of memory.
    pub fn build(alloc: Global, faults: &[LineFault]) -> Result<MediaPlan, MediaFault>
        ensures ok { IfOk result (λ plan. plan ≡ faults.now) }
        ensures none { OnOk result (first_overlap faults.now ≡ None) }
        ensures overlap { (index : ℕ) → result ≡ Err (MediaFault.Overlap index) → first_overlap faults.now ≡ Some index }
    {
        let mut tables = LineTables::none(alloc);
        for (index, fault) in faults.iter().enumerate() {
            if !tables.enter(fault)? {
                return Err(MediaFault::Overlap { index });
            }
        }
        let faults = Vec::from_slice(alloc, faults)?;
        Ok(MediaPlan { faults, tables })
    }

    /// The faults, in the order in which they were given.
    ///
    /// Promise: the faults of the plan, in their order.
    ///
    /// Shown by: `one_line_down`, `blind_slot`.
    pub fn faults(&self) -> &[LineFault]
        ensures { result.now ≡ self.now }
    {
        self.faults.as_slice()
    }

    /// How the two lines are in a slot.
    ///
    /// Promise: of each line whether it is whole in the slot, down or split, as the fault that
    /// covers the slot says.
    ///
    /// Shown by: `blind_slot`, `one_line_down`, `a_line_is_whole_in_the_last_slot_of_its_fault`.
    pub fn lines(&self, slot: Slot) -> (Line, Line)
        ensures { result ≡ lines_at self.now slot }
    {
        self.tables.lines(slot)
    }
}
