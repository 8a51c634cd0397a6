ghost use Rattle.std.specs.Prelude.{◌≡◌, ◌∷◌, [], ◌++◌, true, false, List, Ok};
ghost use Rattle.cany_media.specs.Overlaps.{is_taken};
ghost use Rattle.cany_media.specs.Plan.{FaultParts, lines_at};
ghost use Rattle.cany_media.specs.Tables.{AreTablesOf};

use crate::line::{Line, LineFault};
use crate::stretches::Stretches;
use cany_base::{Memory, Slot};
use std::alloc::Global;

/// The faults of each of the two lines.
#[derive(Drop)]
pub(crate) struct LineTables {
    first: Stretches,
    second: Stretches,
}

impl LineTables {
    pub(crate) fn none(alloc: Global) -> LineTables
        ensures { AreTablesOf [] result }
    {
        LineTables {
            first: Stretches::none(alloc),
            second: Stretches::none(alloc),
        }
    }

    /// Enters a fault, unless it shares a slot with an earlier one of its line. It answers whether
    /// it does not.
    pub(crate) fn enter(&mut self, fault: &LineFault) -> Result<bool, Memory>
        ensures taken { (faults : List FaultParts) → AreTablesOf faults self.old → result ≡ Ok false → is_taken faults fault.now ≡ true }
        ensures free { (faults : List FaultParts) → AreTablesOf faults self.old → result ≡ Ok true → is_taken faults fault.now ≡ false }
        ensures entered { (faults : List FaultParts) → AreTablesOf faults self.old → result ≡ Ok true → AreTablesOf (faults ++ fault.now ∷ []) self.new }
    {
        let line = fault.line;
        if line == 0 {
            self.first.enter(fault)
        } else {
            self.second.enter(fault)
        }
    }

    /// How the lines are in a slot.
    pub(crate) fn lines(&self, slot: Slot) -> (Line, Line)
        ensures { (faults : List FaultParts) → AreTablesOf faults self.now → result ≡ lines_at faults slot }
    {
        (self.first.line(slot), self.second.line(slot))
    }
}
