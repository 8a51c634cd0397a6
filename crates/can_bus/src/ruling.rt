//! What the fault script says of a slot.
ghost use Rattle.std.specs.Prelude.{◌≡◌, ◌∷◌, ◌≤◌, List, length};
ghost use Rattle.cany_base.specs.declared.slot_note.SlotNote.{SlotNote};
ghost use Rattle.cany_base.specs.Limits.{most_slots};
ghost use Rattle.cany_model.specs.Bus.Slot.{script as script_of};
ghost use Rattle.can_fault.specs.Attempts.{AreCountsOf};
ghost use Rattle.can_arbiter.specs.Outcome.{frame_of};

use can_arbiter::Outcome;
use can_fault::laws::attempts_are_at_most_slots;
use can_fault::{Attempts, Script};
use cany_base::{NodeSet, Slot, Verdict};

/// The ruling of the script on the slot: the verdict, and the nodes that it stops at the end. The
/// attempt is counted.
pub(crate) fn ruling(
    slot: Slot,
    outcome: &Outcome,
    attempts: &mut Attempts,
    script: &Script,
) -> (Verdict, NodeSet)
    ensures ruling { (trace : List SlotNote) → AreCountsOf script.now trace attempts.old → slot ≡ length trace → slot ≤ most_slots
        → record { verdict = result.0; stop = result.1 } ≡ script_of script.now trace (frame_of outcome.now) }
    ensures counts { (trace : List SlotNote) (note : SlotNote) → AreCountsOf script.now trace attempts.old
        → note.frame ≡ frame_of outcome.now → AreCountsOf script.now (note ∷ trace) attempts.new }
{
    // Most runs have no rule.
    if script.is_empty() {
        return (Verdict::Clean, NodeSet::empty());
    }
    match outcome {
        Outcome::Won { frame, .. } => {
            // So no count of a run stands still at the end of its type.
            attempts_are_at_most_slots();
            let number = attempts.count(frame);
            script.verdict(slot, Some((*frame, number)))
        }
        Outcome::Idle => script.verdict(slot, None),
    }
}
