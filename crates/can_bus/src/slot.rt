//! One slot of the bus.
ghost use Rattle.std.specs.Prelude.{◌≡◌, ◌∷◌, ◌≤◌, ℕ, List, Some, length, slice_get};
ghost use Rattle.cany_base.specs.declared.slot_note.SlotNote.{SlotNote};
ghost use Rattle.cany_base.specs.Limits.{most_slots, most_nodes};
ghost use Rattle.cany_model.specs.Bus.Slot.{script as script_of, slot_note_of};
ghost use Rattle.can_controller.specs.Controller.{ControllerState};
ghost use Rattle.can_fault.specs.Attempts.{AreCountsOf};
ghost use Rattle.can_bus.specs.Controllers.{AreAfter, HaveRoom, nodes_of};

use crate::contest::contest;
use crate::nodes::stopping;
use crate::ruling::ruling;
use crate::seeing::{see_all, stop_all};
use crate::transmission::transmission;
use can_controller::Controller;
use can_controller::laws::seen_is_node_after;
use can_fault::{Attempts, Script};
use cany_base::{Params, Slot, SlotNote};

/// Runs the slot of this number, which is that of the slots before it.
pub(crate) fn run_slot(
    slot: Slot,
    params: &Params,
    controllers: &mut [Controller],
    attempts: &mut Attempts,
    script: &Script,
) -> SlotNote
    requires few { length controllers.old ≤ most_nodes }
    requires format { (i : ℕ) (c : ControllerState) → slice_get controllers.old i ≡ Some c → c.params.format ≡ params.now.format }
    requires room { HaveRoom controllers.old }
    ensures note { (trace : List SlotNote) → AreCountsOf script.now trace attempts.old → slot ≡ length trace → slot ≤ most_slots
        → result ≡ slot_note_of (script_of script.now) (record { trace = trace; nodes = nodes_of controllers.old }) }
    ensures counts { (trace : List SlotNote) → AreCountsOf script.now trace attempts.old → AreCountsOf script.now (result ∷ trace) attempts.new }
    ensures controllers { AreAfter result controllers.old controllers.new }
{
    let (before, outcome) = contest(params.format, controllers);
    let (verdict, scripted) = ruling(slot, &outcome, attempts, script);
    let note = transmission(slot, before, &outcome, &verdict);
    let after = see_all(controllers, before, &note);
    let stops = stopping(before, after, scripted);
    stop_all(controllers, slot, stops);
    // So each controller that ran is the node after the slot.
    seen_is_node_after();
    SlotNote { stops, ..note }
}
