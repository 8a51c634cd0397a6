ghost use Rattle.std.specs.Prelude.{◌≡◌, ◌+◌, ◌<◌, ◌≤◌, ◌↔◌, ◌∷◌, [], List, None, IfOk, length, reverse};
ghost use Rattle.cany_model.specs.Promises.Hypothesis.{IsWithin, first_break};
ghost use Rattle.cany_model.specs.Bus.Slot.{script as script_of, slot_note_of};
ghost use Rattle.cany_base.specs.declared.rule.Rule.{Rule};
ghost use Rattle.can_fault.specs.Attempts.{AreCountsOf};
ghost use Rattle.cany_model.specs.Bus.State.{NodeState};
ghost use Rattle.can_bus.specs.Bus.{Follows};
ghost use Rattle.can_bus.specs.Rest.{idle_trace};
ghost use Rattle.can_bus.specs.Controllers.{AreAfter, AreControllersFor, NoneLags, StandFor};

use crate::slot::run_slot;
use crate::transmission::idle_note;
use can_controller::Controller;
use can_fault::laws::partial_slots_are_fewer_than_rules;
use can_fault::{Attempts, Break, Script, Tally};
use cany_base::{BoundedVec, Memory, Params, Scenario, Slot, SlotNote};
use std::alloc::Global;
use std::marker::Model;

/// The bus of a run: it runs one slot after another, keeps the note of each, and tells whether the
/// run keeps the fault hypothesis.
///
/// All memory is taken by `build`.
#[derive(Drop)]
pub struct Bus {
    params: Params,
    trace: BoundedVec<SlotNote>,
    attempts: Attempts,
    tally: Tally,
}

impl Model for Bus {
    ghost use Rattle.can_bus.specs.Bus.{BusParts};

    ghost Value = { BusParts };

    ghost use Rattle.can_bus.specs.BusFields.{parts_of, IsSound};

    ghost view = { parts_of };

    ghost invariant = { IsSound };
}

impl Bus {
    /// The bus of the scenario before its first slot, with room for all of its slots.
    ///
    /// Promise: the bus has the parameters of the scenario, no slot has run, and it follows the
    /// rules of the scenario (`Follows`).
    ///
    /// Shown by: `sixteen_lost_slots`.
    ///
    /// # Errors
    ///
    /// `Memory`: out of memory.
    pub fn build(alloc: Global, scenario: &Scenario) -> Result<Bus, Memory>
        ensures params { IfOk result (λ bus. bus.params ≡ scenario.now.params) }
        ensures trace { IfOk result (λ bus. bus.trace ≡ []) }
        ensures follows { IfOk result (Follows scenario.now.rules) }
    {
        let params = *scenario.params();
        let trace = BoundedVec::build(alloc, params.slots as usize)?;
        let attempts = first_attempts(alloc, scenario)?;
        let tally = Tally::build(alloc, &params, scenario.rules().len())?;
        Ok(Bus {
            params,
            trace,
            attempts,
            tally,
        })
    }

    /// Runs the next slot. The running controllers compete, the script says what comes of it, and
    /// each running controller sees its share. Those stop that the script names, or that have a
    /// counter above the limit.
    ///
    /// `script` is the one that ruled the slots before, that of the scenario's rules.
    ///
    /// Promise: let the controllers, one of each node, stand for the nodes of a run, and let none
    /// that runs have more than `lag` unread notices. Then the note is that of the definition
    /// (`slot_note_of`), and is appended to the trace. Each running controller is then the node
    /// after the slot: it has seen its share, and has stopped where the note says so.
    ///
    /// Shown by: `edcan_sender_stops_after_partial`, `sixteen_lost_slots`, `a_notice_is_lost`,
    /// `a_sender_at_an_error_is_confirmed`, `a_stop_by_a_counter_is_missing`,
    /// `a_stopped_controller_competes`, `an_idle_slot_has_the_verdict`,
    /// `acceptors_of_partial_swapped`, `the_attempt_is_counted_after_the_verdict`,
    /// `the_tally_does_not_note`.
    pub fn slot(&mut self, controllers: &mut [Controller], script: &Script) -> SlotNote
        requires each_node { AreControllersFor self.old.params controllers.old }
        requires reading { NoneLags self.old.params.lag controllers.old }
        requires left { length self.old.trace < self.old.params.slots }
        requires follows { Follows script.now self.old }

        // The note is that of the nodes, whatever they have not read and of whichever incarnation
        // they are.
        ensures note { (nodes : List NodeState) → StandFor controllers.old nodes
            → result ≡ slot_note_of (script_of script.now) (record { trace = self.old.trace; nodes = nodes }) }

        ensures trace { self.new.trace ≡ result ∷ self.old.trace }
        ensures params { self.new.params ≡ self.old.params }
        ensures follows { Follows script.now self.new }
        ensures controllers { AreAfter result controllers.old controllers.new }
        ensures each_node { AreControllersFor self.new.params controllers.new }
    {
        let slot = self.trace.len() as Slot;
        let note = run_slot(slot, &self.params, controllers, &mut self.attempts, script);
        // So the tally has room for one more where the slot was Partial.
        partial_slots_are_fewer_than_rules();
        self.tally.note(&note);
        self.trace.push_copy(&note);
        note
    }

    /// Runs a number of slots at once, in which no controller offers a frame and none stops.
    ///
    /// Promise: this many idle slots are appended to the trace. The parameters stay, and a bus that
    /// followed some rules follows them still.
    pub fn rest(&mut self, slots: u64)
        requires { length self.old.trace + slots ≤ self.old.params.slots }
        ensures trace { self.new.trace ≡ idle_trace slots self.old.trace }
        ensures params { self.new.params ≡ self.old.params }
        ensures follows { (rules : List Rule) → Follows rules self.old → Follows rules self.new }
    {
        push_idle(&mut self.trace, slots);
        if slots > 0 {
            self.tally.rest(self.trace.len() as Slot - 1);
        }
    }

    /// The notes of the slots that ran, oldest first.
    ///
    /// Promise: the notes of the slots that ran, oldest first.
    pub fn trace(&self) -> &[SlotNote]
        ensures { result.now ≡ reverse self.now.trace }
    {
        self.trace.as_slice()
    }

    /// The first slot at which the run leaves the fault hypothesis.
    ///
    /// Promise: the first break of the trace by the definition (`first_break`), with its kind and
    /// its slot.
    ///
    /// Answers: `None` exactly where the slots so far are within the fault hypothesis.
    ///
    /// Shown by: `one_message_no_fault`, `sixteen_lost_slots`.
    pub fn first_break(&self) -> Option<Break>
        ensures first { result ≡ first_break self.now.params self.now.trace }
        ensures within { (result ≡ None) ↔ IsWithin self.now.params self.now.trace }
    {
        self.tally.first_break()
    }
}

/// The counts of attempts of the scenario before its first slot.
fn first_attempts(alloc: Global, scenario: &Scenario) -> Result<Attempts, Memory>
    ensures { IfOk result (AreCountsOf scenario.now.rules []) }
{
    // Who runs the slots builds a script of its own and passes it to `slot`: the bus has only the
    // scenario here, so its counts are built from a second one, which is dropped again.
    let script = Script::of_scenario(alloc, scenario)?;
    Attempts::build(alloc, &script)
}

/// Appends the notes of this number of idle slots.
fn push_idle(trace: &mut BoundedVec<SlotNote>, slots: u64)
    requires { length trace.old.items + slots ≤ trace.old.room }
    ensures items { reverse trace.new.items ≡ idle_trace slots (reverse trace.old.items) }
    ensures room { trace.new.room ≡ trace.old.room }
{
    for _slot in 0..slots {
        let idle = idle_note(trace.len() as Slot);
        trace.push_copy(&idle);
    }
}
