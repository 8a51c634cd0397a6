//! The last event of a run: the last scripted ask, or the last slot that ended in a stop, met an
//! error, or carried a frame of a class that does not win over all others.
ghost use Rattle.std.specs.Prelude.{◌≡◌, ℕ, if◌then◌else◌, map};
ghost use Rattle.cany_model.specs.Promises.Hypothesis.{is_error_slot};
ghost use Rattle.cany_model.specs.Promises.Quiet.{is_top};
ghost use Rattle.cany_settle.specs.LastEvent as event;
ghost use Rattle.cany_world.specs.World.{state_of};

use cany_base::{Class, NodeAsk, Scenario, SendAsk, Slot, SlotNote, Verdict};
use cany_world::World;

fn later(a: Slot, b: Slot) -> Slot
    ensures { result ≡ event.greater a b }
{
    if a < b { b } else { a }
}

/// Whether frames of this class win over all those of the others.
#[tactic(auto, unfolding(cany_model::specs::Bus::Frames::same_class))]
fn is_top(class: Class) -> bool
    ensures { result ≡ is_top class }
{
    matches!(class, Class::Accept | Class::Rha | Class::Els)
}

/// Whether the slot carried a frame of another class.
fn is_lower(note: &SlotNote) -> bool
    ensures { result ≡ event.is_lower_slot note.now }
{
    match note.frame {
        Some(frame) => !is_top(frame.class),
        None => false,
    }
}

/// Whether the slot carried a frame whose senders saw an error.
fn has_failed(note: &SlotNote) -> bool
    ensures { result ≡ is_error_slot note.now }
{
    note.frame.is_some() && matches!(note.verdict, Verdict::Lost | Verdict::Partial(_))
}

/// Whether a node stopped at the end of the slot.
fn has_stop(note: &SlotNote) -> bool
    ensures { result ≡ event.is_stop_slot note.now }
{
    !note.stops.is_empty()
}

fn is_event(note: &SlotNote) -> bool
    ensures { result ≡ event.is_event note.now }
{
    is_lower(note) || has_failed(note) || has_stop(note)
}

/// The slot, if it is an event, or else 0.
fn slot_of_event(note: &SlotNote) -> Slot
    ensures { result ≡ (if event.is_event note.now then note.now.slot else 0) }
{
    if is_event(note) { note.slot } else { 0 }
}

#[tactic(auto, using(crate::proofs::LastSlotFacts::none_greater, crate::proofs::LastSlotFacts::last_next, crate::proofs::LastSlotFacts::last_done))]
fn last_slot(trace: &[SlotNote]) -> Slot
    ensures { result ≡ event.last_slot event.is_event trace.now }
{
    let mut last = 0;
    for i in 0..trace.len() {
        last = later(last, slot_of_event(&trace[i]));
    }
    last
}

/// What a scenario scripts for a slot.
trait Scripted {
    /// The slot.
    ghost slot: { Self → ℕ };

    /// The slot.
    fn slot(&self) -> Slot
        ensures { result ≡ slot self.now };
}

impl Scripted for SendAsk {
    ghost slot = { λ send. send.slot };

    fn slot(&self) -> Slot {
        self.slot
    }
}

impl Scripted for NodeAsk {
    ghost slot = { λ ask. ask.slot };

    fn slot(&self) -> Slot {
        self.slot
    }
}

#[tactic(auto, using(crate::proofs::LastSlotFacts::none_greater, crate::proofs::LastSlotFacts::greatest_done))]
fn last_of<A: Scripted>(asks: &[A]) -> Slot
    ensures { result ≡ event.greatest (map A.slot asks.now) }
{
    let mut last = 0;
    for i in 0..asks.len() {
        last = later(last, asks[i].slot());
    }
    last
}

/// The slot of the last scripted ask of a scenario.
fn last_ask(scenario: &Scenario) -> Slot
    ensures { result ≡ event.last_ask scenario.now }
{
    later(
        last_of(scenario.sends()),
        later(last_of(scenario.joins()), last_of(scenario.leaves())),
    )
}

/// The slot of the last event of a run, of the slots that ran. It is the greatest slot of these, or
/// 0: those of scripted sends, joins and leaves, those that ended in a stop, and those that carried
/// a Lost or Partial frame. Those that carried a frame of a class other than ACCEPT, RHA and ELS
/// count too. It takes no memory, and time in proportion to the slots and the scripted asks.
///
/// Promise: the slot is exactly that of the definition, for the slots that ran.
///
/// Shown by: `tail_enough`, `tail_too_short`, `life_signs_are_events`, `stops_are_no_events`,
/// `the_last_for_the_greatest`.
pub fn last_event(world: &World) -> Slot
    ensures { result ≡ event.last_event world.now.scenario (state_of world.now) }
{
    later(last_ask(world.scenario()), last_slot(world.trace()))
}
