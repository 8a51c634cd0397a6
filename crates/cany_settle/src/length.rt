//! Whether a run was long enough.
ghost use Rattle.std.specs.Prelude.{◌≡◌, ◌≤◌, ◌↔◌, true, IsTrue};
ghost use Rattle.cany_model.specs.Promises.Hypothesis.{IsWithin};
ghost use Rattle.cany_model.specs.Runs.Run.{has_ended};
ghost use Rattle.cany_settle.specs.LongEnough as enough;
ghost use Rattle.cany_settle.specs.LongEnough.{AllSettled, IsLongEnough};
ghost use Rattle.cany_world.specs.World.{state_of};

use crate::events::last_event;
use cany_base::{Params, Scenario};
use cany_world::World;

fn tail_of(params: &Params) -> u64
    ensures tail { result ≡ enough.tail params.now }
    ensures most { result ≤ 8000000 }
{
    2 * params.cycle
}

/// How many slots a run of the scenario has to go on after its last event to be long enough: two
/// membership cycles.
///
/// Promise: exactly two membership cycles, and at most 8,000,000.
///
/// Shown by: `tail_enough`, `tail_too_short`, `the_tail_of_one_cycle`.
pub fn tail(scenario: &Scenario) -> u64
    ensures tail { result ≡ enough.tail scenario.now.params }
    ensures most { result ≤ 8000000 }
{
    tail_of(scenario.params())
}

/// How many slots the run would have to have, to be long enough.
pub(crate) fn needed(world: &World) -> u64
    ensures { result ≡ enough.needed world.now.scenario (state_of world.now) }
{
    let params = world.scenario().params();
    last_event(world) + tail_of(params)
}

/// Whether an ended run went on for the tail after its last event.
///
/// Promise: the answer is exact. Where it is true and the run is within the hypothesis, every
/// message is settled.
///
/// Answers: true exactly where the last event lies two membership cycles or more before the end of
/// the run.
///
/// Shown by: nothing in the program runs it; its edits show its clauses: `always_enough`,
/// `always_short`.
pub fn long_enough(world: &World) -> bool
    requires ended { has_ended world.now.scenario (state_of world.now) ≡ true }
    ensures exact { IsTrue result ↔ IsLongEnough world.now.scenario (state_of world.now) }
    ensures settled { result ≡ true → IsWithin world.now.scenario.params (state_of world.now).trace → AllSettled world.now.scenario (state_of world.now) }
{
    needed(world) <= world.scenario().params().slots
}
