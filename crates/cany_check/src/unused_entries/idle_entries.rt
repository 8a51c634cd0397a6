//! Which entries of the scenario of a run did nothing.
ghost use Rattle.std.specs.Prelude.{◌≡◌, true, IfOk};
ghost use Rattle.cany_model.specs.Runs.Run.{has_ended};
ghost use Rattle.cany_world.specs.World.{state_of};
ghost use Rattle.cany_check.specs.Idle.Attempts.{AreAttemptsOf};
ghost use Rattle.cany_check.specs.Idle.Unused.{unused};

use crate::unused_entries::attempts::AttemptSlots;
use crate::unused_entries::unused_asks::{Asks, push_asks};
use crate::unused_entries::unused_entry::Unused;
use crate::unused_entries::unused_faults::push_faults;
use crate::unused_entries::unused_restarts::push_restarts;
use crate::unused_entries::unused_sends::push_sends;
use cany_base::Memory;
use cany_world::World;
use std::alloc::Global;

/// `unused`, where these are the attempts of the run.
fn unused_by(alloc: Global, world: &World, attempts: &AttemptSlots) -> Result<Vec<Unused>, Memory>
    requires ended { has_ended world.now.scenario (state_of world.now) ≡ true }
    requires attempts { AreAttemptsOf world.now attempts.now }
    ensures { IfOk result (λ found. found.items ≡ unused world.now.scenario (state_of world.now)) }
{
    let mut found = Vec::new(alloc);
    push_sends(world, &mut found)?;
    push_faults(alloc, world, attempts, &mut found)?;
    push_asks(world, attempts, Asks::Joins, &mut found)?;
    push_asks(world, attempts, Asks::Leaves, &mut found)?;
    push_restarts(world, &mut found)?;
    Ok(found)
}

/// The entries of the scenario that had no effect on the run, which has ended: sends, fault rules,
/// joins, leaves and restarts, each in file order. A fault rule may have two: of its verdict, and
/// then of its stops.
///
/// An entry that is not among them need not have had an effect.
///
/// Promise: exactly the entries of the definition, in its order.
///
/// Shown by: `an_account_is_judged`, `verdict_entries_that_did_nothing`,
/// `attempts_that_were_clean`.
///
/// # Errors
///
/// `Memory`: out of memory.
pub fn unused(alloc: Global, world: &World) -> Result<Vec<Unused>, Memory>
    requires { has_ended world.now.scenario (state_of world.now) ≡ true }
    ensures { IfOk result (λ found. found.items ≡ unused world.now.scenario (state_of world.now)) }
{
    let attempts = AttemptSlots::of_run(alloc, world)?;
    unused_by(alloc, world, &attempts)
}
