//! Runs a scenario.
ghost use Rattle.std.specs.Prelude.{◌≡◌, [], IfOk, IfErr, OnOk, Some, None};
ghost use Rattle.cany_model.specs.Runs.Follow.{journal_of};
ghost use Rattle.cany_command.specs.RunFaults.{IfJournal};
ghost use Rattle.cany_command.specs.Promises.{KeepsPromises};
ghost use Rattle.cany_command.specs.Refused.{own_fault};

use cany_base::Scenario;
use cany_model::FollowFault;
use cany_model::laws::{followed_journals, round_robin_is_whole};
use cany_world::{World, follow, round_robin};
use std::alloc::Global;
use thiserror::Error;

/// Why a scenario has no run.
#[derive(Clone, Copy, Debug, PartialEq, Eq, Error)]
pub enum RunFault {
    /// Its own journal is not legal, or not whole.
    #[error("the journal cannot be followed to the end of a run")]
    Journal(FollowFault),
    #[error("out of memory")]
    Memory,
}

/// The run of the scenario by its own journal, where it has one, and otherwise by its round robin
/// journal. The world has a copy of the scenario. The scenario itself is dropped before a run by
/// round robin.
///
/// Promise: the world has run the scenario by that journal, which is legal and whole. The run has
/// integrity, and within the hypothesis it is safe.
///
/// Shown by: `.ci/refusals.py`, `commands_give_their_answers`,
/// `the_journal_of_the_text_is_ignored`, `a_refused_journal_is_reported`.
///
/// # Errors
///
/// `Journal` exactly where the scenario's own journal has a fault, if there is memory: that fault.
/// `Memory`: out of memory.
pub fn run(alloc: Global, scenario: Scenario) -> Result<World, RunFault>
    ensures ended { IfOk result (λ world. world ≡ record { scenario = scenario; journal = journal_of scenario }) }
    ensures followed { IfOk result (λ _. own_fault scenario ≡ None) }
    ensures promises { IfOk result (λ _. KeepsPromises scenario) }
    ensures refused { IfErr result (λ fault. IfJournal fault (λ found. own_fault scenario ≡ Some found)) }
{
    let Ok(mut world) = World::build(alloc, &scenario) else {
        return Err(RunFault::Memory);
    };
    match run_to_end(&mut world, scenario) {
        Ok(()) => Ok(world),
        Err(fault) => Err(fault),
    }
}

/// Runs the world of the scenario from its first step to the end of the run.
fn run_to_end(world: &mut World, scenario: Scenario) -> Result<(), RunFault>
    requires { world.old ≡ record { scenario = scenario; journal = [] } }
    ensures ended { OnOk result (world.new ≡ record { scenario = scenario; journal = journal_of scenario }) }
    ensures followed { OnOk result (own_fault scenario ≡ None) }
    ensures promises { OnOk result (KeepsPromises scenario) }
    ensures refused { IfErr result (λ fault. IfJournal fault (λ found. own_fault scenario ≡ Some found)) }
{
    // The laws by which the journal that is made or followed is legal and whole.
    round_robin_is_whole();
    followed_journals();
    let Some(journal) = scenario.journal() else {
        drop(scenario);
        round_robin(world);
        // What this call says of the run is a part of the contract here, too.
        world.hypothesis();
        return Ok(());
    };
    match follow(world, journal) {
        Ok(()) => {
            world.hypothesis();
            Ok(())
        }
        Err(fault) => Err(RunFault::Journal(fault)),
    }
}
