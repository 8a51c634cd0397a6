//! The gate that never refuses.
ghost use Rattle.std.specs.Prelude.{◌≡◌, ◌≤◌, [], true, IfOk, IfErr, vec_len};
ghost use Rattle.cany_base.specs.Limits.{most_nodes};
ghost use Rattle.cany_crew.specs.Held.{IsMemory, world_of};
ghost use Rattle.cany_model.specs.Runs.Run.{IsLegal, IsWhole};

use crate::crew::{CrewFault, crew_run};
use crate::gate::Gate;
use cany_base::limits::MOST_NODES;
use cany_base::{Memory, NodeId, Slot};
use cany_world::World;
use std::alloc::Global;
use std::sync::Wait;
use std::thread::Threads;

/// A gate that never refuses.
#[derive(Clone, Copy)]
pub struct FreeGate;

impl Gate for FreeGate {
    ghost use Rattle.std.specs.Prelude.{ℕ, None};

    ghost refusals = { λ gate. 0 };

    ghost refused_at = { λ gate. None };

    fn pass(&mut self, _node: NodeId, _slot: Slot) -> bool
        ensures { result ≡ true }
    {
        true
    }
}

/// A free gate for each node that a scenario can have.
///
/// Promise: there are as many gates as a scenario can have nodes.
///
/// Shown by: `threads_replay`, `.ci/calls.py`.
///
/// # Errors
///
/// `Memory`: out of memory.
pub fn free_gates(alloc: Global) -> Result<Vec<FreeGate>, Memory>
    ensures { IfOk result (λ gates. vec_len gates ≡ most_nodes) }
{
    let mut gates = Vec::with_capacity(alloc, usize::from(MOST_NODES))?;
    for _ in 0..MOST_NODES {
        gates.push(FreeGate)?;
    }
    Ok(gates)
}

/// `crew_run` with gates that never refuse: the run ends, unless it is out of memory.
///
/// Promise: the world that is answered has the same scenario and has run to its end, by a legal and
/// whole journal. All of it if the call returns.
///
/// Shown by: nothing in the program runs it, and no edit changes it.
///
/// # Errors
///
/// `Memory`: out of memory, and there is no other error. The world is handed back as it was.
pub fn free_run<R: Threads + Wait + Sync>(
    rt: &R,
    alloc: Global,
    world: World,
    gates: &mut Vec<FreeGate>,
) -> Result<World, CrewFault>
    requires fresh { world.journal ≡ [] }
    requires gates { world.scenario.params.nodes ≤ vec_len gates.old }
    ensures ended { IfOk result (λ ended. (ended.scenario ≡ world.scenario) × IsLegal ended.scenario ended.journal × IsWhole ended.scenario ended.journal) }
    ensures memory { IfErr result (λ fault. IsMemory fault × ((world_of fault) ≡ world)) }
{
    crew_run(rt, alloc, world, gates)
}
