//! Gates that wait for one another, and one that refuses.
ghost use Rattle.std.specs.Prelude.{◌≡◌, ◌≤◌, IfOk, vec_len};
ghost use Rattle.cany_base.specs.Limits.{most_nodes};

use super::three_nodes;
use cany_base::limits::MOST_NODES;
use cany_base::{Memory, NodeId, Slot, Step};
use cany_crew::{CrewFault, Gate, crew_run};
use cany_world::World;
use std::alloc::{AllocError, Global};
use std::sync::Wait;
use std::sync::atomic::{AtomicU64, Ordering};
use std::test::Fail;
use std::thread::{self, Threads};

/// How often a gate looks for the other before it refuses.
const MOST_LOOKS: u32 = 20_000_000;

/// Counts a gate that was asked, and looks until another was.
fn meets(asked: &AtomicU64) -> bool {
    asked.fetch_add(1, Ordering::SeqCst);
    for _ in 0..MOST_LOOKS {
        if asked.load(Ordering::SeqCst) > 1 {
            return true;
        }
        thread::yield_now();
    }
    false
}

/// A gate that passes nodes 0 and 1 in slot 0 once both have been asked, refuses node 1 slot 1, and
/// passes all else at once.
#[derive(Drop)]
struct Meeting<'a> {
    asked: &'a AtomicU64,
    refusals: u64,
    refused_at: Option<Slot>,
}

impl Gate for Meeting<'_> {
    ghost refusals = { λ gate. gate.refusals };

    ghost refused_at = { λ gate. gate.refused_at };

    fn pass(&mut self, node: NodeId, slot: Slot) -> bool {
        let passes = match (node.get(), slot) {
            (0 | 1, 0) => meets(self.asked),
            (1, 1) => false,
            _ => true,
        };
        if !passes {
            self.refusals = self.refusals.saturating_add(1);
            self.refused_at = Some(slot);
        }
        passes
    }
}

fn meetings(alloc: Global, asked: &AtomicU64) -> Result<Vec<Meeting<'_>>, AllocError>
    ensures { IfOk result (λ gates. vec_len gates ≡ most_nodes) }
{
    let mut gates = Vec::new(alloc);
    for _ in 0..MOST_NODES {
        gates.push(Meeting {
            asked,
            refusals: 0,
            refused_at: None,
        })?;
    }
    Ok(gates)
}

/// A run of three nodes with these gates. It is a function of its own since the contract of the
/// call is long.
fn run_of_three<R: Threads + Wait + Sync>(
    rt: &R,
    alloc: Global,
    gates: &mut Vec<Meeting<'_>>,
) -> Result<Result<World, CrewFault>, Memory>
    requires { 3 ≤ vec_len gates.old }
{
    let world = three_nodes(alloc)?;
    Ok(crew_run(rt, alloc, world, gates))
}

/// The world of a run, and where the run is held.
fn parts_of(run: Result<World, CrewFault>) -> (World, Option<(NodeId, Slot)>) {
    match run {
        Ok(world) => (world, None),
        Err(CrewFault::Held { world, node, slot }) => (world, Some((node, slot))),
        Err(CrewFault::Memory { world }) => (world, None),
    }
}

/// The number of the node, the slot, and whether the node has made a turn.
fn told(world: &World, place: Option<(NodeId, Slot)>) -> Option<(u8, Slot, bool)> {
    let (node, slot) = place?;
    let has_turned = world.journal().contains(&Step::Turn(node));
    Some((node.get(), slot, has_turned))
}

/// Where a run is held. The world is let go apart from the rest: that is cheap to prove.
fn held_at(run: Result<World, CrewFault>) -> Option<(u8, Slot, bool)> {
    let (world, place) = parts_of(run);
    told(&world, place)
}

/// A body that works the nodes one after another is held in slot 0, by a gate that waits for the
/// other in vain. Node 1 has read slot 0 when its gate refuses slot 1.
#[test]
fn gates_overlap_and_one_refuses(rt: HostRuntime) -> Result<(), Fail> {
    let alloc = rt.alloc();
    let asked = AtomicU64::new(0);
    let mut gates = meetings(alloc, &asked)?;
    let run = run_of_three(&rt, alloc, &mut gates)?;
    assert_eq!(rt; held_at(run), Some((1, 1, true)));
    Ok(())
}
