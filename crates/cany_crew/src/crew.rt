//! A run whose steps are made by threads.
ghost use Rattle.std.specs.Prelude.{◌≡◌, ◌<◌, ◌≤◌, ◌+◌, [], map, IfOk, IfErr, IfSome, IfNone, vec_len, vec_capacity};
ghost use Rattle.cany_base.specs.Limits.{most_nodes};
ghost use Rattle.cany_crew.specs.Ending.{IsEnding};
ghost use Rattle.cany_crew.specs.Gates.{IsHeldAt, IsOutcome, NoneFell};
ghost use Rattle.cany_crew.specs.Held.{IfHeld, IfMemory, world_of};
ghost use Rattle.cany_model.specs.Runs.Run.{IsLegal, IsWhole};
ghost use Rattle.cany_yard.specs.Seats.{AreFirstSeats};

use crate::assigning::Rooms;
use crate::finish::finish;
use crate::gate::Gate;
use crate::lending::work_seats;
use crate::nodes::nodes_of;
use crate::signals::Signals;
use crate::worker::Work;
use cany_base::{Memory, NodeId, Slot};
use cany_world::World;
use cany_yard::{BusSeat, Course, Seat, Yard};
use std::alloc::Global;
use std::marker::Brand;
use std::sync::Wait;
use std::sync::ledger::{Blank, Ledger};
use std::thread::Threads;

/// Why a run did not end. The world is handed back.
#[derive(Drop)]
pub enum CrewFault {
    /// The gate of the node refused the pass for this slot. No lesser node's count rose.
    Held {
        world: World,
        node: NodeId,
        slot: Slot,
    },
    /// There was no memory. No step was made.
    Memory {
        world: World,
    },
}

/// Works the seats of a yard, closes it, and makes the steps that are left. Gives the world, and
/// the node and the slot of a pass that was refused.
fn run_yard<R: Threads + Wait + Sync, L: Course + Send + Sync, B: Ledger + Send + Sync, G: Gate>(
    rt: &R,
    yard: Yard<L, B>,
    rooms: Rooms<L, B, G>,
    bus: BusSeat<L, B>,
    seats: Vec<Seat<L, B>>,
    slots: u64,
    gates: &mut Vec<G>,
) -> (World, Option<(NodeId, Slot)>)
    requires empty { (rooms.assignments.items ≡ []) × (rooms.seats.items ≡ []) }
    requires room { (vec_len seats + 1 ≤ vec_capacity rooms.assignments) × (vec_len seats ≤ vec_capacity rooms.seats) }
    requires seats { AreFirstSeats (vec_len seats) seats.items }
    requires all { vec_len seats ≡ L.scenario.params.nodes }
    requires nodes { vec_len seats ≤ most_nodes }
    requires gates { vec_len seats ≤ vec_len gates.old }
    ensures scenario { result.0.scenario ≡ L.scenario }
    ensures ended { IfNone result.1 (IsLegal result.0.scenario result.0.journal × IsWhole result.0.scenario result.0.journal) }
    ensures node { IfSome result.1 (λ found. found.0 < L.scenario.params.nodes) }
    ensures outcome { IsOutcome (map G.refusals gates.old.items) (map G.refusals gates.new.items) (map G.refused_at gates.new.items) result.1 }
{
    let signals = Signals::new();
    let work = Work {
        yard: &yard,
        slots,
        signals: &signals,
    };
    let worked = work_seats(rt, &work, rooms, bus, seats, gates);
    let mut world = yard.end(worked.bus, worked.seats);
    match worked.held {
        Some(found) => (world, Some(found)),
        None => {
            let held = finish(&mut world, gates);
            (world, held)
        }
    }
}

/// `run_crew` under the names of the two blanks.
fn run_as<R: Threads + Wait + Sync, L: Course + Send + Sync, B: Ledger + Send + Sync, G: Gate>(
    rt: &R,
    alloc: Global,
    turns: Blank,
    slots: Blank,
    world: World,
    gates: &mut Vec<G>,
) -> (World, Result<Option<(NodeId, Slot)>, Memory>)
    requires fresh { world.journal ≡ [] }
    requires gates { world.scenario.params.nodes ≤ vec_len gates.old }
    requires course { world.scenario ≡ L.scenario }
    requires turns { (turns.name ≡ L.name) × (turns.parts ≡ L.parts) × (turns.parts ≡ world.scenario.params.nodes) }
    requires slots { (slots.name ≡ B.name) × (slots.parts ≡ B.parts) × (slots.parts ≡ 1) }
    ensures { IsEnding (map G.refusals gates.old.items) (map G.refusals gates.new.items) (map G.refused_at gates.new.items) world result.0 result.1 }
{
    let nodes = nodes_of(world.scenario());
    let most_slots = world.scenario().params().slots;
    let rooms = match Rooms::<L, B, G>::build(alloc, nodes) {
        Ok(rooms) => rooms,
        Err(memory) => return (world, Err(memory)),
    };
    match Yard::<L, B>::start(alloc, turns, slots, world) {
        Ok((yard, bus, seats)) => {
            let (world, held) = run_yard(rt, yard, rooms, bus, seats, most_slots, gates);
            (world, Ok(held))
        }
        Err((world, memory)) => (world, Err(memory)),
    }
}

/// `crew_run` for a caller that lets go of the world whatever the run came to: it is given once,
/// beside the node and the slot of a pass that was refused.
pub(crate) fn run_crew<R: Threads + Wait + Sync, G: Gate>(
    rt: &R,
    alloc: Global,
    world: World,
    gates: &mut Vec<G>,
) -> (World, Result<Option<(NodeId, Slot)>, Memory>)
    requires fresh { world.journal ≡ [] }
    requires gates { world.scenario.params.nodes ≤ vec_len gates.old }
    ensures { IsEnding (map G.refusals gates.old.items) (map G.refusals gates.new.items) (map G.refused_at gates.new.items) world result.0 result.1 }
{
    let turns = Blank::new(u64::from(nodes_of(world.scenario())));
    run_as::<R, Brand, Brand, G>(rt, alloc, turns, Blank::new(1), world, gates)
}

/// Runs the scenario of the world to its end by a thread for each node and one for the bus. The
/// gate at place i is that of node i, and after the call the counts of the gates stand at their old
/// places.
///
/// `Held` names the least node whose gate's count rose, and the slot of the last pass that this
/// gate refused.
///
/// How the threads go on is no part of the contract. The worker of a node asks its gate before the
/// turn of each slot, outside the lock. After a refusal each worker ends at its next step. A worker
/// that has waited two seconds for a step of another ends too, as it may while a gate takes longer
/// to answer. The steps that the workers have left are made after them, and ask the gates too. The
/// call may wait for its threads, which may wait for one another at the lock.
///
/// Promise: the world that is answered has the same scenario and has run to its end, by a legal and
/// whole journal; each gate's count is as it was. In any case there are as many gates as before,
/// and no count fell. All of it if the call returns.
///
/// Shown by: `gates_overlap_and_one_refuses`, `held_names_another_node`,
/// `ask_answers_the_opposite`, `gates_come_back_rotated`, `the_steps_that_are_left_are_not_made`.
/// Nothing runs it to an ended run.
///
/// # Errors
///
/// `Held` only where the count of the gate of the node that it names rose. The slot is that of the
/// last pass which this gate refused, and no lesser node's count rose. The world that is handed
/// back has the same scenario. `Memory`: out of memory. The world is handed back as it was.
pub fn crew_run<R: Threads + Wait + Sync, G: Gate>(
    rt: &R,
    alloc: Global,
    world: World,
    gates: &mut Vec<G>,
) -> Result<World, CrewFault>
    requires fresh { world.journal ≡ [] }
    requires gates { world.scenario.params.nodes ≤ vec_len gates.old }

    // The run of the scenario to its end.
    ensures scenario { IfOk result (λ ended. ended.scenario ≡ world.scenario) }
    ensures ended { IfOk result (λ ended. IsLegal ended.scenario ended.journal × IsWhole ended.scenario ended.journal) }

    // No gate's count rose in a run that ended. In one that is held that of the node named, one of
    // the bus, rose, the slot is that of the last pass that it refused, and no lesser node's rose.
    ensures passed { IfOk result (λ _. map G.refusals gates.new.items ≡ map G.refusals gates.old.items) }
    ensures node { IfErr result (λ fault. IfHeld fault (λ node _. node < world.scenario.params.nodes)) }
    ensures held { IfErr result (λ fault. IfHeld fault (λ node slot.
        IsHeldAt node slot (map G.refusals gates.old.items) (map G.refusals gates.new.items) (map G.refused_at gates.new.items))) }
    ensures count { NoneFell (map G.refusals gates.old.items) (map G.refusals gates.new.items) }

    // What is handed back.
    ensures back { IfErr result (λ fault. (world_of fault).scenario ≡ world.scenario) }
    ensures memory { IfErr result (λ fault. IfMemory fault (λ back. back ≡ world)) }
{
    let (world, ending) = run_crew(rt, alloc, world, gates);
    match ending {
        Ok(None) => Ok(world),
        Ok(Some((node, slot))) => Err(CrewFault::Held { world, node, slot }),
        Err(_) => Err(CrewFault::Memory { world }),
    }
}
