//! Seats and gates are lent to the workers, and taken back after the work.
ghost use Rattle.std.specs.Prelude.{◌≡◌, ◌≤◌, ◌<◌, ◌+◌, [], map, IfSome, vec_len, vec_capacity};
ghost use Rattle.cany_base.specs.Limits.{most_nodes};
ghost use Rattle.cany_crew.specs.Gates.{IsOutcome};
ghost use Rattle.cany_yard.specs.Seats.{AreFirstSeats};

use crate::assigning::{Rooms, empty_assignments, fill_assignments, first_refused};
use crate::gate::Gate;
use crate::worker::Work;
use crate::workers::work_all;
use cany_base::{NodeId, Slot};
use cany_yard::{BusSeat, Course, Seat};
use std::sync::Wait;
use std::sync::ledger::Ledger;
use std::thread::Threads;

/// What comes back from the work: the seats, and the least node whose pass was refused with the
/// slot of that pass.
#[derive(Drop)]
pub(crate) struct Worked<L: Course, B: Ledger> {
    pub(crate) bus: BusSeat<L, B>,
    pub(crate) seats: Vec<Seat<L, B>>,
    pub(crate) held: Option<(NodeId, Slot)>,
}

/// Works each seat by a worker of its own, which has the gate at the same place, and puts the gates
/// back to their places.
pub(crate) fn work_seats<
    L: Course + Send + Sync,
    B: Ledger + Send + Sync,
    G: Gate,
    R: Threads + Wait + Sync,
>(
    rt: &R,
    work: &Work<'_, L, B>,
    rooms: Rooms<L, B, G>,
    bus: BusSeat<L, B>,
    seats: Vec<Seat<L, B>>,
    gates: &mut Vec<G>,
) -> Worked<L, B>
    requires empty { (rooms.assignments.items ≡ []) × (rooms.seats.items ≡ []) }
    requires room { (vec_len seats + 1 ≤ vec_capacity rooms.assignments) × (vec_len seats ≤ vec_capacity rooms.seats) }
    requires seats { AreFirstSeats (vec_len seats) seats.items }
    requires nodes { vec_len seats ≤ most_nodes }
    requires gates { vec_len seats ≤ vec_len gates.old }
    ensures seats { vec_len result.seats ≡ vec_len seats }
    ensures node { IfSome result.held (λ found. found.0 < vec_len seats) }
    ensures outcome { IsOutcome (map G.refusals gates.old.items) (map G.refusals gates.new.items) (map G.refused_at gates.new.items) result.held }
{
    let Rooms {
        mut assignments,
        seats: mut back,
    } = rooms;
    let nodes = seats.len();
    fill_assignments(&mut assignments, bus, seats, gates);
    work_all(rt, work, &mut assignments);
    let held = first_refused(assignments.as_slice());
    let bus = empty_assignments(assignments, &mut back, gates);
    // Assignments took the first gates, so these came back behind the others. That puts each at its
    // old place.
    gates.rotate_right(nodes);
    Worked {
        bus,
        seats: back,
        held,
    }
}
