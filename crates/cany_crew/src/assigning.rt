//! Seats and gates are moved to assignments before the work, and back after it.
ghost use Rattle.std.specs.Prelude.{◌≡◌, ◌≤◌, ◌<◌, ◌+◌, ◌++◌, [], map, length, true, IfOk, vec_len, vec_capacity};
ghost use Rattle.cany_base.specs.Limits.{most_nodes};
ghost use Rattle.cany_crew.specs.Assignments.{AreFrom, counts_of, first_refused, has_bus, slots_of};
ghost use Rattle.cany_yard.specs.Seats.{AreFirstSeats};

use crate::assignment::{Assignment, NodeAssignment};
use crate::gate::Gate;
use cany_base::{Memory, NodeId, Slot};
use cany_yard::{BusSeat, Course, Seat};
use std::alloc::Global;
use std::sync::ledger::Ledger;

/// Room for the assignments, and for the seats that come back.
#[derive(Drop)]
pub(crate) struct Rooms<L: Course, B: Ledger, G: Gate> {
    pub(crate) assignments: Vec<Assignment<L, B, G>>,
    pub(crate) seats: Vec<Seat<L, B>>,
}

impl<L: Course, B: Ledger, G: Gate> Rooms<L, B, G> {
    /// Room for the assignment of the bus and for those of so many nodes.
    pub(crate) fn build(alloc: Global, nodes: u8) -> Result<Rooms<L, B, G>, Memory>
        ensures empty { IfOk result (λ rooms. (rooms.assignments.items ≡ []) × (rooms.seats.items ≡ [])) }
        ensures room { IfOk result (λ rooms. (nodes + 1 ≤ vec_capacity rooms.assignments) × (nodes ≤ vec_capacity rooms.seats)) }
    {
        let nodes = usize::from(nodes);
        Ok(Rooms {
            assignments: Vec::with_capacity(alloc, nodes + 1)?,
            seats: Vec::with_capacity(alloc, nodes)?,
        })
    }
}

/// The assignment of the bus, and then those of the nodes in their order. The first gate is that of
/// the first node.
pub(crate) fn fill_assignments<L: Course, B: Ledger, G: Gate>(
    assignments: &mut Vec<Assignment<L, B, G>>,
    bus: BusSeat<L, B>,
    mut seats: Vec<Seat<L, B>>,
    gates: &mut Vec<G>,
)
    requires empty { assignments.old.items ≡ [] }
    requires room { vec_len seats + 1 ≤ vec_capacity assignments.old }
    requires seats { AreFirstSeats (vec_len seats) seats.items }
    requires nodes { vec_len seats ≤ most_nodes }
    requires gates { vec_len seats ≤ vec_len gates.old }
    ensures gates { counts_of assignments.new.items ++ map G.refusals gates.new.items ≡ map G.refusals gates.old.items }
    ensures count { length (counts_of assignments.new.items) ≡ vec_len seats }
    ensures bus { has_bus assignments.new.items ≡ true }
    ensures order { AreFrom 0 assignments.new.items }
    ensures room { vec_len gates.new + vec_len seats ≤ vec_capacity gates.new }
{
    assignments.push_reserved(Assignment::Bus(bus));
    for i in 0..seats.len() {
        // There are few, so that it is cheap to take the first.
        let seat = seats.remove(0);
        let gate = gates.remove(0);
        assignments.push_reserved(Assignment::Node(NodeAssignment::new(
            NodeId::of_index(i),
            seat,
            gate,
        )));
    }
}

/// The least node whose pass was refused, with the slot of that pass.
pub(crate) fn first_refused<L: Course, B: Ledger, G: Gate>(
    assignments: &[Assignment<L, B, G>],
) -> Option<(NodeId, Slot)>
    ensures { result ≡ first_refused assignments.now }
{
    for assignment in assignments {
        if let Assignment::Node(assignment) = assignment {
            if let Some(slot) = assignment.refused {
                return Some((assignment.node, slot));
            }
        }
    }
    None
}

/// Takes the assignments apart: seats and gates go behind those that are there. Gives the seat of
/// the bus.
pub(crate) fn empty_assignments<L: Course, B: Ledger, G: Gate>(
    mut assignments: Vec<Assignment<L, B, G>>,
    seats: &mut Vec<Seat<L, B>>,
    gates: &mut Vec<G>,
) -> BusSeat<L, B>
    requires bus { has_bus assignments.items ≡ true }
    requires seats { vec_len seats.old + length (counts_of assignments.items) ≤ vec_capacity seats.old }
    requires gates { vec_len gates.old + length (counts_of assignments.items) ≤ vec_capacity gates.old }
    ensures gates { map G.refusals gates.new.items ≡ map G.refusals gates.old.items ++ counts_of assignments.items }
    ensures slots { map G.refused_at gates.new.items ≡ map G.refused_at gates.old.items ++ slots_of assignments.items }
    ensures seats { vec_len seats.new ≡ vec_len seats.old + length (counts_of assignments.items) }
{
    let mut of_bus = None;
    while !assignments.is_empty() {
        match assignments.remove(0) {
            Assignment::Bus(bus) => of_bus = Some(bus),
            Assignment::Node(assignment) => {
                let NodeAssignment {
                    node: _,
                    seat,
                    gate,
                    refused: _,
                } = assignment;
                seats.push_reserved(seat);
                gates.push_reserved(gate);
            }
        }
    }
    match of_bus {
        Some(bus) => bus,
        None => unreachable!(),
    }
}
