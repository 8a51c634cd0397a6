//! The assignment of a worker: what it works with, and what is to be known of it afterwards.
ghost use Rattle.std.specs.Prelude.{◌≡◌, None};

use crate::gate::Gate;
use cany_base::{NodeId, Slot};
use cany_yard::{BusSeat, Course, Seat};
use std::marker::Model;
use std::sync::ledger::Ledger;

/// The assignment of a node's worker.
#[derive(Drop)]
pub(crate) struct NodeAssignment<L: Course, B: Ledger, G: Gate> {
    pub(crate) node: NodeId,
    pub(crate) seat: Seat<L, B>,
    pub(crate) gate: G,
    /// The slot of the pass that the gate refused, after the work.
    pub(crate) refused: Option<Slot>,
}

impl<L: Course, B: Ledger, G: Gate> Model for NodeAssignment<L, B, G> {
    ghost use Rattle.std.specs.Prelude.{◌≡◌};
    ghost use Rattle.cany_crew.specs.Assignment.{AssignmentParts};

    ghost Value = { AssignmentParts };

    ghost view = { λ assignment. record { node = assignment.node; refusals = G.refusals assignment.gate; refused_at = G.refused_at assignment.gate; refused = assignment.refused } };

    ghost invariant = { λ assignment. assignment.seat.node ≡ assignment.node };
}

impl<L: Course, B: Ledger, G: Gate> NodeAssignment<L, B, G> {
    /// The assignment before the work.
    pub(crate) fn new(node: NodeId, seat: Seat<L, B>, gate: G) -> NodeAssignment<L, B, G>
        requires { seat.node ≡ node }
        ensures { result ≡ record { node = node; refusals = G.refusals gate; refused_at = G.refused_at gate; refused = None } }
    {
        NodeAssignment {
            node,
            seat,
            gate,
            refused: None,
        }
    }
}

/// The assignment of a worker: that of the bus, or that of a node.
#[derive(Drop)]
pub(crate) enum Assignment<L: Course, B: Ledger, G: Gate> {
    Bus(BusSeat<L, B>),
    Node(NodeAssignment<L, B, G>),
}
