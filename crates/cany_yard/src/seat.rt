ghost use Rattle.std.specs.Prelude.{◌≡◌, ◌<◌};

use crate::course::Course;
use cany_base::NodeId;
use std::marker::{Model, PhantomData};
use std::sync::ledger::{Ledger, Share};

/// The seat of a node, by which its turns are made. It counts them.
///
/// It belongs to the yard that was started under the same names.
#[derive(Drop)]
pub struct Seat<L: Course, B: Ledger> {
    pub(crate) node: NodeId,
    pub(crate) turns: Share<L>,
    pub(crate) slots: PhantomData<B>,
}

impl<L: Course, B: Ledger> Model for Seat<L, B> {
    ghost use Rattle.std.specs.Prelude.{◌≡◌, ◌<◌};
    ghost use Rattle.cany_yard.specs.Seats.{SeatParts};

    ghost Value = { SeatParts };

    ghost view = { λ seat. record { node = seat.node; turns = seat.turns.amount } };

    ghost invariant = { λ seat. (seat.node < L.scenario.params.nodes) × (seat.turns.parts ≡ 1) };
}

impl<L: Course, B: Ledger> Seat<L, B> {
    /// The seat of the node, with one part of the ledger of turns.
    pub(crate) fn new(node: NodeId, turns: Share<L>) -> Seat<L, B>
        requires within { node < L.scenario.params.nodes }
        requires part { turns.parts ≡ 1 }
        ensures { result ≡ record { node = node; turns = turns.amount } }
    {
        Seat {
            node,
            turns,
            slots: PhantomData,
        }
    }
}

/// The seat of the bus, by which the slots are run. It counts them, and contracts see it as their
/// number.
///
/// It belongs to the yard that was started under the same names.
#[derive(Drop)]
pub struct BusSeat<L: Course, B: Ledger> {
    pub(crate) slots: Share<B>,
    pub(crate) turns: PhantomData<L>,
}

impl<L: Course, B: Ledger> Model for BusSeat<L, B> {
    ghost use Rattle.std.specs.Prelude.{ℕ, ◌≡◌};

    ghost Value = { ℕ };

    ghost view = { λ bus. bus.slots.amount };

    ghost invariant = { λ bus. bus.slots.parts ≡ 1 };
}

impl<L: Course, B: Ledger> BusSeat<L, B> {
    /// The seat of the bus, with the one part of the ledger of slots.
    pub(crate) fn new(slots: Share<B>) -> BusSeat<L, B>
        requires { slots.parts ≡ 1 }
        ensures { result ≡ slots.amount }
    {
        BusSeat {
            slots,
            turns: PhantomData,
        }
    }
}
