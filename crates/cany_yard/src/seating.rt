//! The seats of the nodes: how they are made, and what they counted together.
ghost use Rattle.std.specs.Prelude.{◌≡◌, ◌<◌, ◌≤◌, IfOk, vec_len};
ghost use Rattle.cany_base.specs.Limits.{most_nodes};
ghost use Rattle.cany_yard.specs.Seats.{AreFirstSeats, turns_counted};

use crate::course::Course;
use crate::seat::Seat;
use cany_base::{Memory, NodeId};
use std::alloc::Global;
use std::sync::ledger::{Ledger, Share};

/// A seat for each node, with one part of the share each.
#[tactic(auto, using(crate::proofs::SeatFacts::one_more_seat))]
pub(crate) fn seats_of<L: Course, B: Ledger>(
    alloc: Global,
    count: usize,
    all: Share<L>,
) -> Result<Vec<Seat<L, B>>, Memory>
    requires count { (count ≡ L.scenario.params.nodes) × (count ≤ most_nodes) }
    requires parts { all.parts ≡ count }
    requires amount { all.amount ≡ 0 }
    ensures { IfOk result (λ seats. AreFirstSeats count seats.items) }
{
    let mut rest = all;
    let mut seats = Vec::with_capacity(alloc, count)?;
    for i in 0..count {
        let part = rest.split_off(1, 0);
        let seat = Seat::new(NodeId::of_index(i), part);
        seats.push(seat)?;
    }
    Ok(seats)
}

/// The shares of all seats, as one.
pub(crate) fn together<L: Course, B: Ledger>(seats: Vec<Seat<L, B>>) -> Share<L>
    requires { 0 < vec_len seats }
    ensures parts { result.parts ≡ vec_len seats }
    ensures within { result.parts ≤ L.parts }
    ensures amount { result.amount ≡ turns_counted seats.items }
{
    let mut others = seats;
    let Some(seat) = others.pop() else {
        unreachable!()
    };
    let Seat {
        node: _,
        turns: mut first,
        slots: _,
    } = seat;
    let mut all = first.empty();
    all.merge(first);
    while let Some(seat) = others.pop() {
        let Seat {
            node: _,
            turns,
            slots: _,
        } = seat;
        all.merge(turns);
    }
    all
}
