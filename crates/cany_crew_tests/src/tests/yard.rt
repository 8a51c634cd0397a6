//! Seats that are worked by hand.
ghost use Rattle.std.specs.Prelude.{◌≡◌, []};

use super::three_nodes;
use cany_base::{NodeId, Step};
use cany_world::World;
use cany_yard::{Course, SeatsMissing, StepReply, TurnReply, Yard};
use std::alloc::Global;
use std::marker::Brand;
use std::sync::Wait;
use std::sync::ledger::{Blank, Ledger};
use std::test::Fail;

/// What came of seats that were worked by hand.
#[derive(Drop)]
struct ByHand {
    slot: StepReply,
    turns: [TurnReply; 2],
    /// How many seats a close had that one was missing to, and how many were made.
    missed: (u32, u32),
    world: World,
}

/// Works the seats in the order slot, turn of node 1, turn of node 0. The yard is closed with two
/// of the three seats, and then with all that came back and the third.
fn worked<L: Course, B: Ledger, R: Wait>(
    rt: &R,
    alloc: Global,
    turns: Blank,
    slots: Blank,
    world: World,
) -> Option<ByHand>
    requires fresh { world.journal ≡ [] }
    requires three { world.scenario.params.nodes ≡ 3 }
    requires course { world.scenario ≡ L.scenario }
    requires turns { (turns.name ≡ L.name) × (turns.parts ≡ L.parts) × (turns.parts ≡ 3) }
    requires slots { (slots.name ≡ B.name) × (slots.parts ≡ B.parts) × (slots.parts ≡ 1) }
{
    let (yard, mut bus, mut seats) = Yard::<L, B>::start(alloc, turns, slots, world).ok()?;
    if seats.len() != 3 {
        return None;
    }
    let slot = yard.lock(rt).slot(&mut bus);
    let one = yard.lock(rt).turn(&mut seats[1]);
    let zero = yard.lock(rt).turn(&mut seats[0]);
    let third = seats.pop()?;
    let SeatsMissing {
        yard,
        bus,
        mut seats,
        have,
        made,
    } = yard.close(bus, seats).err()?;
    seats.push(third).ok()?;
    let world = yard.close(bus, seats).ok()?;
    Some(ByHand {
        slot,
        turns: [one, zero],
        missed: (have, made),
        world,
    })
}

/// The close says that a seat is missing, and keeps the nodes of the turns and the order of the
/// steps.
#[test]
fn seats_by_hand(rt: HostRuntime) -> Result<(), Fail> {
    let alloc = rt.alloc();
    let world = three_nodes(alloc)?;
    let worked = worked::<Brand, Brand, HostRuntime>(
        &rt,
        alloc,
        Blank::new(3),
        Blank::new(1),
        world,
    ).ok_or("the yard did not start")?;
    let read = TurnReply::Turned { slot: 0 };
    let steps = [
        Step::Slot,
        Step::Turn(NodeId::of_index(1)),
        Step::Turn(NodeId::of_index(0)),
    ];
    let replies = worked.slot == StepReply::Done && worked.turns == [read, read];
    assert!(rt; replies && worked.missed == (2, 3) && worked.world.journal() == steps.as_slice());
    Ok(())
}
