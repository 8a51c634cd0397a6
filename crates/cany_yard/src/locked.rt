ghost use Rattle.std.specs.Prelude.{◌≡◌, ◌≤◌, ℕ, [], true};
ghost use Rattle.cany_model.specs.Runs.Run.{is_done};
ghost use Rattle.cany_model.specs.Bus.State.{reads};
ghost use Rattle.cany_world.specs.Replies.{has_turned, step_reply};
ghost use Rattle.cany_world.specs.World.{state_of};
ghost use Rattle.cany_yard.specs.Seats.{count_after, seat_after};
ghost use Rattle.cany_yard.specs.Steps.{reply_in, slots_in, state_after, turns_in, world_after};

use crate::course::{Course, Names};
use crate::seat::{BusSeat, Seat};
use cany_base::Step;
use cany_model::StepReply;
use cany_node::TurnReply;
use cany_world::World;
use std::sync::ledger::{Book, Ledger, Share};

/// What lies under the lock: the world, with a book of the turns in its journal and one of the
/// slots.
#[derive(Drop)]
pub(crate) struct Locked<L: Course, B: Ledger> {
    pub(crate) world: World,
    turns: Book<L>,
    slots: Book<B>,
    ghost scenario: { world.scenario ≡ L.scenario },
    ghost turned: { turns.total ≡ turns_in world.journal },
    ghost ran: { slots.total ≡ slots_in world.journal },
}

impl<L: Course, B: Ledger> Locked<L, B> {
    pub(crate) fn new(world: World, turns: Book<L>, slots: Book<B>) -> Locked<L, B>
        requires scenario { world.scenario ≡ L.scenario }
        requires fresh { world.journal ≡ [] }
        requires none { (turns.total ≡ 0) × (slots.total ≡ 0) }
    {
        Locked {
            world,
            turns,
            slots,
        }
    }

    /// Makes the turn of the seat's node, and books it.
    pub(crate) fn turn(&mut self, seat: &mut Seat<L, B>) -> TurnReply
        ensures reply { step_reply result ≡ reply_in self.old.world (Step.Turn seat.old.node) }
        ensures slot { (slot : ℕ) → result ≡ TurnReply.Turned slot → slot ≡ reads (state_of self.old.world) seat.old.node }
        ensures new { self.new.world ≡ world_after (has_turned result) self.old.world (Step.Turn seat.old.node) }
        ensures run { has_turned result ≡ true → state_of self.new.world ≡ state_after self.old.world (Step.Turn seat.old.node) }
        ensures seat { seat.new ≡ seat_after (has_turned result) seat.old }
    {
        let Locked {
            world,
            turns,
            slots: _,
        } = self;
        let reply = world.make_turn(seat.node);
        if let TurnReply::Turned { .. } = reply {
            turns.add(&mut seat.turns, 1);
        }
        reply
    }

    /// Runs the next slot, and books it.
    pub(crate) fn slot(&mut self, bus: &mut BusSeat<L, B>) -> StepReply
        ensures reply { result ≡ reply_in self.old.world Step.Slot }
        ensures new { self.new.world ≡ world_after (is_done result) self.old.world Step.Slot }
        ensures run { result ≡ StepReply.Done → state_of self.new.world ≡ state_after self.old.world Step.Slot }
        ensures seat { bus.new ≡ count_after (is_done result) bus.old }
    {
        let Locked {
            world,
            turns: _,
            slots,
        } = self;
        let reply = world.step(Step::Slot);
        if let StepReply::Done = reply {
            slots.add(&mut bus.slots, 1);
        }
        reply
    }

    /// The world, with what the seats counted: all the parts of both ledgers show the totals of
    /// both books.
    pub(crate) fn end(self, names: &Names<L, B>, bus: BusSeat<L, B>, all: Share<L>) -> World
        requires enough { L.scenario.params.nodes ≤ all.parts }
        requires within { all.parts ≤ L.parts }
        ensures scenario { result.scenario ≡ L.scenario }
        ensures turns { turns_in result.journal ≡ all.amount }
        ensures slots { slots_in result.journal ≡ bus }
    {
        let Locked {
            world,
            mut turns,
            mut slots,
        } = self;
        let BusSeat {
            slots: mut of_bus,
            turns: _,
        } = bus;
        let mut of_nodes = all;
        names.tell();
        turns.audit(&mut of_nodes);
        slots.audit(&mut of_bus);
        world
    }
}
