ghost use Rattle.std.specs.Prelude.{◌≡◌, ℕ, true};
ghost use Rattle.cany_base.specs.declared.step.Step.TheVariants as step;
ghost use Rattle.cany_model.specs.Runs.Run.{is_done};
ghost use Rattle.cany_model.specs.Bus.State.{reads};
ghost use Rattle.cany_world.specs.Replies.{has_turned, step_reply};
ghost use Rattle.cany_world.specs.World.{state_of};
ghost use Rattle.cany_yard.specs.Seats.{count_after, seat_after};
ghost use Rattle.cany_yard.specs.Steps.{reply_in, state_after, world_after};

use crate::course::Course;
use crate::locked::Locked;
use crate::seat::{BusSeat, Seat};
use cany_model::StepReply;
use cany_node::TurnReply;
use cany_world::World;
use std::marker::Model;
use std::sync::MutexGuard;
use std::sync::ledger::Ledger;

/// The world of a yard, lent to whoever holds the lock. The lock is free again when the deck ends.
#[derive(Drop)]
pub struct Deck<'a, L: Course, B: Ledger> {
    pub(crate) locked: MutexGuard<'a, Locked<L, B>>,
}

impl<'a, L: Course, B: Ledger> Model for Deck<'a, L, B> {
    ghost use Rattle.std.specs.Sync.Mutex.{mutex_guard_value};
    ghost use Rattle.cany_world.specs.World.{WorldParts};

    ghost Value = { WorldParts };

    ghost view = { λ deck. (mutex_guard_value deck.locked).world };
}

impl<'a, L: Course, B: Ledger> Deck<'a, L, B> {
    /// The world as it is now: the run, by its journal, of the scenario with which the yard was
    /// started.
    ///
    /// Promise: the world as it is now. Its scenario is the one with which the yard was started.
    ///
    /// Shown by: `threads_replay`, `gates_overlap_and_one_refuses`.
    pub fn world(&self) -> &World
        ensures world { result.now ≡ self.now }
        ensures scenario { result.now.scenario ≡ L.scenario }
    {
        &self.locked.world
    }

    /// Makes the turn of the seat's node, if it can be made. The reply names the slot whose notice
    /// was read.
    ///
    /// Promise: reply and change are those of `World::step` for the turn of the seat's node. The
    /// seat's count rises by one exactly at a turn that was made.
    ///
    /// Answers: `Turned` exactly where the turn can be made, with the slot that the node had to
    /// read next. Else `Stopped` or `NothingYet`, as the reply to the step.
    ///
    /// Shown by: `seats_by_hand`, `threads_replay`, `deck_turn_always_nothing_yet`,
    /// `deck_turn_of_another_node`, `deck_turn_makes_a_second_turn`, `a_turn_is_not_booked`.
    pub fn turn(&mut self, seat: &mut Seat<L, B>) -> TurnReply
        ensures reply { step_reply result ≡ reply_in self.old (step.Turn seat.old.node) }
        ensures slot { (slot : ℕ) → result ≡ TurnReply.Turned slot → slot ≡ reads (state_of self.old) seat.old.node }
        ensures new { self.new ≡ world_after (has_turned result) self.old (step.Turn seat.old.node) }
        ensures run { has_turned result ≡ true → state_of self.new ≡ state_after self.old (step.Turn seat.old.node) }
        ensures seat { seat.new ≡ seat_after (has_turned result) seat.old }
    {
        self.locked.turn(seat)
    }

    /// Runs the next slot, if it can run.
    ///
    /// Promise: reply and change are those of `World::step` for the slot. The seat's count rises by
    /// one exactly at a slot that was run.
    ///
    /// Answers: `Done` exactly where the slot can run. Else `Over` exactly where all slots ran,
    /// else `Lagging` with the least running node that lags.
    ///
    /// Shown by: `seats_by_hand`, `threads_replay`, `a_refused_slot_is_booked`.
    pub fn slot(&mut self, bus: &mut BusSeat<L, B>) -> StepReply
        ensures reply { result ≡ reply_in self.old step.Slot }
        ensures new { self.new ≡ world_after (is_done result) self.old step.Slot }
        ensures run { result ≡ StepReply.Done → state_of self.new ≡ state_after self.old step.Slot }
        ensures seat { bus.new ≡ count_after (is_done result) bus.old }
    {
        self.locked.slot(bus)
    }
}
