ghost use Rattle.std.specs.Prelude.{◌≡◌, ◌<◌, ◌≤◌, ◌↔◌, [], IfOk, IfErr, IsErr, vec_len};
ghost use Rattle.cany_yard.specs.Seats.{AreFirstSeats, turns_counted};
ghost use Rattle.cany_yard.specs.Steps.{slots_in, turns_in};

use crate::course::{Course, Names};
use crate::deck::Deck;
use crate::locked::Locked;
use crate::seat::{BusSeat, Seat};
use crate::seating::{seats_of, together};
use cany_base::Memory;
use cany_world::World;
use std::alloc::Global;
use std::sync::ledger::{Blank, Ledger};
use std::sync::{Mutex, Wait};

/// A world under one lock. Its steps are made by the seats that were made with it.
#[derive(Drop)]
pub struct Yard<L: Course, B: Ledger> {
    locked: Mutex<Locked<L, B>>,
    names: Names<L, B>,
    made: u32,
    ghost made_is: { made ≡ L.scenario.params.nodes },
    ghost some: { 0 < made },
}

/// Fewer seats were given back than were made. All that was given stands here.
#[derive(Drop)]
pub struct SeatsMissing<L: Course, B: Ledger> {
    pub yard: Yard<L, B>,
    pub bus: BusSeat<L, B>,
    pub seats: Vec<Seat<L, B>>,
    pub have: u32,
    pub made: u32,
}

impl<L: Course, B: Ledger> Yard<L, B> {
    /// Puts the world under a lock, with a seat for the bus and one for each node, in node order.
    ///
    /// The names are those of the two blanks: the first has a part for each node, and the second
    /// has one. No call but this takes memory.
    ///
    /// Promise: the seat of the bus has counted no slot. There is a seat for each node, at the
    /// place of its number, and none has counted a turn.
    ///
    /// Shown by: `seats_by_hand`, `threads_replay`, `seats_in_descending_order`.
    ///
    /// # Errors
    ///
    /// `Memory`: out of memory. The world is handed back as it was.
    pub fn start(
        alloc: Global,
        turns: Blank,
        slots: Blank,
        world: World,
    ) -> Result<(Yard<L, B>, BusSeat<L, B>, Vec<Seat<L, B>>), (World, Memory)>
        requires fresh { world.journal ≡ [] }
        requires course { world.scenario ≡ L.scenario }
        requires turns { (turns.name ≡ L.name) × (turns.parts ≡ L.parts) × (turns.parts ≡ world.scenario.params.nodes) }
        requires slots { (slots.name ≡ B.name) × (slots.parts ≡ B.parts) × (slots.parts ≡ 1) }
        ensures bus { IfOk result (λ started. started.1 ≡ 0) }
        ensures seats { IfOk result (λ started. AreFirstSeats L.scenario.params.nodes started.2.items) }
        ensures memory { IfErr result (λ back. back.0 ≡ world) }
    {
        let made = world.scenario().params().nodes;
        let (of_turns, all) = turns.open::<L>();
        match seats_of::<L, B>(alloc, usize::from(made), all) {
            Ok(seats) => {
                let (of_slots, of_bus) = slots.open::<B>();
                let bus = BusSeat::new(of_bus);
                let yard = Yard {
                    locked: Mutex::new(Locked::new(world, of_turns, of_slots)),
                    names: Names::new(),
                    made: u32::from(made),
                };
                Ok((yard, bus, seats))
            }
            Err(memory) => Err((world, memory)),
        }
    }

    /// Takes the lock, for which it may wait.
    ///
    /// Promise: the deck lends the world of the yard: the run, by its journal, of the scenario with
    /// which the yard was started. No clause says that the call returns.
    ///
    /// Shown by: `seats_by_hand`, `threads_replay`, `gates_overlap_and_one_refuses`.
    pub fn lock<R: Wait>(&self, rt: &R) -> Deck<'_, L, B> {
        Deck {
            locked: self.locked.lock(rt),
        }
    }

    /// The world, once all seats are given back. Its journal has as many turns as the seats counted
    /// together, and as many slots as the seat of the bus counted.
    ///
    /// Promise: the world has the scenario with which the yard was started. Its journal has as many
    /// turns as the seats counted together, and as many slots as the seat of the bus counted.
    ///
    /// Shown by: `seats_by_hand`, `close_does_not_look_at_the_seats`,
    /// `a_seat_is_left_out_at_the_close`.
    ///
    /// # Errors
    ///
    /// `SeatsMissing` exactly where fewer seats are given than were made: both numbers, and all
    /// that was given.
    pub fn close(
        self,
        bus: BusSeat<L, B>,
        seats: Vec<Seat<L, B>>,
    ) -> Result<World, SeatsMissing<L, B>>
        ensures missing { IsErr result ↔ (vec_len seats < L.scenario.params.nodes) }
        ensures numbers { IfErr result (λ missing. (missing.have ≡ vec_len seats) × (missing.made ≡ L.scenario.params.nodes)) }
        ensures back { IfErr result (λ missing. (missing.yard ≡ self) × (missing.bus ≡ bus) × (missing.seats ≡ seats)) }
        ensures scenario { IfOk result (λ world. world.scenario ≡ L.scenario) }
        ensures turns { IfOk result (λ world. turns_in world.journal ≡ turns_counted seats.items) }
        ensures slots { IfOk result (λ world. slots_in world.journal ≡ bus) }
    {
        let made = self.made;
        if seats.len() < made as usize {
            let have = seats.len() as u32;
            return Err(SeatsMissing {
                yard: self,
                bus,
                seats,
                have,
                made,
            });
        }
        Ok(self.end(bus, seats))
    }

    /// Gives back the world that the seats worked. No seat may be missing: `close` is the call that
    /// tests this.
    ///
    /// Promise: the world has the scenario with which the yard was started. Its journal has as many
    /// turns as the seats counted together, and as many slots as the seat of the bus counted.
    ///
    /// Shown by: `threads_replay`, `gates_overlap_and_one_refuses`,
    /// `a_seat_is_left_out_at_the_close`.
    pub fn end(self, bus: BusSeat<L, B>, seats: Vec<Seat<L, B>>) -> World
        requires { L.scenario.params.nodes ≤ vec_len seats }
        ensures scenario { result.scenario ≡ L.scenario }
        ensures turns { turns_in result.journal ≡ turns_counted seats.items }
        ensures slots { slots_in result.journal ≡ bus }
    {
        let Yard {
            locked,
            names,
            made: _,
        } = self;
        locked.into_inner().end(&names, bus, together(seats))
    }
}
