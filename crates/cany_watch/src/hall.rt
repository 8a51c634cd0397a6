//! The writer's side: a world, and what is published of it.
ghost use Rattle.std.specs.Prelude.{◌≡◌, ◌+◌, ◌-◌, ◌<◌, ◌≤◌, ℕ, [], ◌∷◌, ◌++◌, vec_len, slice_get, Some, IfOk, true, if◌then◌else◌};
ghost use mathlib.Core.List.{IsPrefix};
ghost use Rattle.cany_model.specs.Bus.State.{slots_run};
ghost use Rattle.cany_model.specs.Runs.RoundRobin.{rounds};
ghost use Rattle.cany_model.specs.Runs.Run.{IsLegal, after_step, is_done, reply};
ghost use Rattle.cany_world.specs.World.{state_of};
ghost use Rattle.cany_watch.specs.declared.hall.Shown.TheVariants as shown;
ghost use Rattle.cany_watch.specs.Halls.{HallParts, published_of, publisher_at};
ghost use Rattle.cany_watch.specs.Lines.{line_of, nodes_of};
ghost use Rattle.cany_watch.specs.Publishers.{note_of};

use crate::growing::make;
use crate::note::Note;
use crate::publisher::Publisher;
use crate::publishing::{end_all, publish_grown, publishers_of};
use crate::reading::Reading;
use cany_base::{Memory, NodeId, Scenario, Step};
use cany_model::StepReply;
use cany_world::{World, advance};
use std::alloc::Global;
use std::marker::Model;
use std::sync::Wait;

/// Whether the line of each node is published whole.
#[derive(Clone, Copy)]
pub enum Shown {
    /// The published list of every node is its line.
    All,
    /// Out of memory: of some node a beginning of the line is published, and the next step tries
    /// the lines of all nodes again.
    Memory,
}

impl Shown {
    /// By whether the line of each node was published.
    fn of(is_all: bool) -> Shown
        ensures { result ≡ shown.All → is_all ≡ true }
    {
        if is_all { Shown::All } else { Shown::Memory }
    }
}

/// A world, and what is published of it. Readers in other threads read the line of a node, which is
/// the logs of its incarnations one after the other, while the world goes on.
///
/// A hall is not `Drop`: every hall ends by `end`.
pub struct Hall {
    world: World,
    publishers: Vec<Publisher>,
    /// Whether the line of each node is known to be published whole, as after a call that answers
    /// `All`. It is no part of what the value stands for.
    is_all: bool,
}

impl Model for Hall {
    ghost use Rattle.std.specs.Prelude.{◌≡◌, true};
    ghost use Rattle.cany_watch.specs.Halls.{ArePublishersOf, HallParts, IsAllShown};

    ghost Value = { HallParts };

    ghost view = { λ h. record { world = h.world; publishers = h.publishers.items } };

    ghost invariant = { λ h. ArePublishersOf h.world h.publishers.items × (h.is_all ≡ true → IsAllShown h.world h.publishers.items) };
}

impl Hall {
    /// The hall of the world of the scenario before its first step, and a reading for each node, in
    /// node order. Nothing is published yet. All memory of the world is taken here, and none for
    /// what will be published.
    ///
    /// Promise: the world has the scenario and no step was made. Nothing is published of any node,
    /// and the reading at each place is the one of the node of that number, which knows nothing.
    ///
    /// Shown by: `a_read_after_learning_is_the_line`, `watch_one_node`.
    ///
    /// # Errors
    ///
    /// `Memory`: out of memory. The call ends the writers that were made by then, and may wait for
    /// that.
    pub fn build<R: Wait>(
        rt: &R,
        alloc: Global,
        scenario: &Scenario,
    ) -> Result<(Hall, Vec<Reading>), Memory>
        ensures world { IfOk result (λ t. t.0.world ≡ record { scenario = scenario.now; journal = [] }) }
        ensures nothing { IfOk result (λ t. (i : ℕ) → published_of t.0 i ≡ []) }
        ensures count { IfOk result (λ t. vec_len t.1 ≡ scenario.now.params.nodes) }
        ensures readings { IfOk result (λ t. (i : ℕ) → i < scenario.now.params.nodes →
            slice_get t.1.items i ≡ Some (note_of (publisher_at t.0.publishers i))) }
    {
        let nodes = usize::from(scenario.params().nodes);
        let (publishers, readings) = publishers_of(rt, alloc, nodes)?;
        match World::build(alloc, scenario) {
            Ok(world) => {
                let hall = Hall {
                    world,
                    publishers,
                    is_all: false,
                };
                Ok((hall, readings))
            }
            Err(memory) => {
                end_all(rt, publishers);
                Err(memory)
            }
        }
    }

    /// The world of the hall as it is now.
    ///
    /// Promise: the world of the hall.
    ///
    /// Shown by: `watch_one_node`, `watch_two_incarnations`.
    pub fn world(&self) -> &World
        ensures { result.now ≡ self.now.world }
    {
        &self.world
    }

    /// Makes the step, as `World::step` does, and publishes what it made longer: only a turn makes
    /// a line longer, and only that of its node. After a call that answered `Memory`, and at the
    /// first step, it publishes the line of every node. It may wait for readers.
    ///
    /// Promise: reply and world are those of `World::step`. What is published of a node is a
    /// beginning of its line, and begins with all that was published before.
    ///
    /// Answers: the reply of `World::step`; and `All` only where the line of each node is published
    /// whole. No clause says when `Memory` comes.
    ///
    /// Shown by: `a_read_after_learning_is_the_line`, `reads_are_made_beside_steps`,
    /// `watch_by_a_given_journal`, `a_failed_publishing_is_all`,
    /// `publishes_the_log_of_the_first_node`.
    pub fn step<R: Wait>(&mut self, rt: &R, step: Step) -> (StepReply, Shown)
        // The step is that of the world.
        ensures reply { result.0 ≡ reply self.old.world.scenario (state_of self.old.world) step }
        ensures new { self.new.world ≡ (if is_done result.0 then record self.old.world { journal = self.old.world.journal ++ step ∷ [] } else self.old.world) }
        ensures run { result.0 ≡ StepReply.Done → state_of self.new.world ≡ after_step self.old.world.scenario (state_of self.old.world) step }

        // What is published of a node is a beginning of its line, never shorter than before. With
        // `All` it is the line of each node, also of one whose line an earlier call could not
        // publish. Lines only grow.
        ensures lines { (i : ℕ) → i < nodes_of self.old.world → IsPrefix (line_of self.old.world i) (line_of self.new.world i) }
        ensures grows { (i : ℕ) → IsPrefix (published_of self.old i) (published_of self.new i) }
        ensures begins { (i : ℕ) → i < nodes_of self.old.world → IsPrefix (published_of self.new i) (line_of self.new.world i) }
        ensures all { result.1 ≡ shown.All → (i : ℕ) → i < nodes_of self.old.world → published_of self.new i ≡ line_of self.new.world i }
        ensures books { (i : ℕ) → (publisher_at self.new.publishers i).book ≡ (publisher_at self.old.publishers i).book }
    {
        let (reply, grown) = make(&mut self.world, step);
        let is_all = publish_grown(rt, &self.world, grown, self.is_all, &mut self.publishers);
        self.is_all = is_all;
        (reply, Shown::of(is_all))
    }

    /// Makes some of the rounds that are left by the world's `advance`, idle slots in bulk. Then it
    /// publishes the line of every node. It may wait for readers.
    ///
    /// Promise: the world is that of `advance`. What is published of a node is a beginning of its
    /// line, and begins with all that was published before.
    ///
    /// Answers: how many rounds are left, fewer than before; and `All` only where the line of each
    /// node is published whole. No clause says when `Memory` comes.
    ///
    /// Shown by: `watch_one_node`, `watch_two_incarnations`, `a_failed_publishing_is_all`,
    /// `publishes_the_log_of_the_first_node`.
    pub fn advance<R: Wait>(&mut self, rt: &R, left: u64) -> (u64, Shown)
        requires some { 0 < left }
        requires room { slots_run (state_of self.old.world) + left ≤ self.old.world.scenario.params.slots }
        requires legal { IsLegal self.old.world.scenario (self.old.world.journal ++ rounds self.old.world.scenario left (state_of self.old.world)) }
        // The rounds are those of the world.
        ensures fewer { result.0 < left }
        ensures new { self.new.world ≡ record self.old.world { journal = self.old.world.journal ++ rounds self.old.world.scenario (left - result.0) (state_of self.old.world) } }
        ensures ran { slots_run (state_of self.new.world) + result.0 ≡ slots_run (state_of self.old.world) + left }

        // What is published of a node is a beginning of its line, never shorter than before. With
        // `All` it is the line of each node. Lines only grow.
        ensures lines { (i : ℕ) → i < nodes_of self.old.world → IsPrefix (line_of self.old.world i) (line_of self.new.world i) }
        ensures grows { (i : ℕ) → IsPrefix (published_of self.old i) (published_of self.new i) }
        ensures begins { (i : ℕ) → i < nodes_of self.old.world → IsPrefix (published_of self.new i) (line_of self.new.world i) }
        ensures all { result.1 ≡ shown.All → (i : ℕ) → i < nodes_of self.old.world → published_of self.new i ≡ line_of self.new.world i }
        ensures books { (i : ℕ) → (publisher_at self.new.publishers i).book ≡ (publisher_at self.old.publishers i).book }
    {
        let fewer = advance(&mut self.world, left);
        // Rounds make any number of lines longer, so none is taken to be published whole.
        let is_all = publish_grown(rt, &self.world, None, false, &mut self.publishers);
        self.is_all = is_all;
        (fewer, Shown::of(is_all))
    }

    /// A note of the list that is published for a node. It takes no memory.
    ///
    /// Promise: the note tells the list that is published for the node, and the hall stays as it
    /// is.
    ///
    /// Shown by: `a_read_after_learning_is_the_line`, `watch_one_node`, `tells_what_was_taken`.
    pub fn tell(&mut self, node: NodeId) -> Note
        requires { node < nodes_of self.old.world }
        ensures note { result ≡ note_of (publisher_at self.old.publishers node) }
        ensures same { self.new ≡ self.old }
    {
        let publishers = self.publishers.as_slice();
        publishers[usize::from(node.get())].tell()
    }

    /// Ends the writers, and hands back the world as it stands. It may wait for readers. A read
    /// that begins after it need not return.
    ///
    /// Promise: the world as it stands.
    ///
    /// Shown by: `a_read_after_learning_is_the_line`, `watch_one_node`.
    pub fn end<R: Wait>(self, rt: &R) -> World
        ensures { result ≡ self.world }
    {
        let Hall {
            world,
            publishers,
            is_all: _,
        } = self;
        end_all(rt, publishers);
        world
    }
}
