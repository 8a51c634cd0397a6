//! The steps that were made.
ghost use Rattle.std.specs.Prelude.{◌≡◌, ◌+◌, ◌<◌, ◌≤◌, ◌++◌, [], ◌∷◌, length, take, IfOk};
ghost use Rattle.cany_base.specs.Limits.{most_nodes};
ghost use Rattle.cany_world.specs.Journal.{Repeats};
ghost use Rattle.cany_world.specs.Resting.{round_of, rounds_of};

use can_controller::Controller;
use cany_base::{BoundedVec, Memory, NodeId, Step};
use std::alloc::Global;
use std::marker::Model;

/// The steps that were made, with room for all that a run can have.
#[derive(Drop)]
pub(crate) struct Journal {
    steps: BoundedVec<Step>,
    /// After so many steps the journal repeats itself. It is 0 where that is not known, and no part
    /// of what the value stands for.
    period: usize,
}

impl Model for Journal {
    ghost use Rattle.cany_base.specs.declared.step.Step.{Step};
    ghost use Rattle.cany_base.specs.Bounded.{Bounded};
    ghost use Rattle.cany_world.specs.Journal.{Repeats};

    ghost Value = { Bounded Step };

    ghost view = { λ j. j.steps };

    ghost invariant = { λ j. Repeats j.period j.steps.items };
}

impl Journal {
    /// No step yet, with room for so many.
    pub(crate) fn build(alloc: Global, room: usize) -> Result<Journal, Memory>
        ensures { IfOk result (λ journal. journal ≡ record { items = []; room = room }) }
    {
        let steps = BoundedVec::build(alloc, room)?;
        Ok(Journal { steps, period: 0 })
    }

    /// Appends a copy of a step.
    pub(crate) fn push_copy(&mut self, step: &Step)
        requires { length self.old.items < self.old.room }
        ensures { self.new ≡ record { items = self.old.items ++ step.now ∷ []; room = self.old.room } }
    {
        self.period = 0;
        self.steps.push_copy(step);
    }

    /// Appends copies of steps.
    pub(crate) fn extend(&mut self, steps: &[Step])
        requires { length self.old.items + length steps.now ≤ self.old.room }
        ensures { self.new ≡ record self.old { items = self.old.items ++ steps.now } }
    {
        self.period = 0;
        self.steps.extend(steps);
    }

    /// Notes that the journal repeats itself after so many steps.
    pub(crate) fn note_period(&mut self, period: usize)
        requires { Repeats period self.old.items }
        ensures { self.new ≡ self.old }
    {
        self.period = period;
    }

    /// After how many steps the journal repeats itself up to its end, as far as is known.
    pub(crate) fn period(&self) -> usize
        ensures { Repeats result self.now.items }
    {
        self.period
    }

    /// How many steps may still be appended.
    pub(crate) fn spare(&self) -> usize
        ensures { result + length self.now.items ≡ self.now.room }
    {
        self.steps.spare()
    }

    /// The steps, oldest first.
    pub(crate) fn as_slice(&self) -> &[Step]
        ensures items { result.now ≡ self.now.items }
        ensures fits { length result.now ≤ self.now.room }
    {
        self.steps.as_slice()
    }
}

/// How many steps a round has at most: the slot, and a turn of each node.
const MOST_STEPS: usize = NodeId::COUNT as usize + 1;

/// The slot, and the turns of the nodes whose controllers run, in ascending order, at the front;
/// and how many they are.
fn round_of(controllers: &[Controller]) -> ([Step; MOST_STEPS], usize)
    requires { length controllers.now ≤ most_nodes }
    ensures few { result.1 ≤ length result.0 }
    ensures steps { take result.1 result.0 ≡ round_of controllers.now }
{
    let mut steps = [Step::Slot; MOST_STEPS];
    let mut count = 1;
    for i in 0..controllers.len() {
        if controllers[i].stopped().is_none() {
            steps[count] = Step::Turn(NodeId::of_index(i));
            count += 1;
        }
    }
    (steps, count)
}

/// Appends the steps of so many rounds: each the slot, and the turns of the nodes whose controllers
/// run, in ascending order.
pub(crate) fn push_rounds(journal: &mut Journal, controllers: &[Controller], slots: u64)
    requires few { length controllers.now ≤ most_nodes }
    requires room { length journal.old.items + length (rounds_of slots controllers.now) ≤ journal.old.room }
    ensures { journal.new ≡ record journal.old { items = journal.old.items ++ rounds_of slots controllers.now } }
{
    let (steps, count) = round_of(controllers);
    for _slot in 0..slots {
        journal.extend(&steps[..count]);
    }
}
