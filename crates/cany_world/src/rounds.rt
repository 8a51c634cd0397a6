//! The round robin journal.
ghost use Rattle.std.specs.Prelude.{◌≡◌, ◌+◌, ◌-◌, ◌<◌, ◌≤◌, ◌++◌, [], IsTrue};
ghost use Rattle.cany_model.specs.Runs.RoundRobin.{round, round_robin, rounds};
ghost use Rattle.cany_model.specs.Runs.Run.{IsLegal, has_ended};
ghost use Rattle.cany_model.specs.Bus.State.{slots_run};
ghost use Rattle.cany_world.specs.World.{WorldParts, state_of};

use crate::world::World;
use cany_base::NodeId;

/// Makes the steps of one slot: the slot, and then the turns of the running nodes that have
/// something to read, in ascending order.
fn make_round(world: &mut World)
    requires { IsLegal world.old.scenario (world.old.journal ++ round world.old.scenario (state_of world.old)) }
    ensures { world.new ≡ record world.old { journal = world.old.journal ++ round world.old.scenario (state_of world.old) } }
{
    let count = usize::from(world.scenario().params().nodes);
    world.make_slot();
    for i in 0..count {
        world.make_turn(NodeId::of_index(i));
    }
}

/// Makes some of the rounds that are left, where a round is the steps of one slot: those of the
/// next idle slots in bulk, or where the next slot is not known to be idle, its round alone. It
/// answers how many are left then. `round_robin` calls it until none are left.
///
/// Promise: at least one round was made. The journal goes on by the next rounds of the round robin,
/// as many as are no longer left, and the scenario stays.
///
/// Shown by: `one_message_no_fault`, `a_long_journal_repeats`, `a_rule_is_passed_over`.
pub fn advance(world: &mut World, left: u64) -> u64
    requires some { 0 < left }
    requires room { slots_run (state_of world.old) + left ≤ world.old.scenario.params.slots }
    requires legal { IsLegal world.old.scenario (world.old.journal ++ rounds world.old.scenario left (state_of world.old)) }
    ensures fewer { result < left }
    ensures new { world.new ≡ record world.old { journal = world.old.journal ++ rounds world.old.scenario (left - result) (state_of world.old) } }
    ensures ran { slots_run (state_of world.new) + result ≡ slots_run (state_of world.old) + left }
{
    let rested = world.rest(left);
    if rested > 0 {
        return left - rested;
    }
    make_round(world);
    left - 1
}

/// Runs the whole of the scenario: in each slot the slot, and then the turns of the running nodes
/// that have something to read, in ascending order.
///
/// Promise: the journal of the world is exactly the round robin journal of its scenario, and the
/// run has ended.
///
/// Shown by: `one_message_no_fault`, `a_long_journal_repeats`, `a_rule_is_passed_over`.
pub fn round_robin(world: &mut World)
    requires { world.old.journal ≡ [] }
    ensures run { world.new ≡ record { scenario = world.old.scenario; journal = round_robin world.old.scenario } }
    ensures ended { IsTrue (has_ended world.new.scenario (state_of world.new)) }
{
    let mut left = world.scenario().params().slots;
    while left > 0 {
        left = advance(world, left);
    }
    world.note_rounds();
}
