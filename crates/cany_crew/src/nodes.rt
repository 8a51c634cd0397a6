//! The nodes of a scenario: how many there are, and how far they are behind.
ghost use Rattle.std.specs.Prelude.{◌≡◌, ◌≤◌};
ghost use Rattle.cany_base.specs.Limits.{most_nodes};

use cany_base::{NodeId, Scenario};
use cany_world::World;

/// The number of the scenario's nodes, of which there are no more than gates.
pub(crate) fn nodes_of(scenario: &Scenario) -> u8
    ensures count { result ≡ scenario.now.params.nodes }
    ensures few { result ≤ most_nodes }
{
    scenario.params().nodes
}

/// How many turns there have to be at least before the next slot can run: of each running node as
/// many as it has unread notices beyond the lag.
pub(crate) fn turns_due(world: &World) -> u64 {
    let lag = u64::from(world.scenario().params().lag);
    let ran = world.trace().len() as u64;
    let mut due: u64 = 0;
    for i in 0..usize::from(nodes_of(world.scenario())) {
        let node = NodeId::of_index(i);
        if world.stopped(node).is_none() {
            let unread = ran.saturating_sub(world.read(node));
            due = due.saturating_add(unread.saturating_sub(lag));
        }
    }
    due
}
