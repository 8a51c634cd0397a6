//! The steps that the workers have left, made by the caller.
ghost use Rattle.std.specs.Prelude.{◌≡◌, ◌<◌, ◌≤◌, ◌∷◌, ◌++◌, ℕ, [], true, false, map, vec_len, IfSome, IfNone};
ghost use Rattle.cany_crew.specs.Gates.{IsOutcome};
ghost use Rattle.cany_model.specs.Runs.RoundRobin.{is_to_read};
ghost use Rattle.cany_model.specs.Runs.Run.{IsLegal, IsWhole, is_done, reply};
ghost use Rattle.cany_model.specs.Bus.State.{node_at, reads};
ghost use Rattle.cany_world.specs.World.{state_of};

use crate::gate::{Gate, ask};
use crate::nodes::nodes_of;
use cany_base::{NodeId, Slot, Step};
use cany_world::World;

/// Whether the node runs and has an unread notice.
fn has_unread(world: &World, node: NodeId) -> bool
    requires { node < world.now.scenario.params.nodes }
    ensures { result ≡ is_to_read (node_at (state_of world.now).nodes node) }
{
    world.stopped(node).is_none() && world.read(node) < world.trace().len() as u64
}

/// The least running node with an unread notice.
fn first_unread(world: &World) -> Option<NodeId>
    ensures node { IfSome result (λ node. is_to_read (node_at (state_of world.now).nodes node) ≡ true) }
    ensures none { IfNone result ((node : ℕ) → node < world.now.scenario.params.nodes
        → is_to_read (node_at (state_of world.now).nodes node) ≡ false) }
{
    let count = usize::from(nodes_of(world.scenario()));
    for i in 0..count {
        let node = NodeId::of_index(i);
        if has_unread(world, node) {
            return Some(node);
        }
    }
    None
}

/// A step that can be made, while the world has not ended: a turn where there is one, and otherwise
/// the next slot.
fn next_step(world: &World) -> Option<Step>
    ensures done { IfSome result (λ step. is_done (reply world.now.scenario (state_of world.now) step) ≡ true) }
    ensures legal { IfSome result (λ step. IsLegal world.now.scenario (world.now.journal ++ step ∷ [])) }
    ensures ended { IfNone result (IsLegal world.now.scenario world.now.journal × IsWhole world.now.scenario world.now.journal) }
{
    // What this call says of the journal is a part of the contract here, too.
    world.journal();
    if world.ended() {
        return None;
    }
    match first_unread(world) {
        Some(node) => Some(Step::Turn(node)),
        None => Some(Step::Slot),
    }
}

/// Makes the steps that are left until the world has ended, and asks the node's gate before each
/// turn. Stops at the first pass that is refused, and gives its node and its slot, the one that the
/// node is to read next.
pub(crate) fn finish<G: Gate>(world: &mut World, gates: &mut Vec<G>) -> Option<(NodeId, Slot)>
    requires { world.old.scenario.params.nodes ≤ vec_len gates.old }
    ensures scenario { world.new.scenario ≡ world.old.scenario }
    ensures ended { IfNone result (IsLegal world.new.scenario world.new.journal × IsWhole world.new.scenario world.new.journal) }
    ensures node { IfSome result (λ found. found.0 < world.old.scenario.params.nodes) }
    ensures next { IfSome result (λ found. found.1 ≡ reads (state_of world.new) found.0) }
    ensures outcome { IsOutcome (map G.refusals gates.old.items) (map G.refusals gates.new.items) (map G.refused_at gates.new.items) result }
{
    while let Some(step) = next_step(world) {
        if let Step::Turn(node) = step {
            let slot = world.read(node);
            if !ask(gates.as_mut_slice(), node, slot) {
                return Some((node, slot));
            }
        }
        world.step(step);
    }
    None
}
