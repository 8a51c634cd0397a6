//! The restart entries that did nothing.
ghost use Rattle.std.specs.Prelude.{◌≡◌, ◌++◌, ◌∷◌, [], Some, None, if◌then◌else◌, OnOk};
ghost use Rattle.cany_world.specs.World.{state_of};
ghost use Rattle.cany_check.specs.declared.unused_entries.unused_entry.UnusedEntry.TheVariants as entry;
ghost use Rattle.cany_check.specs.Idle.Unused.{is_unused_restart, with_places};

use crate::unused_entries::finding::push_found;
use crate::unused_entries::unused_entry::{Unused, UnusedEntry};
use cany_base::{Memory, NodeAsk};
use cany_world::World;

/// Whether the node of the entry did not start again in the slot.
fn unused_restart(world: &World, ask: &NodeAsk) -> Option<UnusedEntry>
    ensures { result ≡ (if is_unused_restart (state_of world.now) ask.now then Some entry.Restart else None) }
{
    if world.restarted(ask.slot).has(ask.node) {
        return None;
    }
    Some(UnusedEntry::Restart)
}

/// Appends the restart entries that did nothing, in file order.
pub(crate) fn push_restarts(world: &World, found: &mut Vec<Unused>) -> Result<(), Memory>
    ensures { OnOk result (found.new.items ≡ found.old.items
        ++ with_places (λ ask. if is_unused_restart (state_of world.now) ask then entry.Restart ∷ [] else []) (λ e. e) 0 world.now.scenario.restarts) }
{
    let restarts = world.scenario().restarts();
    for place in 0..restarts.len() {
        push_found(found, place, unused_restart(world, &restarts[place]))?;
    }
    Ok(())
}
