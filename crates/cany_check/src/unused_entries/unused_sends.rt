//! The scripted sends that did nothing.
ghost use Rattle.std.specs.Prelude.{◌≡◌, ◌++◌, OnOk};
ghost use Rattle.cany_world.specs.World.{state_of};
ghost use Rattle.cany_check.specs.declared.unused_entries.unused_entry.UnusedEntry.TheVariants as entry;
ghost use Rattle.cany_check.specs.Idle.Unused.{as_list, unused_send, with_places};

use crate::unused_entries::finding::{as_send, push_found};
use crate::unused_entries::presence::missed;
use crate::unused_entries::unused_entry::Unused;
use cany_base::Memory;
use cany_world::World;

/// Appends the sends that did nothing, in file order.
pub(crate) fn push_sends(world: &World, found: &mut Vec<Unused>) -> Result<(), Memory>
    ensures { OnOk result (found.new.items ≡ found.old.items
        ++ with_places (λ send. as_list (unused_send (state_of world.now) send)) (λ why. entry.Send why) 0 world.now.scenario.sends) }
{
    let scenario = world.scenario();
    // It is the contract of this call that says that the scenario is legal.
    let _legal = scenario.params();
    let sends = scenario.sends();
    for place in 0..sends.len() {
        let send = &sends[place];
        let why = missed(world, send.slot, send.node);
        push_found(found, place, as_send(why))?;
    }
    Ok(())
}
