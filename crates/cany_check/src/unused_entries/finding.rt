//! What is found of the entries of a scenario, one after another.
ghost use Rattle.std.specs.Prelude.{◌≡◌, ◌++◌, map, option_map, OnOk};
ghost use Rattle.cany_check.specs.declared.unused_entries.unused_entry.UnusedEntry.{UnusedEntry as AnyEntry};
ghost use Rattle.cany_check.specs.declared.unused_entries.unused_entry.UnusedEntry.TheVariants as entry;
ghost use Rattle.cany_check.specs.Idle.Unused.{as_list};

use crate::unused_entries::unused_entry::{NoAsk, NoFault, Unused, UnusedEntry};
use cany_base::Memory;

/// Appends what is found of the entry at this place, if anything.
pub(crate) fn push_found(
    found: &mut Vec<Unused>,
    place: usize,
    entry: Option<UnusedEntry>,
) -> Result<(), Memory>
    ensures { OnOk result (found.new.items ≡ found.old.items ++ map (λ (e : AnyEntry). record { place = place; entry = e }) (as_list entry)) }
{
    if let Some(entry) = entry {
        found.push(Unused { place, entry })?;
    }
    Ok(())
}

/// What is found of a send, by why it did nothing.
pub(crate) fn as_send(why: Option<NoAsk>) -> Option<UnusedEntry>
    ensures { result ≡ option_map (λ w. entry.Send w) why }
{
    why.map(UnusedEntry::Send)
}

/// What is found of a fault rule, by why it did nothing.
pub(crate) fn as_fault(why: Option<NoFault>) -> Option<UnusedEntry>
    ensures { result ≡ option_map (λ w. entry.Fault w) why }
{
    why.map(UnusedEntry::Fault)
}
