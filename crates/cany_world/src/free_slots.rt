//! The slots of which the scenario's script says nothing.
ghost use Rattle.std.specs.Prelude.{◌≡◌, ◌+◌, ◌^◌, ◌<◌, ◌≤◌, ◌==◌, ℕ, true};
ghost use Rattle.std.specs.List.{list_any};
ghost use Rattle.cany_base.specs.Scenario.{ScenarioParts};
ghost use Rattle.cany_world.specs.Resting.{IsFree};

use can_fault::Script;
use cany_base::{NodeAsk, Slot};

/// Whether a restart entry is one of the slot.
fn has_restart(restarts: &[NodeAsk], slot: Slot) -> bool
    ensures { result ≡ list_any (λ ask. ask.slot == slot) restarts.now }
{
    restarts.iter().any(|ask| ask.slot == slot)
}

/// Whether no fault rule is that of the slot, and no restart entry.
fn is_free(script: &Script, restarts: &[NodeAsk], slot: Slot) -> bool
    ensures { (scenario : ScenarioParts) → script.now ≡ scenario.rules → restarts.now ≡ scenario.restarts → result ≡ true → IsFree scenario slot }
{
    !script.has_rule(slot) && !has_restart(restarts, slot)
}

/// How many slots from the next one on are free, at most so many.
pub(crate) fn free_slots(script: &Script, restarts: &[NodeAsk], next: Slot, most: u64) -> u64
    requires { next + most < 2 ^ 64 }
    ensures few { result ≤ most }
    ensures free { (scenario : ScenarioParts) → script.now ≡ scenario.rules → restarts.now ≡ scenario.restarts →
        (slot : ℕ) → next ≤ slot → slot < next + result → IsFree scenario slot }
{
    // Most scenarios have neither.
    if script.is_empty() && restarts.is_empty() {
        return most;
    }
    let mut slots = 0;
    while slots < most && is_free(script, restarts, next + slots) {
        slots += 1;
    }
    slots
}
