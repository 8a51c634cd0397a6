//! The slots of a membership cycle. It starts at a multiple of its length, and there is none that
//! starts at slot 0.

ghost use Rattle.std.specs.Prelude.{◌≡◌, ◌<◌};
ghost use Rattle.cany_base.specs.Cycles.{cycle_of, is_end, is_exchange, is_start};
ghost use Rattle.cany_base.specs.Limits.{most_numbers};

use crate::notice::Slot;
use crate::params::Params;

/// The number of the cycle of a slot. In a legal scenario each slot of the run has one.
///
/// Promise: the number of the slot divided by the length of a cycle, rounded down.
pub fn cycle_of(params: &Params, slot: Slot) -> u16
    requires some { 0 < params.now.cycle }
    requires number { cycle_of params.now slot < most_numbers }
    ensures { result ≡ cycle_of params.now slot }
{
    (slot / params.cycle) as u16
}

/// Whether a cycle starts in the slot.
///
/// Promise: whether slot k · `cycle` is this one for some k ≥ 1. There is no start at slot 0.
///
/// Answers: `true` exactly where that is so.
///
/// Shown by: `restart_joins`, `leave_across_a_cycle_start`.
pub fn is_start(params: &Params, slot: Slot) -> bool
    requires { 0 < params.now.cycle }
    ensures { result ≡ is_start params.now slot }
{
    slot % params.cycle == 0 && 0 < slot / params.cycle
}

/// Whether vectors are exchanged in the slot, as they are in the `bound` slots after the start of a
/// cycle.
///
/// Promise: whether the slot is of a cycle k ≥ 1 and lies from 1 to `bound` slots after its first
/// slot.
///
/// Answers: `true` exactly where that is so.
///
/// Shown by: `restart_joins`, `leave_across_a_cycle_start`.
pub fn is_exchange(params: &Params, slot: Slot) -> bool
    requires { 0 < params.now.cycle }
    ensures { result ≡ is_exchange params.now slot }
{
    let after_start = slot % params.cycle;
    0 < after_start && after_start <= params.bound && 0 < slot / params.cycle
}

/// Whether the slot is the last in which vectors of its cycle are exchanged.
///
/// Promise: whether the slot is of a cycle k ≥ 1 and lies `bound` slots after its first slot.
///
/// Answers: `true` exactly where that is so.
///
/// Shown by: `restart_joins`, `leave_across_a_cycle_start`.
pub fn is_end(params: &Params, slot: Slot) -> bool
    requires { 0 < params.now.cycle }
    ensures { result ≡ is_end params.now slot }
{
    slot % params.cycle == params.bound && 0 < slot / params.cycle
}
