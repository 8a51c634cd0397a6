//! Laws of scripts along runs. A call of one hands its fact to a proof, and does nothing.

ghost use Rattle.std.specs.Prelude.{◌≡◌, ◌+◌, ◌<◌, ◌≤◌, ◌∷◌, true, List, length, count_by};
ghost use Rattle.cany_base.specs.declared.rule.Rule.{Rule};
ghost use Rattle.cany_base.specs.declared.slot_note.SlotNote.{SlotNote};
ghost use Rattle.cany_base.specs.Frame.{FrameParts};
ghost use Rattle.can_fault.specs.Rules.{IsRuledBy, next_attempt};
ghost use Rattle.can_fault.specs.Tally.{is_partial_slot};

/// Numbers of attempts are small.
///
/// Promise: the number that the next attempt gets is at most one more than the slots so far.
pub fn attempts_are_at_most_slots()
    ensures { (rules : List Rule) (trace : List SlotNote) (f : FrameParts) → next_attempt rules trace f ≤ length trace + 1 }
{}

/// A tally with room for each rule has room for each Partial slot.
///
/// Promise: let each slot of a run have the verdict that the rules give. If the newest slot is
/// Partial, fewer slots before it were Partial than there are rules.
pub fn partial_slots_are_fewer_than_rules()
    ensures { (rules : List Rule) (trace : List SlotNote) (note : SlotNote) → IsRuledBy rules (note ∷ trace) → is_partial_slot note ≡ true
        → count_by is_partial_slot trace < length rules }
{}
