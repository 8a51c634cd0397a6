//! What ties the calls of a controller to the definitions of a run, each law as the contract of a
//! function that does nothing.
ghost use Rattle.std.specs.Prelude.{◌≡◌, ◌==◌, ◌/◌, ◌^◌, ℕ, false, All, None};
ghost use Rattle.cany_base.specs.declared.slot_note.SlotNote.{SlotNote};
ghost use Rattle.cany_base.specs.Frame.{FrameParts, identifier_of};
ghost use Rattle.cany_model.specs.Bus.Frames.{identity_of, same_identity};
ghost use Rattle.cany_model.specs.Bus.Slot.{exceeds};
ghost use Rattle.can_frame.specs.Identifier.{FitsIdentifier};
ghost use Rattle.can_controller.specs.Controller.{ControllerState, SeenIsNodeAfter, node_state};
ghost use Rattle.can_controller.specs.Waiting.{IsAscending, LesserKeyWins};

use crate::controller::Controller;
use cany_base::Format;

/// Identifiers tell identities but for the low four bits, which tell the incarnation.
///
/// Promise: two frames that fit the format have one identity exactly where their identifiers are
/// equal but for the low four bits.
pub fn identifier_is_identity(format: Format)
    ensures { (a b : FrameParts) → FitsIdentifier format a → FitsIdentifier format b →
        same_identity (identity_of a) (identity_of b) ≡ (identifier_of format a / 2 ^ 4 == identifier_of format b / 2 ^ 4) }
{}

/// Of frames that fit, one wins over another exactly where its key is less.
///
/// Promise: of two frames that fit the format one wins over the other by the rule of a run exactly
/// where its key is less (`LesserKeyWins`).
pub fn lesser_key_wins(format: Format)
    ensures { LesserKeyWins format }
{}

/// What a controller does in a slot is what the definition of a run does to its node.
///
/// Promise: let a running controller see its share, and then stop where the note of the slot stops
/// its node. If the note stops each node whose counters exceed the limit, the controller is the
/// node after the slot (`SeenIsNodeAfter`).
pub fn seen_is_node_after()
    ensures { (i : ℕ) (note : SlotNote) (c : ControllerState) → SeenIsNodeAfter i note c }
{}

/// The waiting frames ascend by identity, so that no two of them have one.
///
/// Promise: of each controller the waiting frames ascend by identity.
pub fn frames_ascend(controller: &Controller)
    ensures { IsAscending controller.now.params.format controller.now.waiting }
{
    controller.waiting.ascend();
}

/// Each waiting frame fits an identifier.
///
/// Promise: of each controller every waiting frame fits an identifier of its format.
pub fn frames_fit(controller: &Controller)
    ensures { All (FitsIdentifier controller.now.params.format) controller.now.waiting }
{
    controller.waiting.fit();
}

/// The counters of a running controller are within the limit.
///
/// Promise: of each running controller no counter exceeds the limit.
pub fn counters_within(controller: &Controller)
    ensures { controller.now.stopped ≡ None → exceeds (node_state controller.now) ≡ false }
{
    controller.counters_within();
}
