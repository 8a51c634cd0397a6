//! What holds of identifiers and keys in every format, for every frame whose number, node and
//! incarnation fit their fields.

ghost use Rattle.std.specs.Prelude.{◌≡◌, ◌<◌, ◌↔◌, ℕ, Bool, true, false, List};
ghost use Rattle.cany_base.specs.Frame.{FrameParts, identifier_of, is_remote, key_of};
ghost use Rattle.can_frame.specs.Decoding.{IsFrameOf};
ghost use Rattle.can_frame.specs.Identifier.{AgreeInIdentifier, FitsFormat, FitsIdentifier, HasSmallNumbers, IsOrderedBefore};

use cany_base::Format;

/// The frames of a run fit the format.
///
/// Promise: a frame with a number below 32,768 and a node that there can be in the format fits the
/// fields of the format.
pub fn small_numbers_fit(format: Format)
    ensures { (f : FrameParts) → HasSmallNumbers format f → FitsFormat format f }
{}

/// An identifier tells all of a frame but its payload.
///
/// Promise: two frames that fit the format have one identifier exactly where they have one class,
/// number, node and incarnation.
pub fn identifier_tells_frame(format: Format)
    ensures { (a b : FrameParts) → FitsIdentifier format a → FitsIdentifier format b →
        (identifier_of format a ≡ identifier_of format b) ↔ AgreeInIdentifier a b }
{}

/// Identifiers order frames by class, then number, then node, then incarnation.
///
/// Promise: of two frames that fit the format one has the smaller identifier exactly where it comes
/// first in this order (`IsOrderedBefore`).
pub fn identifiers_order_frames(format: Format)
    ensures { (a b : FrameParts) → FitsIdentifier format a → FitsIdentifier format b →
        (identifier_of format a < identifier_of format b) ↔ IsOrderedBefore a b }
{}

/// Keys order frames by class, then number, then node, then incarnation.
///
/// Promise: of two frames that fit the format one has the smaller key exactly where it comes first
/// in this order. Their keys are equal exactly where these four are.
pub fn keys_order_frames(format: Format)
    ensures less { (a b : FrameParts) → FitsIdentifier format a → FitsIdentifier format b →
        (key_of format a < key_of format b) ↔ IsOrderedBefore a b }
    ensures same { (a b : FrameParts) → FitsIdentifier format a → FitsIdentifier format b →
        (key_of format a ≡ key_of format b) ↔ AgreeInIdentifier a b }
{}

/// Of one identifier a data frame beats a remote frame.
///
/// Promise: of two frames with one identifier, of which one is a data frame and one a remote frame,
/// the data frame has the smaller key.
pub fn data_beats_remote(format: Format)
    ensures { (data_frame remote_frame : FrameParts) →
        identifier_of format data_frame ≡ identifier_of format remote_frame →
        is_remote data_frame.class ≡ false → is_remote remote_frame.class ≡ true →
        key_of format data_frame < key_of format remote_frame }
{}

/// No two frames have one identifier, kind and payload.
///
/// Promise: no two frames have one identifier, kind and payload in a format.
pub fn decoding_is_unique(format: Format)
    ensures { (ident : ℕ) (remote : Bool) (payload : List ℕ) (f g : FrameParts) →
        IsFrameOf format ident remote payload f → IsFrameOf format ident remote payload g → f ≡ g }
{}
