//! The incarnation in frames and identifiers. The protocols name none: the node stamps it in.

ghost use Rattle.std.specs.Prelude.{◌≡◌, ◌+◌, ◌^◌, ◌<◌, ◌≤◌};
ghost use Rattle.cany_base.specs.Limits.{most_restarts_of_node};
ghost use Rattle.cany_node.specs.Stamping.{ident_with, with_incarnation};

use can_frame::{has_incarnation, tells_incarnation};
use cany_base::Frame;

/// The frame with this incarnation, if frames of its class tell one.
pub(crate) fn with_incarnation(frame: &Frame, inc: u8) -> Frame
    requires { inc ≤ most_restarts_of_node }
    ensures { result ≡ with_incarnation inc frame.now }
{
    let mut stamped = *frame;
    if has_incarnation(frame.class) {
        stamped.inc = inc;
    }
    stamped
}

/// The identifier with this incarnation in its lowest bits, if frames of its class tell one.
pub(crate) fn ident_with(ident: u32, inc: u8) -> u32
    requires { ident + inc < 2 ^ 32 }
    ensures { result ≡ ident_with inc ident }
{
    if tells_incarnation(ident) {
        ident + u32::from(inc)
    } else {
        ident
    }
}
