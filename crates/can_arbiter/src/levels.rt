ghost use Rattle.std.specs.Prelude.{◌≡◌};
ghost use Rattle.can_frame.specs.Identifier.{FitsFormat};
ghost use Rattle.can_arbiter.specs.Levels.{levels_of};

use can_frame::{Field, identifier, is_remote};
use cany_base::{Format, Frame};

const RECESSIVE: u32 = 1;

/// The levels that a frame sends in arbitration, bit 31 first: 11 base identifier bits, SRR, IDE,
/// 18 further identifier bits, RTR (CAN Specification 2.0 Part B, 3.2.1, arbitration field of the
/// extended format). A dominant level is 0.
pub(crate) fn levels(format: Format, frame: &Frame) -> u32
    requires { FitsFormat format frame.now }
    ensures { result ≡ levels_of format frame.now }
{
    let ident = identifier(format, frame);
    let base = Field::<21, 11>::put(0, Field::<18, 11>::take(ident));
    let srr = Field::<20, 1>::put(base, RECESSIVE);
    let ide = Field::<19, 1>::put(srr, RECESSIVE);
    let further = Field::<1, 18>::put(ide, Field::<0, 18>::take(ident));
    Field::<0, 1>::put(further, u32::from(is_remote(frame.class)))
}
