ghost use Rattle.std.specs.Prelude.{◌≡◌, ◌-◌, ◌%◌, ◌<◌, ◌^◌};
ghost use Rattle.cany_base.specs.Frame.{identifier_of, key_of};
ghost use Rattle.can_frame.specs.Identifier.{FitsFormat};

use crate::class::{is_remote, number_of_class};
use crate::field::Field;
use crate::layout::put_fields;
use cany_base::{Format, Frame};

/// The class, in the four most significant of the 29 bits.
pub(crate) type ClassField = Field<25, 4>;

/// The sender's incarnation, in the bits below the node. They are 0 in a frame whose class tells
/// none.
pub(crate) type IncarnationField = Field<0, 4>;

/// The 29-bit identifier of a frame.
///
/// Promise: the identifier is that of the table of the format (`identifier_of`), and is below 2^29.
///
/// Shown by: `frames_of_every_class`, `identifier_forgets_the_incarnation`,
/// `node_field_of_the_second_format_one_bit_short`.
pub fn identifier(format: Format, frame: &Frame) -> u32
    requires { FitsFormat format frame.now }
    ensures value { result ≡ identifier_of format frame.now }
    ensures in_range { result < 2 ^ 29 }
{
    let fields = put_fields(format, frame.number, frame.node);
    let word = ClassField::put(fields, number_of_class(frame.class));
    IncarnationField::put(word, u32::from(frame.inc))
}

/// The identifier in which no incarnation is named.
///
/// Promise: the identifier less its lowest four bits.
#[inline(always)]
pub fn without_incarnation(ident: u32) -> u32
    ensures { result ≡ ident - ident % 2 ^ 4 }
{
    ident - IncarnationField::take(ident)
}

/// The number by which frames arbitrate: the frame of the smaller key wins.
///
/// Promise: twice the identifier, and one more for a remote frame (`key_of`).
///
/// Shown by: `frames_of_every_class`, `key_forgets_the_kind`.
pub fn key(format: Format, frame: &Frame) -> u64
    requires { FitsFormat format frame.now }
    ensures { result ≡ key_of format frame.now }
{
    2 * u64::from(identifier(format, frame)) + u64::from(is_remote(frame.class))
}
