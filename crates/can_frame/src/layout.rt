ghost use Rattle.std.specs.Prelude.{◌≡◌, ◌+◌, ◌*◌, ◌^◌, ◌<◌, ◌↔◌, true};
ghost use Rattle.cany_base.specs.Layout.{layout};
ghost use Rattle.can_frame.specs.Field.{field_of};

use crate::field::Field;
use cany_base::{Format, NodeId};

/// Makes a body from the table of the formats. A row is a format, and the shift and the width of
/// its fields: the number (a sequence number, a cycle or a count, by class), and the node that the
/// frame names.
macro_rules! by_format {
    (word of $number:expr, $node:expr, in $format:expr) => { by_format!(rows $format, put ($number, $node)) };
    (fields of $ident:expr, in $format:expr) => { by_format!(rows $format, take ($ident)) };
    (fit of $number:expr, in $format:expr) => { by_format!(rows $format, fits ($number)) };
    (rows $format:expr, $body:ident $values:tt) => {
        match $format {
            Format::One => by_format!($body $values number 9 16, node 4 5),
            Format::Two => by_format!($body $values number 10 15, node 4 6),
        }
    };
    (put ($number:expr, $node:expr) number $number_shift:literal $number_width:literal, node $node_shift:literal $node_width:literal) => {{
        let word = Field::<$node_shift, $node_width>::put(0, u32::from($node.get()));
        Field::<$number_shift, $number_width>::put(word, u32::from($number))
    }};
    (take ($ident:expr) number $number_shift:literal $number_width:literal, node $node_shift:literal $node_width:literal) => {{
        let number = Field::<$number_shift, $number_width>::take($ident) as u16;
        let node = NodeId::new(Field::<$node_shift, $node_width>::take($ident) as u8).unwrap();
        (number, node)
    }};
    (fits ($number:expr) number $number_shift:literal $number_width:literal, node $node_shift:literal $node_width:literal) => {
        u32::from($number) < 1 << $number_width
    };
}

/// The part of an identifier below its class: the number and the node, each in its field.
pub(crate) fn put_fields(format: Format, number: u16, node: NodeId) -> u32
    requires number { number < 2 ^ (layout format).number_width }
    requires node { node < 2 ^ (layout format).node_width }
    ensures word { result ≡ number * 2 ^ (layout format).number_shift + node * 2 ^ (layout format).node_shift }
    ensures below_class { result < 2 ^ 25 }
{
    by_format!(word of number, node, in format)
}

/// Whether a number fits its field in an identifier.
///
/// Promise: whether the number fits its field in an identifier of the format.
///
/// Answers: `true` exactly for numbers below 65,536 in the first format, so for each, and below
/// 32,768 in the second.
///
/// Shown by: `numbers_fit_their_field`.
pub fn number_fits(format: Format, number: u16) -> bool
    ensures { (result ≡ true) ↔ (number < 2 ^ (layout format).number_width) }
{
    by_format!(fit of number, in format)
}

/// The number and the node that stand in an identifier.
pub(crate) fn take_fields(format: Format, ident: u32) -> (u16, NodeId)
    ensures number { result.0 ≡ field_of (layout format).number_shift (layout format).number_width ident }
    ensures node { result.1 ≡ field_of (layout format).node_shift (layout format).node_width ident }
{
    by_format!(fields of ident, in format)
}
