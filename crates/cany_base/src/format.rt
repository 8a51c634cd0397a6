ghost use Rattle.std.specs.Prelude.{◌≡◌};
ghost use Rattle.cany_base.specs.Layout.{format_number, layout};

use crate::limits::MOST_NODES;

/// The format of a scenario, which fixes how many nodes there can be and how wide the fields of an
/// identifier are.
#[derive(Clone, Copy, Debug, PartialEq, Eq)]
pub enum Format {
    One,
    Two,
}

impl Format {
    /// The most nodes of a bus.
    ///
    /// Promise: 32 in the first format, 64 in the second.
    pub fn nodes(self) -> u8
        ensures { result ≡ (layout self).nodes }
    {
        match self {
            Format::One => 32,
            Format::Two => MOST_NODES,
        }
    }

    /// The number by which texts name the format.
    ///
    /// Promise: 1 for the first format, 2 for the second.
    pub fn number(self) -> u8
        ensures { result ≡ format_number self }
    {
        match self {
            Format::One => 1,
            Format::Two => 2,
        }
    }

    /// How many bytes a reception history vector has.
    ///
    /// Promise: 4 bytes in the first format, 8 in the second.
    pub fn vector_len(self) -> u8
        ensures { result ≡ (layout self).vector }
    {
        match self {
            Format::One => 4,
            Format::Two => 8,
        }
    }
}
