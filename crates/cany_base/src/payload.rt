ghost use Rattle.std.specs.Prelude.{◌≡◌, ◌^◌, ◌<◌, ◌≤◌, ◌↔◌, ℕ, List, [], ◌∷◌, length, slice_get, slice_index, nat_eq, IsTrue, IsSome, IfSome, Some};
ghost use Rattle.std.specs.Cmp.{partial_equiv_from_equiv};
ghost use Rattle.std.specs.Cmp.Lexicographic.{pointwise, nat_list_eq_equiv};
ghost use Rattle.cany_base.specs.Layout.{layout};
ghost use Rattle.cany_base.specs.Nodes.{AllBelow};
ghost use Rattle.cany_base.specs.Payload.{vector_bytes, vector_of};

use crate::format::Format;
use crate::node_set::NodeSet;
use std::marker::Model;

/// The 0 to 8 bytes that a data frame carries. The bytes past its length are zero.
#[derive(Clone, Copy, Debug)]
pub struct Payload {
    pub len: u8,
    pub b0: u8,
    pub b1: u8,
    pub b2: u8,
    pub b3: u8,
    pub b4: u8,
    pub b5: u8,
    pub b6: u8,
    pub b7: u8,
}

impl Model for Payload {
    ghost use Rattle.std.specs.Prelude.{List, ℕ};

    ghost Value = { List ℕ };

    ghost use Rattle.cany_base.specs.PayloadBytes.{bytes_of, IsPadded, padded, padded-bytes_of};

    ghost view = { bytes_of };

    ghost invariant = { IsPadded };

    ghost inverse = { padded };

    ghost inverse_ok = { padded-bytes_of };
}

impl PartialEq for Payload {
    ghost eq = { pointwise nat_eq };

    ghost laws = { partial_equiv_from_equiv nat_list_eq_equiv };

    fn eq(&self, other: &Payload) -> bool {
        self.len == other.len && self.row() == other.row()
    }
}

impl Eq for Payload {
    ghost laws = { nat_list_eq_equiv };
}

impl Payload {
    ghost use Rattle.std.specs.Int.{to_be_bytes, from_be_bytes};
    ghost use Rattle.cany_base.specs.Payload.{vector_width};
    ghost use Rattle.cany_base.specs.PayloadBytes.{row_of};

    /// No bytes, as in a remote frame.
    ///
    /// Promise: the payload has no bytes.
    pub fn empty() -> Payload
        ensures { result ≡ [] }
    {
        Payload {
            len: 0,
            b0: 0,
            b1: 0,
            b2: 0,
            b3: 0,
            b4: 0,
            b5: 0,
            b6: 0,
            b7: 0,
        }
    }

    /// The payload of these bytes, at most eight of them.
    ///
    /// Promise: the payload has exactly these bytes.
    ///
    /// Answers: `None` exactly for more than 8 bytes.
    ///
    /// Shown by: `a_vector_has_its_lowest_nodes_last`, `a_payload_of_nine_bytes`.
    pub fn of(bytes: &[u8]) -> Option<Payload>
        ensures found { IsSome result ↔ (length bytes.now ≤ 8) }
        ensures value { IfSome result (λ payload. payload ≡ bytes.now) }
    {
        if bytes.len() > 8 {
            return None;
        }
        Some(Payload {
            len: bytes.len() as u8,
            b0: byte_or_zero(bytes, 0),
            b1: byte_or_zero(bytes, 1),
            b2: byte_or_zero(bytes, 2),
            b3: byte_or_zero(bytes, 3),
            b4: byte_or_zero(bytes, 4),
            b5: byte_or_zero(bytes, 5),
            b6: byte_or_zero(bytes, 6),
            b7: byte_or_zero(bytes, 7),
        })
    }

    /// How many bytes there are.
    ///
    /// Promise: the number of bytes, which is at most 8.
    pub fn len(&self) -> u8
        ensures len { result ≡ length self.now }
        ensures short { result ≤ 8 }
    {
        self.len
    }

    /// The byte at a place, counted from 0.
    ///
    /// Promise: the byte at this place.
    pub fn byte(&self, i: u8) -> u8
        requires { i < length self.now }
        ensures { slice_get self.now i ≡ Some result }
    {
        self.row()[i as usize]
    }

    /// The set as the bytes of the format, most significant first, where bit i stands for node i.
    ///
    /// Promise: the bytes are those of the set in the format (`vector_bytes`). Read as a vector
    /// they give the set back.
    ///
    /// Shown by: `a_vector_has_its_lowest_nodes_last`, `vector_least_byte_first`,
    /// `vector_of_the_second_format_has_four_bytes`.
    pub fn vector(set: NodeSet, format: Format) -> Payload
        requires { AllBelow (layout format).nodes set }
        ensures bytes { result ≡ vector_bytes format set }
        ensures back { vector_of format result ≡ Some set }
    {
        match format {
            Format::One => Payload::of(&(set.bits() as u32).to_be_bytes()).unwrap(),
            Format::Two => Payload::of(&set.bits().to_be_bytes()).unwrap(),
        }
    }

    /// The set that the bytes of a vector of the format stand for.
    ///
    /// Promise: the set that these bytes are a vector of, whose nodes there can be in the format.
    /// Its vector is these bytes again.
    ///
    /// Answers: `None` exactly where the number of bytes is not that of the format.
    ///
    /// Shown by: `a_vector_has_its_lowest_nodes_last`.
    pub fn as_vector(&self, format: Format) -> Option<NodeSet>
        ensures value { result ≡ vector_of format self.now }
        ensures found { IsSome result ↔ (length self.now ≡ (layout format).vector) }
        ensures below { IfSome result (AllBelow (layout format).nodes) }
        ensures back { IfSome result (λ set. vector_bytes format set ≡ self.now) }
    {
        if self.len != format.vector_len() {
            return None;
        }
        Some(NodeSet::of_bits(self.vector_bits(format)))
    }

    /// The number that the bytes of a vector of the format make.
    fn vector_bits(&self, format: Format) -> u64
        requires { length self.now ≡ (layout format).vector }
        ensures value { result ≡ from_be_bytes (vector_width format) self.now }
        ensures back { to_be_bytes (vector_width format) result ≡ self.now }
        ensures small { result < 2 ^ (layout format).nodes }
    {
        match format {
            Format::One => u64::from(u32::from_be_bytes([self.b0, self.b1, self.b2, self.b3])),
            Format::Two => u64::from_be_bytes(self.row()),
        }
    }

    /// The bytes, and zeros up to eight.
    fn row(&self) -> [u8; 8]
        ensures row { result ≡ row_of self.now }
        ensures short { length self.now ≤ 8 }
    {
        [
            self.b0, self.b1, self.b2, self.b3, self.b4, self.b5, self.b6, self.b7,
        ]
    }
}

fn byte_or_zero(bytes: &[u8], i: usize) -> u8
    ensures { result ≡ slice_index bytes.now i }
{
    bytes.get(i).copied().unwrap_or(0)
}
