//! How the keys are hashed, which come in series.
ghost use Rattle.std.specs.Prelude.{◌≡◌};

use std::hash::Hasher;

/// The multiplier that spreads a key over the bits of its tag: 2^64 over the golden ratio.
const SPREAD: u64 = 0x9e37_79b9_7f4a_7c15;

/// Keeps keys that follow one another close together: eight of them share a group of the table,
/// which has room for twelve.
///
/// The keys of a run follow one another, and each node has a table of its own. A hash that spreads
/// the keys over the whole table would miss the processor's cache at nearly every first copy.
#[derive(Clone, Copy, Default)]
pub(crate) struct SeriesHasher {
    /// The key that was written.
    key: u64,
}

impl Hasher for SeriesHasher {
    ghost use Rattle.cany_diffuse.specs.Series.{hash_of, key_after};

    ghost write = { λ hasher bytes. record { key = key_after hasher.key bytes } };

    ghost finish = { λ hasher. hash_of hasher.key };

    /// The table takes the group from the lowest bits and the tag from bits 24 to 31.
    #[inline(always)]
    fn finish(&self) -> u64 {
        let group = (self.key >> 3) % (1 << 24);
        let tag = self.key.wrapping_mul(SPREAD) >> 56;
        group + (tag << 24)
    }

    /// A key is written as its eight bytes. Nothing else is hashed here.
    #[inline(always)]
    fn write(&mut self, bytes: &[u8]) {
        if bytes.len() == 8 {
            self.key = u64::from_le_bytes([
                bytes[0], bytes[1], bytes[2], bytes[3], bytes[4], bytes[5], bytes[6], bytes[7],
            ]);
        }
    }
}
