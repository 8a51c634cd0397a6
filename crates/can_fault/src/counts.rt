ghost use Rattle.std.specs.Prelude.{◌≡◌, ◌+◌, ◌<◌, ◌≤◌, [], nat_lt, length, IfOk, IsTrue, if◌then◌else◌};
ghost use Rattle.cany_model.specs.Bus.Frames.{identity_of};

use crate::identity::FrameIdentity;
use cany_base::{Class, Frame, Memory};
use indexmap::IndexMap;
use std::alloc::Global;
use std::marker::Model;

/// What Partial slots count for.
#[derive(Clone, Copy, PartialEq, Eq, Hash)]
pub(crate) enum Counted {
    /// The vectors of a membership cycle together.
    Vectors { cycle: u16 },
    /// The frames of any other identity.
    Frame(FrameIdentity),
}

impl Counted {
    ghost use Rattle.can_fault.specs.Counted.{counted_of};

    pub(crate) fn of(frame: &Frame) -> Counted
        ensures { result ≡ counted_of (identity_of frame.now) }
    {
        match frame.class {
            Class::Rha => Counted::Vectors {
                cycle: frame.number,
            },
            _ => Counted::Frame(FrameIdentity::of(frame)),
        }
    }
}

/// How many Partial slots there were, by what they count for.
///
/// A count is found by the hash of its key, and all memory is taken when the counts are built.
#[derive(Drop)]
pub(crate) struct PartialCounts {
    counts: IndexMap<Counted, u32>,
    room: usize,
}

impl Model for PartialCounts {
    ghost use Rattle.std.specs.Prelude.{ℕ, ◌+◌, ◌≤◌};
    ghost use Rattle.cany_base.specs.Bounded.{Bounded};
    ghost use Rattle.indexmap.specs.IndexMap.{index_map_len, spare};
    ghost use Rattle.can_fault.specs.declared.counts.Counted.{Counted};

    ghost Value = { Bounded (Counted × ℕ) };

    ghost view = { λ c. record { items = c.counts.entries; room = c.room } };

    ghost invariant = { λ c. c.room ≤ index_map_len c.counts + spare c.counts };
}

impl PartialCounts {
    ghost use Rattle.std.specs.Prelude.{ℕ};
    ghost use Rattle.can_fault.specs.declared.counts.Counted.{Counted};
    ghost use Rattle.can_fault.specs.Counted.{same_counted};
    ghost use Rattle.can_fault.specs.Counts.{partials_of};

    /// No counts, with room for `room` of them.
    pub(crate) fn build(alloc: Global, room: usize) -> Result<PartialCounts, Memory>
        ensures { IfOk result (λ c. c ≡ record { items = []; room = room }) }
    {
        let counts = IndexMap::with_capacity(alloc, room)?;
        Ok(PartialCounts { counts, room })
    }

    /// Counts one more where the count is below the limit, and says whether it was.
    pub(crate) fn count(&mut self, counted: &Counted, limit: u32) -> bool
        requires { length self.old.items < self.old.room }
        ensures below { result ≡ nat_lt (partials_of self.old.items counted.now) limit }
        ensures counted { IsTrue result → (other : Counted) → partials_of self.new.items other
            ≡ partials_of self.old.items other + (if same_counted other counted.now then 1 else 0) }
        ensures growth { length self.new.items ≤ length self.old.items + 1 }
        ensures room { self.new.room ≡ self.old.room }
    {
        match self.counts.get_mut(counted) {
            Some(count) => {
                if *count >= limit {
                    return false;
                }
                *count += 1;
            }
            None => {
                if limit == 0 {
                    return false;
                }
                self.counts.insert(*counted, 1).unwrap();
            }
        }
        true
    }
}
