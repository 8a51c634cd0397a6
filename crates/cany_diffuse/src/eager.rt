ghost use Rattle.std.specs.Prelude.{◌≡◌, IfOk};
ghost use Rattle.cany_diffuse.specs.Eager.{copies_of, is_owned, is_held, spare_of, learnt_of, HasRoomFor, IsCounted, IsFresh, IsLearnt, IsOwned, IsForgotten};

use crate::counts::Counts;
use crate::diffused::Diffused;
use crate::learnt::Learnt;
use cany_base::Memory;
use std::alloc::Global;
use std::marker::{Model, PhantomData};

/// The copies of values that a node read, and which of the values it sent itself: the rule of eager
/// diffusion.
///
/// This project's own rule. At the first copy a node asks for the frame too, unless it has sent it
/// itself; with more than `omit` copies it withdraws the frame.
#[derive(Drop)]
pub struct Eager<K: Diffused> {
    omit: u32,
    counts: Counts,
    of: PhantomData<K>,
}

impl<K: Diffused> Model for Eager<K> {
    ghost use Rattle.cany_diffuse.specs.Eager.{EagerParts};

    ghost Value = { EagerParts };

    ghost view = { λ e. record { omit = e.omit; room = e.counts.room; entries = e.counts.items } };
}

impl<K: Diffused> Eager<K> {
    /// No copies, for frames that may meet `omit` omissions, with room for `room` values. No later
    /// call takes memory.
    ///
    /// Promise: nothing is noted of any value, none is there, and this many may be entered.
    ///
    /// Shown by: `one_copy_is_enough_without_omissions`.
    ///
    /// # Errors
    ///
    /// `Memory`: out of memory.
    pub fn build(alloc: Global, omit: u32, room: usize) -> Result<Eager<K>, Memory>
        ensures { IfOk result (IsFresh omit room) }
    {
        let counts = Counts::build(alloc, room)?;
        Ok(Eager {
            omit,
            counts,
            of: PhantomData,
        })
    }

    /// Counts a copy that was read, and says what it calls for. The value is there from then on.
    ///
    /// Promise: one copy more of the value is counted, up to the last number of 32 bits, and
    /// nothing else changes but that the value is there. The answer is that of the definition for
    /// the new count (`learnt_of`).
    ///
    /// Answers: `Enough` exactly with more than `omit` copies. Else `First` exactly at one copy of
    /// a value of which no own transmission was noted. Else `Again`.
    ///
    /// Shown by: `one_copy_is_enough_without_omissions`, `learn_counts_twice`.
    pub fn learn(&mut self, k: K) -> Learnt
        requires value { K.is_value k }
        requires room { HasRoomFor (K.key k) self.old }
        ensures answer { result ≡ learnt_of self.old.omit (copies_of self.new (K.key k)) (is_owned self.old (K.key k)) }
        ensures learnt { IsLearnt (K.key k) self.old self.new }
    {
        let noted = self.counts.count(k.key());
        Learnt::of(self.omit, noted.copies, noted.owned)
    }

    /// Notes that the node's own transmission was read, which is no copy. The value is there from
    /// then on.
    ///
    /// Promise: the own transmission of the value is noted, and nothing else changes but that the
    /// value is there.
    ///
    /// Shown by: `one_copy_is_enough_without_omissions`, `own_counts_a_copy`.
    pub fn own(&mut self, k: K)
        requires value { K.is_value k }
        requires room { HasRoomFor (K.key k) self.old }
        ensures { IsOwned (K.key k) self.old self.new }
    {
        self.counts.own(k.key());
    }

    /// How many copies were read since the value was last forgotten.
    ///
    /// Promise: the number of copies learnt since the value was last forgotten.
    ///
    /// Shown by: `relcan_falls_back`.
    pub fn copies(&self, k: &K) -> u32
        requires value { K.is_value k.now }
        ensures copies { result ≡ copies_of self.now (K.key k.now) }
        ensures counted { IsCounted self.now }
    {
        self.counts.noted(k.key()).copies
    }

    /// Whether the value was learnt or owned since it was last forgotten.
    ///
    /// Promise: whether a copy or an own transmission of the value is noted.
    ///
    /// Answers: `true` exactly where that is so.
    ///
    /// Shown by: `one_copy_is_enough_without_omissions`, `holds_looks_at_copies_alone`.
    pub fn holds(&self, k: &K) -> bool
        requires value { K.is_value k.now }
        ensures held { result ≡ is_held self.now (K.key k.now) }
        ensures counted { IsCounted self.now }
    {
        self.counts.noted(k.key()).is_held()
    }

    /// Forgets what was noted of the value. It stays there: no room is given back.
    ///
    /// Promise: no copy and no own transmission of the value is noted, and nothing else changes.
    /// The value keeps its place.
    ///
    /// Shown by: nothing runs it; its edits show its clauses: `forget_clears_all`,
    /// `forget_keeps_the_copies`.
    pub fn forget(&mut self, k: &K)
        requires value { K.is_value k.now }
        ensures { IsForgotten (K.key k.now) self.old self.new }
    {
        self.counts.forget(k.key());
    }

    /// How many omissions of a frame there may be.
    ///
    /// Promise: the number that it was built with.
    ///
    /// Shown by: `relcan_falls_back`.
    pub fn omit(&self) -> u32
        ensures omit { result ≡ self.now.omit }
    {
        self.omit
    }

    /// How many values more there may be.
    ///
    /// Promise: the room less the number of values that are there.
    pub fn spare(&self) -> usize
        ensures spare { result ≡ spare_of self.now }
        ensures counted { IsCounted self.now }
    {
        self.counts.spare()
    }
}
