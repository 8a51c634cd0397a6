ghost use Rattle.std.specs.Prelude.{◌≡◌, ◌+◌, ◌≤◌, ◌||◌, nat_eq, nat_lt, true, [], length, IfOk};
ghost use Rattle.std.specs.List.{IsDistinct};
ghost use Rattle.std.specs.Map.{keys_of};
ghost use Rattle.cany_diffuse.specs.Counts.{noted_in, MayEnter, IsEntered, IsCleared};
ghost use Rattle.cany_diffuse.specs.Eager.{raised};

use crate::series::SeriesHasher;
use cany_base::Memory;
use indexmap::IndexMap;
use std::alloc::Global;
use std::hash::BuildHasherDefault;
use std::marker::Model;

/// What is noted of a key.
#[derive(Clone, Copy)]
pub(crate) struct Noted {
    /// The copies read since the key was last forgotten. The count stands still at the end of its
    /// type.
    pub(crate) copies: u32,
    /// The node's own transmission was read since then.
    pub(crate) owned: bool,
}

impl Noted {
    /// Nothing is noted of the key.
    const NOTHING: Noted = Noted {
        copies: 0,
        owned: false,
    };

    /// Whether anything is noted of the key.
    pub(crate) fn is_held(&self) -> bool
        ensures { result ≡ (nat_lt 0 self.now.copies || self.now.owned) }
    {
        self.copies > 0 || self.owned
    }
}

/// What is noted of keys, each key once.
///
/// A key is found by its hash, and the memory is all taken when the counts are built. A removal
/// might give no room back, so a key that came stays.
#[derive(Drop)]
pub(crate) struct Counts {
    entries: IndexMap<u64, Noted, BuildHasherDefault<SeriesHasher>>,
    room: usize,
}

impl Model for Counts {
    ghost use Rattle.std.specs.Prelude.{ℕ};
    ghost use Rattle.cany_base.specs.Bounded.{Bounded};
    ghost use Rattle.cany_diffuse.specs.declared.counts.Noted.{Noted};
    ghost use Rattle.cany_diffuse.specs.Counts.{HasRoomMade};

    ghost Value = { Bounded (ℕ × Noted) };

    ghost view = { λ c. record { items = c.entries.entries; room = c.room } };

    ghost invariant = { λ c. HasRoomMade c.room c.entries };
}

impl Counts {
    /// Nothing, with room for `room` keys.
    pub(crate) fn build(alloc: Global, room: usize) -> Result<Counts, Memory>
        ensures { IfOk result (λ counts. counts ≡ record { items = []; room = room }) }
    {
        let entries = IndexMap::with_capacity_and_hasher(alloc, room, BuildHasherDefault::new())?;
        Ok(Counts { entries, room })
    }

    /// What is noted of a key.
    pub(crate) fn noted(&self, key: u64) -> Noted
        ensures noted { result ≡ noted_in self.now.items key }
        ensures once { IsDistinct nat_eq (keys_of self.now.items) }
        ensures fits { length self.now.items ≤ self.now.room }
    {
        self.entries.get(&key).copied().unwrap_or(Noted::NOTHING)
    }

    /// Counts one copy more of a key, and gives what is noted of it then.
    pub(crate) fn count(&mut self, key: u64) -> Noted
        requires { MayEnter key self.old }
        ensures copies { result.copies ≡ raised (noted_in self.old.items key).copies }
        ensures owned { result.owned ≡ (noted_in self.old.items key).owned }
        ensures entered { IsEntered key result self.old self.new }
    {
        let noted = self.entries.entry(key).unwrap().or_insert(Noted::NOTHING);
        noted.copies = noted.copies.saturating_add(1);
        *noted
    }

    /// Notes the node's own transmission of a key.
    pub(crate) fn own(&mut self, key: u64)
        requires { MayEnter key self.old }
        ensures { IsEntered key (record (noted_in self.old.items key) { owned = true }) self.old self.new }
    {
        let entry = self.entries.entry(key).unwrap();
        entry.or_insert(Noted::NOTHING).owned = true;
    }

    /// Forgets what is noted of a key, if it is there.
    pub(crate) fn forget(&mut self, key: u64)
        ensures { IsCleared key self.old self.new }
    {
        if let Some(noted) = self.entries.get_mut(&key) {
            *noted = Noted::NOTHING;
        }
    }

    /// How many keys more there may be.
    pub(crate) fn spare(&self) -> usize
        ensures spare { result + length self.now.items ≡ self.now.room }
        ensures once { IsDistinct nat_eq (keys_of self.now.items) }
        ensures fits { length self.now.items ≤ self.now.room }
    {
        self.room - self.entries.len()
    }
}
