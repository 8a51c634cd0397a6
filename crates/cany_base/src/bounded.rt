ghost use Rattle.std.specs.Prelude.{◌≡◌, ◌+◌, ◌<◌, ◌≤◌, [], ◌∷◌, ◌++◌, length, slice_get, slice_set, Some, IfOk};
ghost use Rattle.cany_base.specs.Bounded.{Bounded};

use crate::memory::Memory;
use std::alloc::Global;
use std::marker::Model;

/// A list whose memory is all taken when it is built: it holds at most `room` items, and no call
/// after `build` takes memory.
#[derive(Drop)]
pub struct BoundedVec<T> {
    items: Vec<T>,
    room: usize,
}

impl<T> Model for BoundedVec<T> {
    ghost use Rattle.std.specs.Prelude.{◌≤◌, length, vec_capacity};
    ghost use Rattle.cany_base.specs.Bounded.{Bounded, bounded_code};

    ghost Value = { Bounded T };

    ghost coded = { bounded_code T.code };

    ghost view = { λ b. record { items = b.items.items; room = b.room } };

    ghost invariant = { λ b. (length b.items.items ≤ b.room) × (b.room ≤ vec_capacity b.items) };
}

impl<T> BoundedVec<T> {
    /// An empty list with room for `room` items.
    ///
    /// Promise: the list is empty and has this room.
    ///
    /// Shown by: `memory_is_there`.
    ///
    /// # Errors
    ///
    /// `Memory`: out of memory.
    pub fn build(alloc: Global, room: usize) -> Result<BoundedVec<T>, Memory>
        ensures { IfOk result (λ list. list ≡ record { items = []; room = room }) }
    {
        let items = Vec::with_capacity(alloc, room)?;
        Ok(BoundedVec { items, room })
    }

    /// How many items there are.
    ///
    /// Promise: the length of the list, which is at most the room.
    pub fn len(&self) -> usize
        ensures len { result ≡ length self.now.items }
        ensures fits { result ≤ self.now.room }
    {
        self.items.len()
    }

    /// How many items there may be.
    ///
    /// Promise: the room that the list was built with.
    ///
    /// Shown by: `memory_is_there`.
    pub fn room(&self) -> usize
        ensures { result ≡ self.now.room }
    {
        self.room
    }

    /// How many items may still be pushed.
    ///
    /// Promise: the room less the length.
    pub fn spare(&self) -> usize
        ensures { result + length self.now.items ≡ self.now.room }
    {
        self.room - self.items.len()
    }

    /// The items, in the order in which they were appended.
    ///
    /// Promise: the items of the list, at most as many as there is room for.
    pub fn as_slice(&self) -> &[T]
        ensures items { result.now ≡ self.now.items }
        ensures fits { length result.now ≤ self.now.room }
    {
        self.items.as_slice()
    }

    /// Appends an item.
    ///
    /// Promise: the item stands behind those of before, and the room stays.
    pub fn push(&mut self, item: T)
        requires { length self.old.items < self.old.room }
        ensures { self.new ≡ record { items = self.old.items ++ item ∷ []; room = self.old.room } }
    {
        self.items.push_reserved(item);
    }
}

impl<T: Drop> BoundedVec<T> {
    /// Removes all items. The room stays.
    ///
    /// Promise: the list is empty, and the room stays.
    pub fn clear(&mut self)
        ensures { self.new ≡ record { items = []; room = self.old.room } }
    {
        self.items.clear();
    }

    /// Replaces the item at a place, counted from 0.
    ///
    /// Promise: the item stands at this place, and the others and the room stay.
    pub fn set(&mut self, i: usize, item: T)
        requires { i < length self.old.items }
        ensures { self.new ≡ record { items = slice_set self.old.items i item; room = self.old.room } }
    {
        self.items[i] = item;
    }
}

impl<T: Copy> BoundedVec<T> {
    /// Appends a copy of an item.
    ///
    /// Promise: an equal item stands behind those of before, and the room stays.
    ///
    /// Shown by: `memory_is_there`.
    pub fn push_copy(&mut self, item: &T)
        requires { length self.old.items < self.old.room }
        ensures { self.new ≡ record { items = self.old.items ++ item.now ∷ []; room = self.old.room } }
    {
        self.push(*item);
    }

    /// Appends copies of items.
    ///
    /// Promise: equal items stand behind those of before, in their order, and the room stays.
    pub fn extend(&mut self, items: &[T])
        requires { length self.old.items + length items.now ≤ self.old.room }
        ensures { self.new ≡ record self.old { items = self.old.items ++ items.now } }
    {
        // The room was made when the list was built, so this takes no memory.
        let _ = self.items.extend_from_slice(items);
    }

    /// The item at a place, counted from 0.
    ///
    /// Promise: the item at this place.
    ///
    /// Shown by: `memory_is_there`.
    pub fn get(&self, i: usize) -> T
        requires { i < length self.now.items }
        ensures { slice_get self.now.items i ≡ Some result }
    {
        self.items[i]
    }
}
