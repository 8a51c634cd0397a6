ghost use Rattle.std.specs.Prelude.{◌≡◌, ◌<◌, ◌≤◌, [], ◌∷◌, ◌++◌, length, slice_get, Some, IfOk};

use crate::bounded::BoundedVec;
use crate::frame::Frame;
use crate::log_entry::LogEntry;
use crate::memory::Memory;
use std::alloc::Global;
use std::marker::Model;

/// One thing that a protocol rule does in a turn.
#[derive(Clone, Copy)]
pub enum Action {
    /// Put the frame among the node's waiting frames, in place of one of the same identity.
    Ask(Frame),
    /// Remove the waiting frame of this identifier, if there is one.
    Withdraw { ident: u32 },
    /// Append the entry to the node's log.
    Enter(LogEntry),
}

/// The actions of a turn, in the order in which they are done. Their memory is all taken when the
/// list is built.
#[derive(Drop)]
pub struct Actions {
    list: BoundedVec<Action>,
}

impl Model for Actions {
    ghost use Rattle.cany_base.specs.Bounded.{Bounded};
    ghost use Rattle.cany_base.specs.declared.actions.Action.{Action};

    ghost Value = { Bounded Action };

    ghost view = { λ actions. actions.list };
}

impl Actions {
    /// An empty list of actions, with room for `room` of them.
    ///
    /// Promise: the list is empty and has this room.
    ///
    /// Shown by: `memory_is_there`.
    ///
    /// # Errors
    ///
    /// `Memory`: out of memory.
    pub fn build(alloc: Global, room: usize) -> Result<Actions, Memory>
        ensures { IfOk result (λ actions. actions ≡ record { items = []; room = room }) }
    {
        let list = BoundedVec::build(alloc, room)?;
        Ok(Actions { list })
    }

    /// How many actions there are.
    ///
    /// Promise: the length of the list, which is at most the room.
    pub fn len(&self) -> usize
        ensures len { result ≡ length self.now.items }
        ensures fits { result ≤ self.now.room }
    {
        self.list.len()
    }

    /// How many actions there may be.
    ///
    /// Promise: the room that the list was built with.
    ///
    /// Shown by: `memory_is_there`.
    pub fn room(&self) -> usize
        ensures { result ≡ self.now.room }
    {
        self.list.room()
    }

    /// The actions, in the order in which they were appended.
    ///
    /// Promise: the items of the list, at most as many as there is room for.
    pub fn as_slice(&self) -> &[Action]
        ensures items { result.now ≡ self.now.items }
        ensures fits { length result.now ≤ self.now.room }
    {
        self.list.as_slice()
    }

    /// The action at a place, counted from 0.
    ///
    /// Promise: the item at this place.
    ///
    /// Shown by: `memory_is_there`.
    pub fn get(&self, i: usize) -> Action
        requires { i < length self.now.items }
        ensures { slice_get self.now.items i ≡ Some result }
    {
        self.list.get(i)
    }

    /// Appends an action.
    ///
    /// Promise: the action stands behind those of before, and the room stays.
    ///
    /// Shown by: `memory_is_there`, `push_drops_the_action`.
    pub fn push(&mut self, action: Action)
        requires { length self.old.items < self.old.room }
        ensures { self.new ≡ record { items = self.old.items ++ action ∷ []; room = self.old.room } }
    {
        self.list.push_copy(&action);
    }

    /// Removes all actions. The room stays.
    ///
    /// Promise: the list is empty, and the room stays.
    pub fn clear(&mut self)
        ensures { self.new ≡ record { items = []; room = self.old.room } }
    {
        self.list.clear();
    }
}
