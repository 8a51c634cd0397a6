ghost use Rattle.std.specs.Prelude.{◌≡◌, ◌<◌};
ghost use Rattle.cany_replica.specs.declared.change.Change.TheVariants.{Remove, Swap};
ghost use Rattle.cany_replica.specs.Table as parts;
ghost use Rattle.cany_replica.specs.Table.{empty_table, is_byte, make_change, value_at, with_value};

use crate::change::Change;
use crate::reply::Reply;
use crate::value::Value;
use cany_base::Payload;
use std::marker::Model;

/// How many keys there can be.
pub(crate) const KEYS: usize = 256;

/// A table from keys of one byte to values of at most six. A node keeps one, and changes it by the
/// messages that it delivers by TOTCAN, in their order.
#[derive(Drop)]
pub struct Table {
    values: [Option<Value>; KEYS],
}

impl Model for Table {
    ghost use Rattle.std.specs.Prelude.{◌≡◌, length};
    ghost use Rattle.cany_replica.specs.Table.{TableParts};

    ghost Value = { TableParts };

    ghost view = { λ t. t.values };

    ghost invariant = { λ t. length t.values ≡ 256 };
}

impl Table {
    /// The table in which no key has a value.
    ///
    /// Promise: no key has a value.
    ///
    /// Shown by: `table_order_decides`, `commands_give_their_answers`.
    pub fn empty() -> Table
        ensures { result ≡ empty_table }
    {
        Table {
            values: [None; KEYS],
        }
    }

    /// The value of a key, if it has one.
    ///
    /// Promise: the value is the one that stands at the key.
    ///
    /// Answers: `None` exactly where the key has no value.
    ///
    /// Shown by: `table_order_decides`, `commands_give_their_answers`.
    pub fn get(&self, key: u8) -> Option<Value>
        ensures { result ≡ value_at self.now key }
    {
        self.values[usize::from(key)]
    }

    /// Does what the payload of a message asks for.
    ///
    /// Promise: the table and the reply are exactly those of the definition.
    ///
    /// Answers: `Ignored` exactly where the payload asks for nothing. Else `Stored` for a value
    /// that is stored. `Removed` where the key to remove had a value, else `Absent`. `Swapped`
    /// where the key had exactly the first byte, else `Kept`.
    ///
    /// Shown by: `table_order_decides`, `no_value_counts_as_zero`, `a_removal_may_have_more_bytes`.
    pub fn apply(&mut self, payload: &Payload) -> Reply
        ensures { (self.new, result) ≡ parts.apply self.old payload.now }
    {
        self.make_change(&Change::of(payload))
    }

    fn set(&mut self, key: u8, value: Option<Value>)
        ensures { self.new ≡ with_value self.old key value }
    {
        self.values[usize::from(key)] = value;
    }

    #[tactic(auto, unfolding(crate::specs::Table::make_change))]
    fn make_change(&mut self, change: &Change) -> Reply
        ensures { (self.new, result) ≡ make_change self.old change.now }
    {
        match *change {
            Change::Store { key, value } => {
                self.set(key, Some(value));
                Reply::Stored
            }
            Change::Remove { key } => self.remove(key),
            Change::Swap { key, from, to } => self.swap(key, from, to),
            Change::Nothing => Reply::Ignored,
        }
    }

    #[tactic(auto, unfolding(crate::specs::Table::make_change))]
    fn remove(&mut self, key: u8) -> Reply
        ensures { (self.new, result) ≡ make_change self.old (Remove key) }
    {
        let had = self.get(key).is_some();
        self.set(key, None);
        if had { Reply::Removed } else { Reply::Absent }
    }

    /// Whether the key has exactly this byte.
    fn has_byte(&self, key: u8, byte: u8) -> bool
        ensures { result ≡ is_byte byte (value_at self.now key) }
    {
        match self.get(key) {
            Some(value) => value.as_slice() == [byte].as_slice(),
            None => false,
        }
    }

    #[tactic(auto, unfolding(crate::specs::Table::make_change))]
    fn swap(&mut self, key: u8, from: u8, to: u8) -> Reply
        ensures { (self.new, result) ≡ make_change self.old (Swap key from to) }
    {
        if self.has_byte(key, from) {
            self.set(key, Some(Value::of_byte(to)));
            Reply::Swapped
        } else {
            Reply::Kept
        }
    }
}
