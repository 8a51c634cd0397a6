//! Where the message of a key stands among the messages of an account.
ghost use Rattle.std.specs.Prelude.{◌≡◌, ◌==◌, ◌<◌, ◌++◌, ℕ, [], ◌∷◌, if◌then◌else◌, map, replicate, length, slice_index_or, IfOk, IfSome, OnOk};
ghost use Rattle.cany_base.specs.Limits.{most_nodes};
ghost use Rattle.cany_check.specs.Accounts.Places.{AreNumbered, lists_of, place_of};

use crate::account::record::MessageRecord;
use cany_base::{Memory, MsgKey, NodeId};
use std::alloc::Global;
use std::marker::Model;

/// A table of the places of some messages, which are found by their keys.
#[derive(Drop)]
pub(crate) struct Places<'a> {
    messages: &'a [MessageRecord],
    /// Of each origin the places of its messages, ascending.
    of_origin: Vec<Vec<usize>>,
}

impl<'a> Model for Places<'a> {
    ghost use Rattle.std.specs.Prelude.{List};
    ghost use Rattle.cany_check.specs.declared.account.record.MessageRecord.{MessageRecord};
    ghost use Rattle.cany_check.specs.Accounts.PlacesInside.{messages_of, AreKept};

    ghost Value = { List MessageRecord };

    ghost view = { messages_of };

    ghost invariant = { AreKept };
}

/// No place, of each origin.
fn no_places(alloc: Global) -> Result<Vec<Vec<usize>>, Memory>
    ensures { IfOk result (λ rows. lists_of rows.items ≡ replicate most_nodes []) }
{
    let mut rows = Vec::new(alloc);
    for _ in 0..NodeId::COUNT {
        rows.push(Vec::new(alloc))?;
    }
    Ok(rows)
}

/// One place more in the row of an origin.
fn add(rows: &mut Vec<Vec<usize>>, origin: usize, place: usize) -> Result<(), Memory>
    requires { origin < length rows.old.items }
    ensures length { OnOk result (length rows.new.items ≡ length rows.old.items) }
    ensures rows { OnOk result ((o : ℕ) → slice_index_or (lists_of rows.new.items) o [] ≡ (if o == origin
        then slice_index_or (lists_of rows.old.items) o [] ++ place ∷ [] else slice_index_or (lists_of rows.old.items) o [])) }
{
    rows[origin].push(place)?;
    Ok(())
}

/// The places of these messages, of which those of an origin have the sequence numbers 0, 1, 2 and
/// so on.
pub(crate) fn places_of<'a>(
    alloc: Global,
    messages: &'a [MessageRecord],
) -> Result<Places<'a>, Memory>
    requires { AreNumbered messages.now }
    ensures { IfOk result (λ places. places ≡ messages.now) }
{
    let mut of_origin = no_places(alloc)?;
    for i in 0..messages.len() {
        add(&mut of_origin, usize::from(messages[i].key.origin.get()), i)?;
    }
    Ok(Places {
        messages,
        of_origin,
    })
}

impl<'a> Places<'a> {
    pub(crate) fn messages(&self) -> &[MessageRecord]
        ensures messages { result.now ≡ self.now }
        ensures numbered { AreNumbered self.now }
    {
        self.messages
    }

    /// The place of the first message that has the key.
    pub(crate) fn find(&self, key: MsgKey) -> Option<usize>
        ensures place { result ≡ place_of key self.now }
        ensures within { IfSome result (λ place. place < length self.now) }
    {
        let row = &self.of_origin[usize::from(key.origin.get())];
        row.get(usize::from(key.seq)).copied()
    }
}
