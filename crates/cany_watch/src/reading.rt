ghost use Rattle.std.specs.Prelude.{◌≡◌, ◌⊎◌, ◌+◌, ◌-◌, ◌≤◌, ◌++◌, length, map, take, drop, nat_le, true, false, IfSome, IfNone};
ghost use Rattle.cany_base.specs.declared.actions.Action.TheVariants.{Enter};
ghost use Rattle.left_right.specs.Sides.{view as view_of};
ghost use Rattle.cany_watch.specs.Notes.{Follows};
ghost use Rattle.cany_watch.specs.Readers.{IsOfNode};
ghost use Rattle.cany_watch.specs.Shown.{IsShown};

use crate::note::Note;
use crate::published::Published;
use crate::rule::{LineReader, Show};
use cany_base::{Action, Actions, LogEntry};
use std::marker::Model;
use std::sync::Wait;
use std::thread;

/// What a thread reads the line of a node with. Contracts see what it knows of the line: the
/// longest list that it entered or learnt of.
#[derive(Drop)]
pub struct Reading {
    reader: Option<LineReader>,
    known: Note,
}

impl Model for Reading {
    ghost use Rattle.cany_watch.specs.Notes.{NoteParts};

    ghost Value = { NoteParts };

    ghost use Rattle.std.specs.Prelude.{IsSomeAnd};
    ghost use Rattle.left_right.specs.Sides.{view as view_of};
    ghost use Rattle.cany_watch.specs.Readers.{IsOfNode};

    ghost view = { λ r. r.known };

    ghost invariant = { λ r. IsSomeAnd r.reader (λ reader. IsOfNode r.known (view_of reader.place)) };
}

/// Appends the entries, as `Enter`.
fn append_all(entries: &[LogEntry], out: &mut Actions)
    requires { length out.old.items + length entries.now ≤ out.old.room }
    ensures { out.new ≡ record { items = out.old.items ++ map Enter entries.now; room = out.old.room } }
{
    for entry in entries {
        out.push(Action::Enter(*entry));
    }
}

/// Appends the entries from this place on, as `Enter`, while there is room.
fn append(entries: &[LogEntry], from: usize, out: &mut Actions)
    ensures { out.new ≡ record { items = out.old.items ++ take (out.old.room - length out.old.items) (map Enter (drop from entries.now)); room = out.old.room } }
{
    let rest = &entries[from.min(entries.len())..];
    let count = (out.room() - out.len()).min(rest.len());
    append_all(&rest[..count], out);
}

/// Takes in the list that was entered, unless it is shorter than what is known, and appends its
/// entries from this place on, as `Enter`, while there is room. Whether it did.
fn take_in(known: &mut Note, entered: &Published, from: usize, out: &mut Actions) -> bool
    requires shown { IsShown entered.now }
    requires book { entered.now.front.book ≡ known.old.book }
    ensures longer { result ≡ nat_le (length known.old.entries) (length entered.now.entries.items) }
    ensures list { result ≡ true → Follows known.old known.new × (known.new.entries ≡ entered.now.entries.items) }
    ensures out { result ≡ true → out.new ≡ record { items = out.old.items ++ take (out.old.room - length out.old.items) (map Enter (drop from entered.now.entries.items)); room = out.old.room } }
    ensures none { result ≡ false → (known.new ≡ known.old) × (out.new ≡ out.old) }
{
    if !known.is_followed_by(&entered.front) {
        return false;
    }
    *known = entered.front.again();
    append(entered.entries.as_slice(), from, out);
    true
}

impl Reading {
    /// The reading of a line of which this note is known, by a reader of it.
    pub(crate) fn new(reader: LineReader, known: Note) -> Reading
        requires { IsOfNode known (view_of reader.place) }
        ensures { result ≡ known }
    {
        Reading {
            reader: Some(reader),
            known,
        }
    }

    /// Takes in a note. From now on each read begins with what it tells.
    ///
    /// Promise: what the reading knows then begins with what it knew and with what the note tells,
    /// and is one of the two.
    ///
    /// Shown by: `a_read_after_learning_is_the_line`, `watch_one_node`, `learn_drops_the_note`.
    pub fn learn(&mut self, note: Note)
        requires { note.book ≡ self.old.book }
        ensures old { Follows self.old self.new }
        ensures note { Follows note self.new }
        ensures one { (self.new ≡ self.old) ⊎ (self.new ≡ note) }
    {
        if self.known.is_followed_by(&note) {
            self.known = note;
        }
    }

    /// Enters one list that is published, and answers how many entries it has. Its entries from the
    /// place `from` on, counted from 0, are appended to `out` as `Enter`, while there is room. The
    /// list begins with all that the reading knew before.
    ///
    /// It takes no memory. It tries again where it cannot enter, so it may wait.
    ///
    /// Promise: the list begins with all that the reading knew, and is what it knows then. The
    /// answer is its length, and its entries from the place on are appended while there is room.
    ///
    /// Shown by: `a_read_after_learning_is_the_line`, `reads_are_made_beside_steps`,
    /// `watch_one_node`, `read_answers_any_list`, `forgets_the_place`, `read_is_always_empty`.
    pub fn read<R: Wait>(&mut self, rt: &R, from: usize, out: &mut Actions) -> usize
        ensures list { Follows self.old self.new }
        ensures len { result ≡ length self.new.entries }
        ensures out { out.new ≡ record { items = out.old.items ++ take (out.old.room - length out.old.items) (map Enter (drop from self.new.entries)); room = out.old.room } }
    {
        for _ in rt.forever() {
            if let Some(len) = self.try_read(from, out) {
                return len;
            }
            thread::yield_now();
        }
        unreachable!()
    }

    /// The same, or none where the reader came back, or the list is shorter than what is known, as
    /// `take_in` tells. No clause of `left_right` excludes either.
    fn try_read(&mut self, from: usize, out: &mut Actions) -> Option<usize>
        ensures list { IfSome result (λ _. Follows self.old self.new) }
        ensures len { IfSome result (λ len. len ≡ length self.new.entries) }
        ensures out { IfSome result (λ _. out.new ≡ record { items = out.old.items ++ take (out.old.room - length out.old.items) (map Enter (drop from self.new.entries)); room = out.old.room }) }
        ensures none { IfNone result ((self.new ≡ self.old) × (out.new ≡ out.old)) }
    {
        let Some(reader) = self.reader.take() else {
            unreachable!()
        };
        match reader.enter_as::<Show>() {
            Ok(reading) => {
                let entered = reading.get();
                let len = entered.entries.len();
                let is_taken = take_in(&mut self.known, entered, from, out);
                self.reader = Some(reading.leave());
                if is_taken { Some(len) } else { None }
            }
            Err(reader) => {
                self.reader = Some(reader);
                None
            }
        }
    }
}
