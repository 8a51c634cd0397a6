//! What the writer has of one node.
ghost use Rattle.std.specs.Prelude.{◌≡◌, ◌++◌, [], ◌∷◌, length, drop, Some, IfOk, if◌then◌else◌, true};
ghost use mathlib.Core.List.{IsPrefix};
ghost use Rattle.left_right.specs.Sides.{view as view_of};
ghost use Rattle.cany_watch.specs.Publishers.{PublisherParts, IsWriterOf, note_of};

use crate::note::{Head, Note};
use crate::published::{Growth, Published};
use crate::reading::Reading;
use crate::rule::{LineReader, LineWriter, Show, Tell};
use cany_base::{LogEntry, Memory};
use std::alloc::Global;
use std::marker::Model;
use std::mem;
use std::sync::Wait;

/// The writer of a node's line, with its book. It is not `Drop`: end it by `end`.
pub(crate) struct Publisher {
    writer: Option<LineWriter>,
    /// The newest entry, where the writer had no memory to take it.
    held: Option<Growth>,
    head: Head,
    /// All entries that were taken, published or not.
    taken: Note,
}

impl Model for Publisher {
    ghost use Rattle.std.specs.Prelude.{◌≡◌, ◌++◌, drop, IsSomeAnd};
    ghost use Rattle.cany_watch.specs.Book.{head_of};
    ghost use Rattle.cany_watch.specs.Publishers.{PublisherParts, IsWriterOf, held_list, shown_of};

    ghost Value = { PublisherParts };

    ghost view = { λ s. record { book = s.taken.book; shown = shown_of s.writer (λ w. w.desk.shown.value); taken = s.taken.entries } };

    ghost invariant = { λ s. IsSomeAnd s.writer (λ w. IsWriterOf s.taken w.desk.shown.value (drop w.behind w.log.items ++ held_list s.held)) × (s.head.word ≡ head_of s.taken.book) };
}

/// Publishes all that was taken. The note is of that. It waits for readers.
fn publish_taken<R: Wait>(rt: &R, writer: LineWriter, taken: &Note) -> (LineWriter, bool)
    requires { IsWriterOf taken.now writer.desk.shown.value (drop writer.behind writer.log.items) }
    ensures writer { IsWriterOf taken.now result.0.desk.shown.value (drop result.0.behind result.0.log.items) }
    ensures shown { result.0.desk.shown.value.entries.items ≡ (if result.1 then taken.now.entries else writer.desk.shown.value.entries.items) }
    ensures known { result.1 ≡ true → view_of result.0.desk.place ≡ Some taken.now }
{
    let (writer, published) = writer.publish_as::<Show, R>(rt);
    match published {
        Ok(()) => (writer, true),
        Err(_) => (writer, false),
    }
}

/// Puts a writer in its place, where there is none.
fn put_back<R: Wait>(rt: &R, place: &mut Option<LineWriter>, writer: LineWriter)
    ensures { place.new ≡ Some writer }
{
    if let Some(other) = mem::replace(place, Some(writer)) {
        drop(other.take(rt));
    }
}

/// The reader of a writer that has published: it learns what the writer knows.
fn reader_of(writer: &mut LineWriter) -> Result<LineReader, Memory>
    ensures view { IfOk result (λ r. view_of r.place ≡ view_of writer.old.desk.place) }
    ensures kept { (writer.new.desk.shown ≡ writer.old.desk.shown) × (writer.new.log ≡ writer.old.log) × (writer.new.behind ≡ writer.old.behind) }
{
    let mut reader = writer.factory().reader()?;
    reader.learn::<Tell>(writer.tell::<Tell>());
    Ok(reader)
}

impl Publisher {
    /// The writer of a new line, which is empty, and the reading of it.
    pub(crate) fn build<R: Wait>(rt: &R, alloc: Global) -> Result<(Publisher, Reading), Memory>
        ensures publisher { IfOk result (λ t. (t.0.shown ≡ []) × (t.0.taken ≡ [])) }
        ensures reading { IfOk result (λ t. t.1 ≡ note_of t.0) }
    {
        let (head, taken) = Note::open();
        let first = Published {
            entries: Vec::new(alloc),
            front: taken.again(),
        };
        let second = Published {
            entries: Vec::new(alloc),
            front: taken.again(),
        };
        let writer: LineWriter = LineWriter::new(alloc, first, second, 1)?;
        let (mut writer, is_published) = publish_taken(rt, writer, &taken);
        let reader = if is_published {
            reader_of(&mut writer)
        } else {
            Err(Memory)
        };
        match reader {
            Ok(reader) => {
                let reading = Reading::new(reader, taken.again());
                Ok((
                    Publisher {
                        writer: Some(writer),
                        held: None,
                        head,
                        taken,
                    },
                    reading,
                ))
            }
            Err(memory) => {
                drop(writer.take(rt));
                Err(memory)
            }
        }
    }

    /// How many entries were taken.
    pub(crate) fn len(&self) -> u64
        ensures { result ≡ length self.now.taken }
    {
        self.taken.len()
    }

    /// A note of what is published.
    pub(crate) fn tell(&self) -> Note
        ensures { result ≡ note_of self.now }
    {
        let Some(writer) = &self.writer else {
            unreachable!()
        };
        writer.published().front.again()
    }

    /// Whether all that was taken is published.
    fn is_published(&self) -> bool
        ensures { result ≡ true → self.now.shown ≡ self.now.taken }
    {
        let Some(writer) = &self.writer else {
            unreachable!()
        };
        writer.published().entries.len() as u64 == self.taken.len()
    }

    /// Lets the writer have the entry that is held, where there is memory.
    fn unhold(&mut self)
        ensures { self.new ≡ self.old }
    {
        let Some(held) = self.held.take() else {
            return;
        };
        let Some(writer) = &mut self.writer else {
            unreachable!()
        };
        self.held = writer.append(held).err();
    }

    /// Takes an entry, which readers do not see yet, or does not take it.
    pub(crate) fn append(&mut self, entry: &LogEntry) -> bool
        ensures book { (self.new.book ≡ self.old.book) × (self.new.shown ≡ self.old.shown) }
        ensures taken { self.new.taken ≡ (if result then self.old.taken ++ entry.now ∷ [] else self.old.taken) }
    {
        self.unhold();
        if self.held.is_some() {
            return false;
        }
        if !self.taken.grow(&self.head, entry) {
            return false;
        }
        self.held = Some(Growth {
            entry: *entry,
            front: self.taken.again(),
        });
        true
    }

    /// Publishes all entries that were taken, or nothing where memory is wanting. It waits for
    /// readers.
    pub(crate) fn publish<R: Wait>(&mut self, rt: &R) -> bool
        ensures book { (self.new.book ≡ self.old.book) × (self.new.taken ≡ self.old.taken) }
        ensures shown { self.new.shown ≡ (if result then self.old.taken else self.old.shown) }
    {
        self.unhold();
        if self.held.is_some() {
            return false;
        }
        if self.is_published() {
            return true;
        }
        let Some(writer) = self.writer.take() else {
            unreachable!()
        };
        let (writer, is_published) = publish_taken(rt, writer, &self.taken);
        put_back(rt, &mut self.writer, writer);
        is_published
    }

    /// Ends the writer. It waits for readers.
    pub(crate) fn end<R: Wait>(self, rt: &R) {
        let Publisher {
            writer,
            held: _held,
            head: _head,
            taken: _taken,
        } = self;
        if let Some(writer) = writer {
            drop(writer.take(rt));
        }
    }
}
