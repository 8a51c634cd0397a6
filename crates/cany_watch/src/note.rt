ghost use Rattle.std.specs.Prelude.{◌≡◌, ◌⊎◌, ◌++◌, ◌∷◌, [], length, nat_le, MatchBool, if◌then◌else◌};
ghost use mathlib.Core.List.{IsPrefix};
ghost use Rattle.cany_watch.specs.Book.{head_of};
ghost use Rattle.cany_watch.specs.Notes.{Follows};

use crate::book::{Add, Law, Nothing};
use cany_base::LogEntry;
use logbook::{Offer, Seen, Start, Word};
use std::marker::Model;

/// More entries than this no line has.
const MOST: u64 = 1 << 62;

/// A beginning of the line of a node, which was published. It has no entries in memory: contracts
/// see them.
#[derive(Drop)]
pub struct Note {
    count: u64,
    seen: Seen<LogEntry, u64, Law>,
}

impl Model for Note {
    ghost use Rattle.std.specs.Prelude.{◌≡◌, length};
    ghost use Rattle.cany_watch.specs.Notes.{NoteParts};

    ghost Value = { NoteParts };

    ghost view = { λ n. record { book = n.seen.book; entries = n.seen.log } };

    ghost invariant = { λ n. n.count ≡ length n.seen.log };
}

/// The word of a book.
#[derive(Drop)]
pub(crate) struct Head {
    word: Word<LogEntry, u64, Law>,
}

impl Note {
    /// A new book, with its word and what is known of it: nothing.
    pub(crate) fn open() -> (Head, Note)
        ensures word { result.0.word ≡ head_of result.1.book }
        ensures empty { result.1.entries ≡ [] }
    {
        let (seen, mut first, _second) = Seen::open(Start::alone(), 0, 0);
        let word = Word::tracked(0, &mut first);
        (Head { word }, Note { count: 0, seen })
    }

    /// How many entries the list has that the note tells.
    ///
    /// Promise: the number of these entries.
    ///
    /// Shown by: `watch_one_node`, `watch_two_incarnations`.
    pub fn len(&self) -> u64
        ensures { result ≡ length self.now.entries }
    {
        self.count
    }

    /// A copy.
    pub(crate) fn again(&self) -> Note
        ensures { result ≡ self.now }
    {
        Note {
            count: self.count,
            seen: self.seen.again(),
        }
    }

    /// Whether the other has as many entries as this one, or more: then it follows this one, and
    /// otherwise this one follows it.
    ///
    /// Promise: the answer tells exactly whether the other has as many entries or more. Where it
    /// does, its list begins with that of this note. Else the list of this note begins with that of
    /// the other.
    ///
    /// Answers: true exactly where the list of the other is as long as this one, or longer.
    ///
    /// Shown by: `a_read_after_learning_is_the_line`, `watch_one_node`.
    pub fn is_followed_by(&self, other: &Note) -> bool
        requires { other.now.book ≡ self.now.book }
        ensures longer { result ≡ nat_le (length self.now.entries) (length other.now.entries) }
        ensures follows { MatchBool result (Follows self.now other.now) (Follows other.now self.now) }
    {
        let mut both = self.seen.again();
        both.learn(&other.seen);
        if self.count <= other.count {
            return true;
        }
        false
    }

    /// Adds an entry to the line of which all is known. It fails only where the line has another
    /// length.
    pub(crate) fn grow(&mut self, head: &Head, entry: &LogEntry) -> bool
        requires { head.now.word ≡ head_of self.old.book }
        ensures book { self.new.book ≡ self.old.book }
        ensures entries { self.new.entries ≡ (if result then self.old.entries ++ entry.now ∷ [] else self.old.entries) }
    {
        if self.count >= MOST {
            return false;
        }
        let mut seen = self.seen.again();
        let mut offer: Offer<LogEntry, u64, Law, Nothing> = seen.plain::<Nothing, LogEntry, Add>(
            entry,
        );
        let mut pen = seen.no_pen();
        let count = self.count;
        let found = head
            .word
            .compare_exchange::<Add, Nothing>(count, count + 1, &mut seen, &mut offer, &mut pen);
        if found != count {
            return false;
        }
        self.count = count + 1;
        self.seen = seen;
        true
    }
}
