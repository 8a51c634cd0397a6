//! The book of a node: its line as the proofs know it, of which threads share beginnings. It has
//! one word, the length.
use cany_base::LogEntry;
use logbook::{Gain, Plain, Play, Rule};

/// The rule of the book.
pub struct Law;

impl Rule<LogEntry, u64> for Law {
    ghost use Rattle.std.specs.Prelude.{[]};
    ghost use base.Fml.{ftrue};
    ghost use Rattle.cany_watch.specs.Book.{IsKept};

    ghost holds = { λ cells line. IsKept cells line };

    ghost first = { [] };

    ghost hinted = { λ n line. Unit {0} };

    ghost shows = { λ line. [] };

    ghost keeps = { λ names line. ftrue };

    ghost moves = { λ ask before after answer. Unit {0} };
}

/// Callers trade nothing.
pub struct Nothing;

impl Gain<LogEntry, u64> for Nothing {
    ghost use base.Fml.{ftrue};

    ghost after = { λ names about answer. ftrue };
}

/// The step that adds an entry.
pub struct Add;

impl Play<LogEntry, u64> for Add {
    ghost use Rattle.cany_watch.specs.Book.{Adds};

    ghost then = { Adds };
}

impl Plain<LogEntry, LogEntry, u64> for Add {
    ghost use Rattle.std.specs.Prelude.{None};

    ghost ask = { λ entry. entry };

    ghost state = { λ entry. None };
}
