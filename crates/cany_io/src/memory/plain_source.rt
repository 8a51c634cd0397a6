ghost use Rattle.std.specs.Prelude.{◌≡◌, ℕ, ◌<◌, ◌≤◌, ◌↔◌, min, List, [], ◌++◌, length, take, drop, Some, IsOk, IfOk, OnErr};
ghost use Rattle.cany_io.specs.Faults.{HasRisen};
ghost use Rattle.cany_io.specs.Source.{Gives, IsAtEnd};

use crate::{Failed, Source};
use std::marker::Model;

/// A source over bytes in memory that never fails. Contracts see the bytes left.
#[derive(Drop)]
pub struct PlainSource {
    bytes: Vec<u8>,
    position: usize,
}

impl Model for PlainSource {
    ghost Value = { List ℕ };

    ghost view = { λ s. drop s.position s.bytes.items };

    ghost invariant = { λ s. s.position ≤ length s.bytes.items };
}

impl PlainSource {
    /// A source that gives these bytes, from the first on.
    ///
    /// Promise: all of these bytes are left.
    ///
    /// Shown by: `texts_within_a_limit_are_read`.
    pub fn new(bytes: Vec<u8>) -> PlainSource
        ensures { result ≡ bytes.items }
    {
        PlainSource { bytes, position: 0 }
    }
}

impl Source for PlainSource {
    ghost left = { λ bytes. Some bytes };

    ghost faults = { λ _. 0 };

    /// Fills `buf` as far as there are bytes.
    ///
    /// Promise: it gives as many of the bytes left as there is room for, and these leave the
    /// source.
    ///
    /// Shown by: `a_source_that_never_fails`, `texts_within_a_limit_are_read`.
    ///
    /// # Errors
    ///
    /// It never fails.
    fn read(&mut self, buf: &mut [u8]) -> Result<usize, Failed>
        requires { 0 < length buf.old }
        ensures ok { IsOk result }
        ensures filled { IfOk result (λ n. n ≡ min (length self.old) (length buf.new)) }
        ensures bytes { IfOk result (λ n. self.old ≡ take n buf.new ++ self.new) }
        ensures end { IfOk result (λ n. (n ≡ 0) ↔ (self.old ≡ [])) }
    {
        let count = copy_front(&self.bytes[self.position..], buf);
        self.position += count;
        Ok(count)
    }
}

// Copies bytes to the start of a buffer, as many as there are or as fit, and says how many.
fn copy_front(bytes: &[u8], buf: &mut [u8]) -> usize
    ensures filled { result ≡ min (length bytes.now) (length buf.old) }
    ensures copied { take result buf.new ≡ take result bytes.now }
{
    let count = bytes.len().min(buf.len());
    buf[..count].copy_from_slice(&bytes[..count]);
    count
}
