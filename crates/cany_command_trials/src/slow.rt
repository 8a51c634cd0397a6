//! A reader and a writer that move one byte at a time.
use std::io;

/// Gives one byte at a time.
#[derive(Drop)]
pub(crate) struct Trickle<'a> {
    pub bytes: &'a [u8],
}

impl io::Read for Trickle<'_> {
    fn read(&mut self, room: &mut [u8]) -> io::Result<usize> {
        match (self.bytes, room) {
            ([byte, rest @ ..], [first, ..]) => {
                *first = *byte;
                self.bytes = rest;
                Ok(1)
            }
            _ => Ok(0),
        }
    }
}

/// Takes one byte at a time.
#[derive(Drop)]
pub(crate) struct Drip {
    pub taken: Vec<u8>,
}

impl io::Write for Drip {
    fn write(&mut self, bytes: &[u8]) -> io::Result<usize> {
        match bytes.first() {
            Some(byte) if self.taken.push(*byte).is_ok() => Ok(1),
            _ => Ok(0),
        }
    }

    fn flush(&mut self) -> io::Result<()> {
        Ok(())
    }
}
