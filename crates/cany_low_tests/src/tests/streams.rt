//! Streams in memory and of std, which fail or take less than they are given.
use cany_io::{
    MemSink, MemSource, PlainSource, ReadFault, Sink, Source, StdSink, StdSource, read_all,
    write_whole,
};
use std::alloc::{AllocError, Global};
use std::io;
use std::test::Fail;

/// A writer that never takes a byte.
#[derive(Drop)]
struct Full;

impl io::Write for Full {
    fn write(&mut self, _: &[u8]) -> io::Result<usize> {
        Ok(0)
    }

    fn flush(&mut self) -> io::Result<()> {
        Ok(())
    }
}

/// A reader and a writer that always err.
#[derive(Drop)]
struct Broken;

impl io::Read for Broken {
    fn read(&mut self, _: &mut [u8]) -> io::Result<usize> {
        Err(io::ErrorKind::Interrupted.into())
    }
}

impl io::Write for Broken {
    fn write(&mut self, _: &[u8]) -> io::Result<usize> {
        Err(io::ErrorKind::Interrupted.into())
    }

    fn flush(&mut self) -> io::Result<()> {
        Ok(())
    }
}

/// Whether a source gives this text within a limit, or why it does not.
fn gives<S: Source>(
    alloc: Global,
    source: &mut S,
    limit: usize,
    text: &[u8],
) -> Result<bool, ReadFault> {
    Ok(read_all(alloc, source, limit)?.as_slice() == text)
}

fn is_taken<K: Sink>(sink: &mut K, piece: &[u8]) -> bool {
    write_whole(sink, piece).is_ok()
}

/// Writes four pieces, and tells which of them are taken whole.
fn wholes<K: Sink>(sink: &mut K) -> [bool; 4] {
    [
        is_taken(sink, b"one "),
        is_taken(sink, b"two "),
        is_taken(sink, b"three "),
        is_taken(sink, b"four"),
    ]
}

fn read_within(
    alloc: Global,
    text: &[u8],
    limit: usize,
) -> Result<Result<bool, ReadFault>, AllocError> {
    let mut source = PlainSource::new(text.to_vec(alloc)?);
    Ok(gives(alloc, &mut source, limit, text))
}

#[test]
fn texts_within_a_limit_are_read(rt: HostRuntime) -> Result<(), Fail> {
    let alloc = rt.alloc();
    let found = [
        read_within(alloc, b"one two", 7)?,
        read_within(alloc, b"one two", 6)?,
        read_within(alloc, b"one two", usize::MAX)?,
        read_within(alloc, b"", 0)?,
        read_within(alloc, b"o", 0)?,
    ];
    let too_long = Err(ReadFault::TooLong);
    assert!(rt; found == [Ok(true), too_long, Ok(true), Ok(true), too_long]);
    Ok(())
}

/// The bytes are still there for the next call.
#[test]
fn the_first_read_fails(rt: HostRuntime) -> Result<(), Fail> {
    let alloc = rt.alloc();
    let mut source = MemSource::new(b"text".to_vec(alloc)?, Vec::from_slice(alloc, &[1])?);
    let found = [
        gives(alloc, &mut source, 100, b"text"),
        gives(alloc, &mut source, 100, b"text"),
    ];
    assert!(rt; found == [Err(ReadFault::Failed), Ok(true)] && source.faults() == 1);
    Ok(())
}

/// What a sink with room for so many bytes took of the pieces, whose third write fails.
fn taken(alloc: Global, room: usize) -> Result<([bool; 4], u64, Vec<u8>), Fail> {
    let mut sink = MemSink::new(alloc, Vec::from_slice(alloc, &[3])?, room)?;
    let pieces = wholes(&mut sink);
    Ok((pieces, sink.faults(), sink.taken().to_vec(alloc)?))
}

#[test]
fn the_third_write_fails(rt: HostRuntime) -> Result<(), Fail> {
    let (ample, ample_faults, all) = taken(rt.alloc(), 100)?;
    let (scarce, scarce_faults, some) = taken(rt.alloc(), 5)?;
    let pieces = [ample, scarce];
    let is_right = pieces == [[true, true, false, true], [true, false, false, false]]
        && [ample_faults, scarce_faults] == [1, 3]
        && [all.as_slice(), some.as_slice()] == [b"one two four".as_slice(), b"one t".as_slice()];
    assert!(rt; is_right);
    Ok(())
}

#[test]
fn streams_of_std(rt: HostRuntime) -> Result<(), Fail> {
    let alloc = rt.alloc();
    let mut source = StdSource::new(b"one two".as_slice());
    let mut broken = StdSource::new(Broken);
    let found = [
        gives(alloc, &mut source, 7, b"one two"),
        gives(alloc, &mut broken, 7, b""),
    ];
    let mut text = Vec::new(alloc);
    let mut sink = StdSink::new(&mut text);
    let mut full = StdSink::new(Full);
    let mut failing = StdSink::new(Broken);
    let pieces = [wholes(&mut sink), wholes(&mut full), wholes(&mut failing)];
    let faults = [
        source.faults(),
        broken.faults(),
        sink.faults(),
        full.faults(),
        failing.faults(),
    ];
    drop(sink);
    let is_right = found == [Ok(true), Err(ReadFault::Failed)]
        && pieces == [[true; 4], [false; 4], [false; 4]]
        && faults == [0, 1, 0, 4, 4];
    assert!(rt; is_right && text.as_slice() == b"one two three four".as_slice());
    Ok(())
}
