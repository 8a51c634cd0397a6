//! What comes of a command over streams in memory, and over streams of std.
use crate::command::perform;
use crate::report::{with_journal, without_journal};
use crate::slow::{Drip, Trickle};
use anyhow::Result;
use cany_io::{MemSink, MemSource, PlainSource, StdSink, StdSource};
use std::alloc::{AllocError, Global};
use std::sync::Wait;
use std::thread::Threads;

/// More bytes than any answer here has.
const ROOM: usize = 65_536;

/// What a command answered.
#[derive(Drop)]
pub(crate) struct Outcome {
    pub status: u8,
    /// How often it read, where the source counts that.
    pub reads: Option<u64>,
    /// What it wrote.
    pub taken: Vec<u8>,
}

fn words_of(alloc: Global, texts: &[&str]) -> Result<Vec<String>, AllocError> {
    let mut words = Vec::new(alloc);
    for text in texts {
        words.push(String::from_str(alloc, text)?)?;
    }
    Ok(words)
}

/// Over a source and a sink in memory, of which one call each may fail.
fn in_memory<R: Threads + Wait + Sync>(
    threads: &R,
    alloc: Global,
    command: &str,
    [read, write]: [u32; 2],
    text: Vec<u8>,
    words: &[String],
) -> Result<Outcome> {
    let mut source = MemSource::new(text, Vec::from_slice(alloc, &[read])?);
    let mut sink = MemSink::new(alloc, Vec::from_slice(alloc, &[write])?, ROOM)?;
    let status = perform(threads, alloc, command, words, &mut source, &mut sink);
    Ok(Outcome {
        status,
        reads: Some(source.calls()),
        taken: sink.taken().to_vec(alloc)?,
    })
}

/// Over streams in memory. What is written is told without its journal, in which threads take their
/// turns in another order each time.
fn by_threads<R: Threads + Wait + Sync>(
    threads: &R,
    alloc: Global,
    command: &str,
    failing: [u32; 2],
    text: Vec<u8>,
    words: &[String],
) -> Result<Outcome> {
    let mut outcome = in_memory(threads, alloc, command, failing, text, words)?;
    let others = without_journal(alloc, str::from_utf8(&outcome.taken)?)?;
    outcome.taken = others.into_bytes();
    Ok(outcome)
}

/// Over streams in memory, and then `replay` of the same text with the journal that was written.
/// What that writes is told where it is something else.
fn again<R: Threads + Wait + Sync>(
    threads: &R,
    alloc: Global,
    command: &str,
    text: &[u8],
    words: &[String],
) -> Result<Outcome> {
    let report = in_memory(threads, alloc, command, [0, 0], text.to_vec(alloc)?, words)?.taken;
    let given = with_journal(alloc, str::from_utf8(&report)?, str::from_utf8(text)?)?;
    let words = words_of(alloc, &["replay"])?;
    let mut replayed = in_memory(threads, alloc, "replay", [0, 0], given.into_bytes(), &words)?;
    if replayed.taken == report {
        replayed.taken = b"the same again\n".to_vec(alloc)?;
    }
    Ok(replayed)
}

/// Over a source that never fails.
fn from_plain<R: Threads + Wait + Sync>(
    threads: &R,
    alloc: Global,
    command: &str,
    text: Vec<u8>,
    words: &[String],
) -> Result<Outcome> {
    let mut source = PlainSource::new(text);
    let mut sink = MemSink::new(alloc, Vec::new(alloc), ROOM)?;
    let status = perform(threads, alloc, command, words, &mut source, &mut sink);
    Ok(Outcome {
        status,
        reads: None,
        taken: sink.taken().to_vec(alloc)?,
    })
}

/// Over streams of std that move one byte at a time.
fn by_bytes<R: Threads + Wait + Sync>(
    threads: &R,
    alloc: Global,
    command: &str,
    text: &[u8],
    words: &[String],
) -> Outcome {
    let mut source = StdSource::new(Trickle { bytes: text });
    let mut drip = Drip {
        taken: Vec::new(alloc),
    };
    let status = perform(
        threads,
        alloc,
        command,
        words,
        &mut source,
        &mut StdSink::new(&mut drip),
    );
    Outcome {
        status,
        reads: None,
        taken: drip.taken,
    }
}

/// What comes of a command over these streams, with these words.
pub(crate) fn outcome_of<R: Threads + Wait + Sync>(
    threads: &R,
    alloc: Global,
    command: &str,
    streams: &str,
    failing: [u32; 2],
    text: Vec<u8>,
    texts: &[&str],
) -> Result<Outcome> {
    let words = words_of(alloc, texts)?;
    match streams {
        "memory" => in_memory(threads, alloc, command, failing, text, &words),
        "threads" => by_threads(threads, alloc, command, failing, text, &words),
        "again" => again(threads, alloc, command, &text, &words),
        "plain" => from_plain(threads, alloc, command, text, &words),
        "bytes" => Ok(by_bytes(threads, alloc, command, &text, &words)),
        _ => anyhow::bail!("no streams: {streams}"),
    }
}
