//! The calls behind the commands.
use crate::gates::meetings;
use cany_base::Slot;
use cany_check::check_top;
use cany_command::status::{NO_MEMORY, OTHER_WORDS};
use cany_crew::{free_gates, run_top};
use cany_io::{Sink, Source};
use cany_media::media_top;
use cany_replay::{replay_top, storm_top};
use cany_replica::replica_top;
use cany_settle::tail_top;
use std::alloc::Global;
use std::sync::Wait;
use std::sync::atomic::AtomicU64;
use std::thread::Threads;

/// The status of `run`, with gates that never refuse.
fn run_freely<R: Threads + Wait + Sync, S: Source, K: Sink>(
    threads: &R,
    alloc: Global,
    words: &[String],
    source: &mut S,
    sink: &mut K,
) -> u8 {
    match free_gates(alloc) {
        Ok(mut gates) => run_top(threads, alloc, words, source, sink, &mut gates),
        Err(_) => NO_MEMORY,
    }
}

/// The status of `run`, with gates of which the first two wait for one another, and all refuse from
/// a slot on. Where the passes of two nodes do not overlap, one is refused in slot 0.
fn run_met<R: Threads + Wait + Sync, S: Source, K: Sink>(
    threads: &R,
    alloc: Global,
    closed_from: Slot,
    words: &[String],
    source: &mut S,
    sink: &mut K,
) -> u8 {
    let asked = AtomicU64::new(0);
    match meetings(alloc, &asked, closed_from) {
        Ok(mut gates) => run_top(threads, alloc, words, source, sink, &mut gates),
        Err(_) => NO_MEMORY,
    }
}

/// The status of the call behind a command, which its words need not name. A storm reads nothing.
/// The commands `met` and `held` are `run` with gates that wait for one another; those of `held`
/// refuse slot 1.
pub(crate) fn perform<R: Threads + Wait + Sync, S: Source, K: Sink>(
    threads: &R,
    alloc: Global,
    command: &str,
    words: &[String],
    source: &mut S,
    sink: &mut K,
) -> u8 {
    match command {
        "replay" => replay_top(alloc, words, source, sink),
        "check" => check_top(alloc, words, source, sink),
        "run" => run_freely(threads, alloc, words, source, sink),
        "met" => run_met(threads, alloc, Slot::MAX, words, source, sink),
        "held" => run_met(threads, alloc, 1, words, source, sink),
        "replica" => replica_top(alloc, words, source, sink),
        "media" => media_top(alloc, words, source, sink),
        "tail" => tail_top(alloc, words, source, sink),
        "storm" => storm_top(alloc, words, sink),
        _ => OTHER_WORDS,
    }
}
