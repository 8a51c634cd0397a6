//! The call behind the command `storm`.
ghost use Rattle.std.specs.Prelude.{◌≡◌, ◌⊎◌, ◌↔◌, map, string_bytes, None, IfSome, IsSomeAnd};
ghost use Rattle.cany_io.specs.Faults.{HasRisen, StandsStill};
ghost use Rattle.cany_io.specs.Sink.{Takes, TakesPrefix};
ghost use Rattle.cany_log.specs.Summary.{summary};
ghost use Rattle.cany_replay.specs.StormTop.{IsStorm, storm_summary};
ghost use Rattle.cany_replay.specs.StormWords.{storm_number};

use crate::storm::storm_scenario;
use crate::storm_words::storm_number;
use cany_command::status::{DONE, NO_MEMORY, OTHER_WORDS, WRITE_FAULT};
use cany_command::{RunFault, run};
use cany_io::{Failed, Sink};
use cany_log::write_summary;
use cany_world::World;
use std::alloc::Global;

/// Writes the summary of a run.
fn summarize<K: Sink>(world: &World, number: u32, sink: &mut K) -> u8
    ensures done { result ≡ DONE → Takes (K.taken sink.old) (summary number world.now.scenario world.now.journal) (K.taken sink.new) }
    ensures write_fault { result ≡ WRITE_FAULT → HasRisen (K.faults sink.old) (K.faults sink.new) }
    ensures prefix { TakesPrefix (K.taken sink.old) (summary number world.now.scenario world.now.journal) (K.taken sink.new) }
    ensures status { (result ≡ DONE) ⊎ (result ≡ WRITE_FAULT) }
{
    match write_summary(world, number, sink) {
        Ok(()) => DONE,
        Err(Failed) => WRITE_FAULT,
    }
}

/// Runs the storm of a number and writes the summary. Nothing is written before the run has ended.
fn run_storm<K: Sink>(alloc: Global, number: u32, sink: &mut K) -> u8
    ensures done { result ≡ DONE → IsStorm number (K.taken sink.old) (K.taken sink.new) }
    ensures write_fault { result ≡ WRITE_FAULT → HasRisen (K.faults sink.old) (K.faults sink.new) }
    ensures prefix { result ≡ WRITE_FAULT → TakesPrefix (K.taken sink.old) (storm_summary number) (K.taken sink.new) }
    ensures untouched { result ≡ NO_MEMORY → sink.new ≡ sink.old }
    ensures status { (result ≡ DONE) ⊎ (result ≡ WRITE_FAULT) ⊎ (result ≡ NO_MEMORY) }
{
    let Ok(scenario) = storm_scenario(alloc, number) else {
        return NO_MEMORY;
    };
    match run(alloc, scenario) {
        Ok(world) => summarize(&world, number, sink),
        // A storm brings no journal that could be refused.
        Err(RunFault::Journal(_)) => unreachable!(),
        Err(RunFault::Memory) => NO_MEMORY,
    }
}

/// Storms: draws the scenario of a number, runs it by its round robin journal, and writes the
/// summary of the run to the sink, a line at a time. It answers the status of the program, one of
/// those in `cany_command::status`. The words are the word `storm` and the number, in 1 to 10
/// digits and at most 4294967295.
///
/// Promise: at status 0 exactly the summary of the storm's run by its round robin journal was
/// written. That journal is legal and whole, the run has integrity, and within the hypothesis it is
/// safe. Where the words are right and the sink does not fail, the status is 0 or 6.
///
/// Answers: 0 where the summary was written. 2 exactly where the words are not `storm` and a number
/// of 1 to 10 digits that fits 32 bits. 5 only where the sink's count of faults rose: a prefix of
/// the summary was taken. 6: out of memory. At 2 and 6 nothing is written. There is no other
/// status.
///
/// Shown by: `.ci/calls.py`, `a_write_of_a_summary_fails`, `storm_always_write_fault`,
/// `a_storm_of_eleven_digits`.
pub fn storm_top<K: Sink>(alloc: Global, words: &[String], sink: &mut K) -> u8
    // The words alone decide on this status.
    ensures words { (result ≡ OTHER_WORDS) ↔ (storm_number (map string_bytes words.now) ≡ None) }

    // Success.
    ensures done { result ≡ DONE → IsSomeAnd (storm_number (map string_bytes words.now)) (λ number.
        IsStorm number (K.taken sink.old) (K.taken sink.new)) }

    // The sink fails.
    ensures write_fault { result ≡ WRITE_FAULT → HasRisen (K.faults sink.old) (K.faults sink.new) }
    ensures prefix { result ≡ WRITE_FAULT → IsSomeAnd (storm_number (map string_bytes words.now)) (λ number.
        TakesPrefix (K.taken sink.old) (storm_summary number) (K.taken sink.new)) }

    // Nothing else writes.
    ensures unwritten { (result ≡ OTHER_WORDS) ⊎ (result ≡ NO_MEMORY) → sink.new ≡ sink.old }
    ensures status { (result ≡ DONE) ⊎ (result ≡ OTHER_WORDS) ⊎ (result ≡ WRITE_FAULT) ⊎ (result ≡ NO_MEMORY) }

    // Where the sink does not fail, the summary is written, but for want of memory.
    ensures complete { StandsStill (K.faults sink.old) (K.faults sink.new)
        → IfSome (storm_number (map string_bytes words.now)) (λ _. (result ≡ DONE) ⊎ (result ≡ NO_MEMORY)) }
{
    match storm_number(words) {
        Some(number) => run_storm(alloc, number, sink),
        None => OTHER_WORDS,
    }
}
