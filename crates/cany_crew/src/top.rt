//! The call behind the command `run`.
ghost use Rattle.std.specs.Prelude.{◌≡◌, ◌⊎◌, ◌↔◌, ◌<◌, ◌≤◌, map, length, string_bytes, None, is_some, IfNone, IfOk, IfSome, IsOkAnd, IsSomeAnd, MatchOption, vec_len};
ghost use Rattle.cany_base.specs.Limits.{most_nodes, most_text_bytes};
ghost use Rattle.cany_crew.specs.Gates.{HasAnyRefused, NoneFell, NoneRefused};
ghost use Rattle.cany_crew.specs.TextRun.{IsReported, IsTextRun};
ghost use Rattle.cany_crew.specs.Top.{AreRun, HasNoAnswer, IsCrewRun, TakesReportStart, TakesStart, run_refusal};
ghost use Rattle.cany_io.specs.Faults.{HasRisen, StandsStill};
ghost use Rattle.cany_io.specs.Sink.{Takes};
ghost use Rattle.cany_io.specs.Source.{IsAtEnd};
ghost use Rattle.cany_model.specs.Runs.Run.{IsLegal, IsWhole};
ghost use Rattle.cany_text.specs.ScenarioText.{scenario_of};
ghost use Rattle.cany_command.specs.Status.{HasAnswered};

use crate::crew::run_crew;
use crate::gate::Gate;
use crate::nodes::nodes_of;
use crate::status::HELD;
use cany_base::{Memory, NodeId, Scenario, Slot};
use cany_command::status::{
    DONE, NO_MEMORY, OTHER_WORDS, READ_FAULT, REFUSED, TOO_LONG, WRITE_FAULT,
};
use cany_command::{is_memory, is_only, refuse, report_run, scenario_in, text_from};
use cany_io::{Sink, Source};
use cany_log::Refusal;
use cany_world::World;
use std::alloc::Global;
use std::sync::Wait;
use std::thread::Threads;

/// Writes the report of a run that has ended, and answers the status of one that has not.
fn report_ending<K: Sink>(
    world: &World,
    ending: Result<Option<(NodeId, Slot)>, Memory>,
    sink: &mut K,
) -> u8
    requires none { world.now.scenario.journal ≡ None }
    requires ended { IfOk ending (λ held. IfNone held (IsLegal world.now.scenario world.now.journal × IsWhole world.now.scenario world.now.journal)) }
    ensures { IsReported world.now.scenario ending
        (record { bytes = K.taken; faults = K.faults; old = sink.old; new = sink.new }) result }
{
    match ending {
        Ok(held) => match held {
            None => {
                // What this call says of the run is a part of the contract here.
                world.hypothesis();
                report_run(world, sink)
            }
            Some(_) => HELD,
        },
        Err(_) => NO_MEMORY,
    }
}

/// Runs a scenario that has no journal by threads, and writes the report. Nothing is written before
/// the run has ended.
fn run_scenario<R: Threads + Wait + Sync, K: Sink, G: Gate>(
    rt: &R,
    alloc: Global,
    scenario: &Scenario,
    sink: &mut K,
    gates: &mut Vec<G>,
) -> u8
    requires gates { most_nodes ≤ vec_len gates.old }
    requires none { scenario.now.journal ≡ None }
    ensures done { result ≡ DONE → IsCrewRun scenario.now (K.taken sink.old) (K.taken sink.new) }
    ensures passed { result ≡ DONE → map G.refusals gates.new.items ≡ map G.refusals gates.old.items }
    ensures held { result ≡ HELD → HasAnyRefused (map G.refusals gates.old.items) (map G.refusals gates.new.items) }
    ensures count { NoneFell (map G.refusals gates.old.items) (map G.refusals gates.new.items) }
    ensures write_fault { result ≡ WRITE_FAULT → HasRisen (K.faults sink.old) (K.faults sink.new) }
    ensures start { result ≡ WRITE_FAULT → TakesReportStart scenario.now (K.taken sink.old) (K.taken sink.new) }
    ensures untouched { (result ≡ NO_MEMORY) ⊎ (result ≡ HELD) → sink.new ≡ sink.old }
    ensures status { (result ≡ DONE) ⊎ (result ≡ WRITE_FAULT) ⊎ (result ≡ NO_MEMORY) ⊎ (result ≡ HELD) }
{
    let Ok(world) = World::build(alloc, scenario) else {
        return NO_MEMORY;
    };
    // What this call says of the number of nodes is a part of the contract here: there is a gate
    // for each.
    nodes_of(scenario);
    let (world, ending) = run_crew(rt, alloc, world, gates);
    report_ending(&world, ending, sink)
}

/// Whether the scenario has a journal of its own.
fn brings_journal(scenario: &Scenario) -> bool
    ensures { result ≡ is_some scenario.now.journal }
{
    scenario.journal().is_some()
}

/// Runs the scenario of a text, or refuses the text, or the journal that it brings.
fn run_text<R: Threads + Wait + Sync, K: Sink, G: Gate>(
    rt: &R,
    alloc: Global,
    text: Vec<u8>,
    sink: &mut K,
    gates: &mut Vec<G>,
) -> u8
    requires gates { most_nodes ≤ vec_len gates.old }
    ensures { IsTextRun text.items (map G.refusals gates.old.items) (map G.refusals gates.new.items)
        (record { bytes = K.taken; faults = K.faults; old = sink.old; new = sink.new }) result }
{
    match scenario_in(alloc, text) {
        Ok(scenario) if brings_journal(&scenario) => refuse(&Refusal::JournalGiven, sink),
        Ok(scenario) => run_scenario(rt, alloc, &scenario, sink, gates),
        Err(fault) if is_memory(&fault) => NO_MEMORY,
        Err(fault) => refuse(&Refusal::Scenario(fault), sink),
    }
}

/// Runs by threads: reads a scenario text from the source, runs the scenario by a thread for each
/// node and one for the bus, and writes the report to the sink. The report is written a page of
/// lines at a time. Its journal is the one that the threads made, and it prints that journal.
///
/// It answers the status of the program, one of those in `status` here and in `cany_command`. The
/// words are the one word `run`. Causes are looked at in this order: the words, the reading, the
/// text, a journal in the scenario, the gates, the writing.
///
/// The gate at place i is that of node i, and after the call the counts of the gates stand at their
/// old places. The call may wait for its threads.
///
/// Promise: at status 0 the report of a run of the scenario by the journal that it prints was
/// written, and no count of a gate rose. That journal is legal and whole, the run has integrity,
/// and within the hypothesis it is safe. Where no stream fails and no gate refuses, words and text
/// decide the status, or it is 6; all of it if the call returns.
///
/// Answers: 0 only where the bytes stand for a scenario without a journal: a report of its run was
/// written. 2 exactly where the words are not the one word `run`; nothing is read. 3 only where the
/// bytes stand for no scenario, or the scenario brings a journal: exactly the line of that was
/// written. 4 only where the source's count of faults rose. 5 only where the sink's count rose: a
/// prefix of such a report or of that line was taken. 6: out of memory. 7 only where the source has
/// more than 33,554,432 bytes. 8 only where the count of a gate rose, and the text is none that is
/// refused. At 0, 3, 5 and 8 all was read, at 2, 4, 6, 7 and 8 nothing is written. There is no
/// other status.
///
/// Shown by: `other_words_read_nothing`, `a_given_journal_is_refused`, `gates_overlap`,
/// `a_gate_refuses`, `threads_replay`, `each_read_fails_in_turn`, `each_write_fails_in_turn`,
/// `.ci/calls.py`, `top_always_held`, `top_always_refused`, `top_always_read_fault`,
/// `top_always_write_fault`, `benches/refusals.py`.
pub fn run_top<R: Threads + Wait + Sync, S: Source, K: Sink, G: Gate>(
    rt: &R,
    alloc: Global,
    words: &[String],
    source: &mut S,
    sink: &mut K,
    gates: &mut Vec<G>,
) -> u8
    requires { most_nodes ≤ vec_len gates.old }

    // The words alone decide on this status.
    ensures words { (result ≡ OTHER_WORDS) ↔ (AreRun (map string_bytes words.now) → ⊥) }
    ensures unread { result ≡ OTHER_WORDS → source.new ≡ source.old }

    // Success. Here and below, `bytes` are all that the source had.
    ensures done { result ≡ DONE → IfSome (S.left source.old) (λ bytes. IsOkAnd (scenario_of bytes) (λ scenario.
        IsCrewRun scenario (K.taken sink.old) (K.taken sink.new))) }

    // The text is refused, or the scenario for the journal that it brings.
    ensures refused { result ≡ REFUSED → IfSome (S.left source.old) (λ bytes. IsSomeAnd (run_refusal bytes) (λ line.
        Takes (K.taken sink.old) line (K.taken sink.new))) }

    // A run that ended, or that a gate held, is one of a text that nothing refuses.
    ensures unrefused { (result ≡ DONE) ⊎ (result ≡ HELD) → IfSome (S.left source.old) (λ bytes. run_refusal bytes ≡ None) }

    // A gate refused a pass, and in a run that was reported none did.
    ensures held { result ≡ HELD → HasAnyRefused (map G.refusals gates.old.items) (map G.refusals gates.new.items) }
    ensures passed { result ≡ DONE → map G.refusals gates.new.items ≡ map G.refusals gates.old.items }
    ensures count { NoneFell (map G.refusals gates.old.items) (map G.refusals gates.new.items) }

    // The streams fail.
    ensures read_fault { result ≡ READ_FAULT → HasRisen (S.faults source.old) (S.faults source.new) }
    ensures write_fault { result ≡ WRITE_FAULT → HasRisen (K.faults sink.old) (K.faults sink.new) }
    ensures start { result ≡ WRITE_FAULT → IfSome (S.left source.old) (λ bytes. TakesStart bytes (K.taken sink.old) (K.taken sink.new)) }

    // The source has too many bytes, or all of them were read.
    ensures too_long { result ≡ TOO_LONG → IfSome (S.left source.old) (λ bytes. most_text_bytes < length bytes) }
    ensures fits { HasAnswered result ⊎ (result ≡ HELD) → IfSome (S.left source.old) (λ bytes. length bytes ≤ most_text_bytes) }
    ensures drained { HasAnswered result ⊎ (result ≡ HELD) → IsAtEnd (S.left source.new) }

    // Nothing else writes.
    ensures unwritten { HasNoAnswer result → sink.new ≡ sink.old }
    ensures status { HasAnswered result ⊎ HasNoAnswer result }

    // Where no stream fails and no gate refuses, the text decides, but for want of memory.
    ensures complete { AreRun (map string_bytes words.now)
        → StandsStill (S.faults source.old) (S.faults source.new)
        → StandsStill (K.faults sink.old) (K.faults sink.new)
        → NoneRefused (map G.refusals gates.old.items) (map G.refusals gates.new.items)
        → IfSome (S.left source.old) (λ bytes. length bytes ≤ most_text_bytes
        → (result ≡ NO_MEMORY) ⊎ MatchOption (run_refusal bytes) (result ≡ DONE) (λ _. result ≡ REFUSED)) }
    ensures complete_too_long { AreRun (map string_bytes words.now)
        → StandsStill (S.faults source.old) (S.faults source.new)
        → IfSome (S.left source.old) (λ bytes. most_text_bytes < length bytes → (result ≡ NO_MEMORY) ⊎ (result ≡ TOO_LONG)) }
{
    if !is_only(words, "run") {
        return OTHER_WORDS;
    }
    match text_from(alloc, source) {
        Ok(text) => run_text(rt, alloc, text, sink, gates),
        Err(status) => status,
    }
}
