//! The call behind the command `watch`.
ghost use Rattle.std.specs.Prelude.{◌≡◌, ◌⊎◌, ◌<◌, ℕ, List, map, string_bytes, Some, None, Ok, Err, IfErr, IfOk, IsOkAnd, IsSomeAnd, OnOk};
ghost use Rattle.cany_command.specs.Answers.{IsAnswered, OfChosen, answer_by, answer_for, answer_if};
ghost use Rattle.cany_command.specs.Performed.{IsPerformed};
ghost use Rattle.cany_command.specs.Refused.{chosen_refusal, own_fault, refusal_by};
ghost use Rattle.cany_io.specs.Faults.{HasRisen};
ghost use Rattle.cany_io.specs.Sink.{Takes, TakesPrefix};
ghost use Rattle.cany_model.specs.Runs.Follow.{journal_of};
ghost use Rattle.cany_text.specs.RefusalLines.{journal_refusal_line};
ghost use Rattle.cany_watch.specs.Lines.{nodes_of};
ghost use Rattle.cany_watch.specs.Top as watch;
ghost use Rattle.cany_watch.specs.Top.{watch_command};
ghost use Rattle.cany_watch.specs.WatchText.{no_node_line};
ghost use Rattle.cany_watch.specs.WatchWords.{watched_node};

use crate::text::{write_no_node, write_watched};
use crate::watching::watched;
use crate::words::watched_node;
use cany_base::{NodeId, Scenario};
use cany_command::status::{DONE, NO_MEMORY, OTHER_WORDS, REFUSED, WRITE_FAULT};
use cany_command::{RefusalLine, RunFault, is_memory, refuse, run, scenario_in, text_from};
use cany_io::{Failed, Sink, Source};
use cany_log::Refusal;
use cany_world::World;
use std::alloc::Global;
use std::sync::Wait;
use std::thread::Threads;

/// The refusal of a node that the scenario does not have.
#[derive(Clone, Copy)]
struct NoNode {
    node: u8,
}

impl RefusalLine for NoNode {
    ghost use Rattle.cany_watch.specs.WatchText.{no_node_line};

    ghost line = { λ refusal. no_node_line refusal.node };

    fn write_line<K: Sink>(&self, sink: &mut K) -> Result<(), Failed> {
        write_no_node(self.node, sink)
    }
}

/// The node of this number, or the refusal of one that the scenario does not have.
#[tactic(auto, using(crate::proofs::TopFacts::has_node, crate::proofs::TopFacts::lacks_node))]
fn node_of(node: u8, scenario: &Scenario) -> Result<NodeId, NoNode>
    ensures same { IfOk result (λ found. found ≡ node) }
    ensures below { IfOk result (λ found. found < scenario.now.params.nodes) }
    ensures chosen { OnOk result ((words : List (List ℕ)) → watched_node words ≡ Some node → watch.choose words scenario.now ≡ Ok scenario.now) }
    ensures refused { IfErr result (λ refusal. (words : List (List ℕ)) → watched_node words ≡ Some node
        → watch.choose words scenario.now ≡ Err (no_node_line refusal.node)) }
{
    if node < scenario.params().nodes {
        Ok(NodeId::new(node).unwrap())
    } else {
        Err(NoNode { node })
    }
}

/// Watches the node in the run of a world, which is made again, and writes its line, or answers the
/// status. Nothing is written before that run has ended.
fn watch_world<R: Threads + Wait + Sync, K: Sink>(
    rt: &R,
    alloc: Global,
    node: NodeId,
    world: &World,
    sink: &mut K,
) -> Result<(), u8>
    requires node { node < nodes_of world.now }
    requires run { world.now.journal ≡ journal_of world.now.scenario }
    ensures written { OnOk result ((words : List (List ℕ)) → watched_node words ≡ Some node
        → Takes (K.taken sink.old) (watch.text words world.now.scenario world.now.journal) (K.taken sink.new)) }
    ensures write_fault { IfErr result (λ status. status ≡ WRITE_FAULT → HasRisen (K.faults sink.old) (K.faults sink.new)) }
    ensures prefix { IfErr result (λ status. status ≡ WRITE_FAULT → (words : List (List ℕ)) → watched_node words ≡ Some node
        → TakesPrefix (K.taken sink.old) (watch.text words world.now.scenario world.now.journal) (K.taken sink.new)) }
    ensures untouched { IfErr result (λ status. status ≡ NO_MEMORY → sink.new ≡ sink.old) }
    ensures other { IfErr result (λ status. (status ≡ WRITE_FAULT) ⊎ (status ≡ NO_MEMORY)) }
{
    let Ok(reads) = watched(rt, alloc, node, world) else {
        return Err(NO_MEMORY);
    };
    match write_watched(node.get(), reads.as_slice(), sink) {
        Ok(()) => Ok(()),
        Err(Failed) => Err(WRITE_FAULT),
    }
}

/// Runs a scenario and watches the node in its run, or refuses the journal of the scenario.
fn watch_run<R: Threads + Wait + Sync, K: Sink>(
    rt: &R,
    alloc: Global,
    node: NodeId,
    scenario: Scenario,
    sink: &mut K,
) -> Result<(), u8>
    requires { node < scenario.params.nodes }
    ensures done { OnOk result ((words : List (List ℕ)) → watched_node words ≡ Some node
        → IsAnswered (watch.text words) scenario (K.taken sink.old) (K.taken sink.new)) }
    ensures followed { OnOk result (own_fault scenario ≡ None) }
    ensures refused { IfErr result (λ status. status ≡ REFUSED → IsSomeAnd (own_fault scenario) (λ fault.
        Takes (K.taken sink.old) (journal_refusal_line fault) (K.taken sink.new))) }
    ensures write_fault { IfErr result (λ status. status ≡ WRITE_FAULT → HasRisen (K.faults sink.old) (K.faults sink.new)) }
    ensures prefix { IfErr result (λ status. status ≡ WRITE_FAULT → (words : List (List ℕ)) → watched_node words ≡ Some node
        → TakesPrefix (K.taken sink.old) (answer_for (watch.text words) scenario) (K.taken sink.new)) }
    ensures untouched { IfErr result (λ status. status ≡ NO_MEMORY → sink.new ≡ sink.old) }
    ensures other { IfErr result (λ status. (status ≡ REFUSED) ⊎ (status ≡ WRITE_FAULT) ⊎ (status ≡ NO_MEMORY)) }
{
    match run(alloc, scenario) {
        Ok(world) => watch_world(rt, alloc, node, &world, sink),
        Err(RunFault::Journal(fault)) => Err(refuse(&Refusal::Journal(fault), sink)),
        Err(RunFault::Memory) => Err(NO_MEMORY),
    }
}

/// Runs a scenario and watches the node in its run, or refuses the scenario for the node that it
/// does not have, or for its journal.
fn watch_scenario<R: Threads + Wait + Sync, K: Sink>(
    rt: &R,
    alloc: Global,
    node: u8,
    scenario: Scenario,
    sink: &mut K,
) -> Result<(), u8>
    ensures done { OnOk result ((words : List (List ℕ)) → watched_node words ≡ Some node → IsOkAnd (watch.choose words scenario) (λ chosen.
        IsAnswered (watch.text words) chosen (K.taken sink.old) (K.taken sink.new))) }
    ensures accepted { OnOk result ((words : List (List ℕ)) → watched_node words ≡ Some node
        → chosen_refusal (watch.choose words scenario) ≡ None) }
    ensures refused { IfErr result (λ status. status ≡ REFUSED → (words : List (List ℕ)) → watched_node words ≡ Some node
        → IsSomeAnd (chosen_refusal (watch.choose words scenario)) (λ line. Takes (K.taken sink.old) line (K.taken sink.new))) }
    ensures write_fault { IfErr result (λ status. status ≡ WRITE_FAULT → HasRisen (K.faults sink.old) (K.faults sink.new)) }
    ensures prefix { IfErr result (λ status. status ≡ WRITE_FAULT → (words : List (List ℕ)) → watched_node words ≡ Some node
        → TakesPrefix (K.taken sink.old) (answer_if (watch.text words) (watch.choose words scenario)) (K.taken sink.new)) }
    ensures untouched { IfErr result (λ status. status ≡ NO_MEMORY → sink.new ≡ sink.old) }
    ensures other { IfErr result (λ status. (status ≡ REFUSED) ⊎ (status ≡ WRITE_FAULT) ⊎ (status ≡ NO_MEMORY)) }
{
    match node_of(node, &scenario) {
        Ok(found) => watch_run(rt, alloc, found, scenario, sink),
        Err(refusal) => Err(refuse(&refusal, sink)),
    }
}

/// Runs the scenario of a text and watches the node in its run, or refuses the text, the scenario
/// for the node that it does not have, or its journal.
fn watch_text<R: Threads + Wait + Sync, K: Sink>(
    rt: &R,
    alloc: Global,
    node: u8,
    text: Vec<u8>,
    sink: &mut K,
) -> Result<(), u8>
    ensures done { OnOk result ((words : List (List ℕ)) → watched_node words ≡ Some node → OfChosen (watch.choose words) text.items (λ chosen.
        IsAnswered (watch.text words) chosen (K.taken sink.old) (K.taken sink.new))) }
    ensures accepted { OnOk result ((words : List (List ℕ)) → watched_node words ≡ Some node → refusal_by (watch.choose words) text.items ≡ None) }
    ensures refused { IfErr result (λ status. status ≡ REFUSED → (words : List (List ℕ)) → watched_node words ≡ Some node
        → IsSomeAnd (refusal_by (watch.choose words) text.items) (λ line. Takes (K.taken sink.old) line (K.taken sink.new))) }
    ensures write_fault { IfErr result (λ status. status ≡ WRITE_FAULT → HasRisen (K.faults sink.old) (K.faults sink.new)) }
    ensures prefix { IfErr result (λ status. status ≡ WRITE_FAULT → (words : List (List ℕ)) → watched_node words ≡ Some node
        → TakesPrefix (K.taken sink.old) (answer_by (watch.text words) (watch.choose words) text.items) (K.taken sink.new)) }
    ensures untouched { IfErr result (λ status. status ≡ NO_MEMORY → sink.new ≡ sink.old) }
    ensures other { IfErr result (λ status. (status ≡ REFUSED) ⊎ (status ≡ WRITE_FAULT) ⊎ (status ≡ NO_MEMORY)) }
{
    match scenario_in(alloc, text) {
        Ok(scenario) => watch_scenario(rt, alloc, node, scenario, sink),
        Err(fault) if is_memory(&fault) => Err(NO_MEMORY),
        Err(fault) => Err(refuse(&Refusal::Scenario(fault), sink)),
    }
}

/// Watches a node: reads a scenario text from the source, runs the scenario, and writes the logs of
/// the node's incarnations, one after the other, to the sink, a line at a time. A second thread
/// reads what is published of the node while the scenario runs. The run is by the scenario's own
/// journal or, where it has none, by its round robin journal.
///
/// It answers the status of the program, one of those in `cany_command::status`. The words are the
/// word `watch` and the number of a node, in 1 or 2 digits. Causes are looked at in this order: the
/// words, the reading, the text, the node, the journal, the writing. It may wait.
///
/// Promise: at status 0 exactly the text of the node's line in the scenario's run was written. The
/// journal is legal and whole, the run has integrity, and within the hypothesis it is safe. Where
/// no stream fails, words and text decide the status, or it is 6; all of it if the call returns.
///
/// Answers: 0 only where the bytes stand for a scenario that has the node, and whose own journal,
/// if any, is legal and whole: its text was written. 2 exactly where the words are not `watch` and
/// a number of 1 or 2 digits; nothing is read. 3 only where the bytes stand for no scenario, the
/// scenario does not have the node, or its own journal is not legal or not whole. Exactly the line
/// of the first of these was written. 4 only where the source's count of faults rose. 5 only where
/// the sink's count rose: a prefix of the text or of that line was taken. 6: out of memory. 7 only
/// where the source has more than 33,554,432 bytes. At 0, 3 and 5 all was read, at 2, 4, 6 and 7
/// nothing is written. There is no other status.
///
/// Shown by: `.ci/calls.py`, `watch_one_node`, `watch_two_incarnations`, `watch_no_such_node`,
/// `a_node_that_is_not_there`, `benches/readers.py`.
pub fn watch_top<R: Threads + Wait + Sync, S: Source, K: Sink>(
    rt: &R,
    alloc: Global,
    words: &[String],
    source: &mut S,
    sink: &mut K,
) -> u8
    ensures { IsPerformed watch_command (map string_bytes words.now)
        (record { bytes = S.left; faults = S.faults; old = source.old; new = source.new })
        (record { bytes = K.taken; faults = K.faults; old = sink.old; new = sink.new }) result }
{
    let Some(node) = watched_node(words) else {
        return OTHER_WORDS;
    };
    let text = match text_from(alloc, source) {
        Ok(text) => text,
        Err(status) => return status,
    };
    match watch_text(rt, alloc, node, text, sink) {
        Ok(()) => DONE,
        Err(status) => status,
    }
}
