//! The frame of a command: each answer with its cause, for every command at once.
ghost use Rattle.std.specs.Prelude.{◌≡◌, ◌⊎◌, ℕ, List, map, string_bytes, None, IfErr, IfOk, IsOkAnd, IsSomeAnd, OnOk};
ghost use Rattle.cany_command.specs.Answers.{IsAnswered, OfChosen, answer_by, answer_if};
ghost use Rattle.cany_command.specs.Performed.{IsPerformed};
ghost use Rattle.cany_command.specs.Refused.{chosen_refusal, refusal_by};
ghost use Rattle.cany_io.specs.Faults.{HasRisen};
ghost use Rattle.cany_io.specs.Sink.{Takes, TakesPrefix};
ghost use Rattle.cany_model.specs.Runs.Follow.{journal_of};

use crate::answer::refuse;
use crate::command::Command;
use crate::command_fault::CommandFault;
use crate::concluding::conclude;
use crate::reading::{is_memory, scenario_in, text_from};
use crate::status::{NO_MEMORY, OTHER_WORDS, REFUSED, WRITE_FAULT};
use cany_base::Scenario;
use cany_io::{Sink, Source};
use cany_log::Refusal;
use std::alloc::Global;

/// Runs the scenario that the command chooses for one that was read, or refuses that one.
fn perform_scenario<C: Command, K: Sink>(
    alloc: Global,
    command: &C,
    plan: &C::Plan,
    scenario: Scenario,
    sink: &mut K,
) -> Result<u8, u8>
    ensures done { OnOk result ((words : List (List ℕ)) → C.is_plan words plan.now → IsOkAnd (C.choose words scenario) (λ chosen.
        IsAnswered (C.text words) chosen (K.taken sink.old) (K.taken sink.new))) }
    ensures success { IfOk result (λ status. (words : List (List ℕ)) → C.is_plan words plan.now → IsOkAnd (C.choose words scenario) (λ chosen.
        status ≡ C.success words chosen (journal_of chosen))) }
    ensures accepted { OnOk result ((words : List (List ℕ)) → C.is_plan words plan.now → chosen_refusal (C.choose words scenario) ≡ None) }
    ensures status { IfOk result (λ status. C.is_success status) }
    ensures refused { IfErr result (λ status. status ≡ REFUSED → (words : List (List ℕ)) → C.is_plan words plan.now
        → IsSomeAnd (chosen_refusal (C.choose words scenario)) (λ line. Takes (K.taken sink.old) line (K.taken sink.new))) }
    ensures write_fault { IfErr result (λ status. status ≡ WRITE_FAULT → HasRisen (K.faults sink.old) (K.faults sink.new)) }
    ensures prefix { IfErr result (λ status. status ≡ WRITE_FAULT → (words : List (List ℕ)) → C.is_plan words plan.now
        → TakesPrefix (K.taken sink.old) (answer_if (C.text words) (C.choose words scenario)) (K.taken sink.new)) }
    ensures untouched { IfErr result (λ status. status ≡ NO_MEMORY → sink.new ≡ sink.old) }
    ensures other { IfErr result (λ status. (status ≡ REFUSED) ⊎ (status ≡ WRITE_FAULT) ⊎ (status ≡ NO_MEMORY)) }
{
    match command.scenario(alloc, plan, scenario) {
        Ok(chosen) => conclude(alloc, command, plan, chosen, sink),
        Err(CommandFault::Refused(refusal)) => Err(refuse(&refusal, sink)),
        Err(CommandFault::Memory) => Err(NO_MEMORY),
    }
}

/// Runs the scenario that the command chooses for that of a text, or refuses the text.
fn perform_text<C: Command, K: Sink>(
    alloc: Global,
    command: &C,
    plan: &C::Plan,
    text: Vec<u8>,
    sink: &mut K,
) -> Result<u8, u8>
    ensures done { OnOk result ((words : List (List ℕ)) → C.is_plan words plan.now → OfChosen (C.choose words) text.items (λ chosen.
        IsAnswered (C.text words) chosen (K.taken sink.old) (K.taken sink.new))) }
    ensures success { IfOk result (λ status. (words : List (List ℕ)) → C.is_plan words plan.now → OfChosen (C.choose words) text.items (λ chosen.
        status ≡ C.success words chosen (journal_of chosen))) }
    ensures accepted { OnOk result ((words : List (List ℕ)) → C.is_plan words plan.now → refusal_by (C.choose words) text.items ≡ None) }
    ensures status { IfOk result (λ status. C.is_success status) }
    ensures refused { IfErr result (λ status. status ≡ REFUSED → (words : List (List ℕ)) → C.is_plan words plan.now
        → IsSomeAnd (refusal_by (C.choose words) text.items) (λ line. Takes (K.taken sink.old) line (K.taken sink.new))) }
    ensures write_fault { IfErr result (λ status. status ≡ WRITE_FAULT → HasRisen (K.faults sink.old) (K.faults sink.new)) }
    ensures prefix { IfErr result (λ status. status ≡ WRITE_FAULT → (words : List (List ℕ)) → C.is_plan words plan.now
        → TakesPrefix (K.taken sink.old) (answer_by (C.text words) (C.choose words) text.items) (K.taken sink.new)) }
    ensures untouched { IfErr result (λ status. status ≡ NO_MEMORY → sink.new ≡ sink.old) }
    ensures other { IfErr result (λ status. (status ≡ REFUSED) ⊎ (status ≡ WRITE_FAULT) ⊎ (status ≡ NO_MEMORY)) }
{
    match scenario_in(alloc, text) {
        Ok(scenario) => perform_scenario(alloc, command, plan, scenario, sink),
        Err(fault) if is_memory(&fault) => Err(NO_MEMORY),
        Err(fault) => Err(refuse(&Refusal::Scenario(fault), sink)),
    }
}

/// Performs a command: reads a scenario text from the source, runs the scenario that the command
/// chooses, and writes the command's text of the run to the sink. The run is by the own journal of
/// the chosen scenario or, where it has none, by its round robin journal.
///
/// What is due for the words and the bytes is done, a stream fails, or there is no memory:
/// `IsPerformed` says this. Causes are looked at in this order: the words, the command's refusal of
/// them, the reading, the text, the command's refusal of the scenario, the journal, the writing.
///
/// Promise: at success exactly the command's text of the run of the scenario that it chooses was
/// written. The journal is legal and whole, the run has integrity, and within the hypothesis it is
/// safe. Where no stream fails, words and text decide the status, or it is 6.
///
/// Answers: a status of success of the command where its text was written, the one for this run. 2
/// exactly where the words are not of its form; nothing is read. 3 only where words, text, scenario
/// or journal are refused: exactly the line of the first fault was written. 4 only where the
/// source's count of faults rose. 5 only where the sink's count rose: a prefix was taken. 6: out of
/// memory. 7 only where the source has more than 33,554,432 bytes. At success, 3 and 5 all was
/// read, at 2, 4, 6 and 7 nothing is written. If the command refuses its words, nothing is read,
/// and the status is 3, 5 or 6.
///
/// Shown by: `commands_give_their_answers`, `each_read_fails_in_turn`, `each_write_fails_in_turn`,
/// `.ci/calls.py`, `.ci/refusals.py`, `refused_words_are_other_words`,
/// `want_of_memory_is_a_refusal`, `a_failed_sink_is_want_of_memory`.
pub fn perform<C: Command, S: Source, K: Sink>(
    alloc: Global,
    command: &C,
    words: &[String],
    source: &mut S,
    sink: &mut K,
) -> u8
    ensures { IsPerformed (record {
      are_words = C.are_words;
      words_refusal = C.words_refusal;
      choose = C.choose;
      text = C.text;
      success = C.success;
      is_success = C.is_success;
    }) (map string_bytes words.now)
        (record { bytes = S.left; faults = S.faults; old = source.old; new = source.new })
        (record { bytes = K.taken; faults = K.faults; old = sink.old; new = sink.new }) result }
{
    if !command.are_words(words) {
        return OTHER_WORDS;
    }
    let plan = match command.plan(alloc, words) {
        Ok(plan) => plan,
        Err(CommandFault::Refused(refusal)) => return refuse(&refusal, sink),
        Err(CommandFault::Memory) => return NO_MEMORY,
    };
    let text = match text_from(alloc, source) {
        Ok(text) => text,
        Err(status) => return status,
    };
    // Each arm returns by itself, so that each is a goal of its own.
    match perform_text(alloc, command, &plan, text, sink) {
        Ok(status) => return status,
        Err(status) => return status,
    }
}
