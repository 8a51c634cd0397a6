//! What a command is.
ghost use Rattle.std.specs.Prelude.{◌≡◌, ◌↔◌, ℕ, List, Option, Some, None, Ok, Err, map, string_bytes, IsTrue, IfErr, IfOk, OnOk};
ghost use Rattle.cany_base.specs.declared.step.Step.{Step};
ghost use Rattle.cany_base.specs.Scenario.{ScenarioParts};
ghost use Rattle.cany_command.specs.Faults.{IfRefused};
ghost use Rattle.cany_command.specs.Promises.{HasRun};
ghost use Rattle.cany_command.specs.Refused.{Chosen};
ghost use Rattle.cany_command.specs.Status.{IsNoFault};
ghost use Rattle.cany_io.specs.Faults.{HasRisen};
ghost use Rattle.cany_io.specs.Sink.{Takes, TakesPrefix};

use crate::command_fault::{AnswerFault, CommandFault};
use crate::refusal_line::RefusalLine;
use cany_base::Scenario;
use cany_io::Sink;
use cany_world::World;
use std::alloc::Global;

/// A command that reads a scenario text, runs a scenario and writes a text of the run: what its
/// words are, what it refuses, which scenario it runs and what it writes. All else is the same for
/// every command, and is said and proved once, in `perform`.
///
/// To write a new command:
///
/// 1. Define in the `specs` of its crate which words are its form, and what it writes of the run of
///    a scenario by a journal. The words stand for all that they ask for: what is written, what is
///    refused and which scenario is run are functions of the words. Put them together as one value
///    of `CommandParts`.
/// 2. Write a type for the command, mostly `struct Name;`, and its `Command`. A command of one word
///    that refuses nothing of its own writes `OneWord` instead, and is `OneWordCommand(Name)`.
/// 3. Its top call is `perform(alloc, &Name, words, source, sink)`, of one word with
///    `&OneWordCommand(Name)`. What `perform` promises is what that call promises: `IsPerformed` of
///    the command's own parts. What success says beyond that is a clause of its own.
pub trait Command {
    /// What the words ask for, apart from the command itself.
    type Plan: Drop;

    /// Why the command refuses words that are of its form, or a scenario.
    type Refusal: RefusalLine;

    /// The words are of the command's form.
    ghost are_words: { List (List ℕ) → Type 0 };

    /// The plan is the one of the words.
    ghost is_plan: { List (List ℕ) → Self.Plan → Type 0 };

    /// The line by which the command refuses the words, before the source is read.
    ghost words_refusal: { List (List ℕ) → Option (List ℕ) };

    /// The scenario that the command runs for the one that was read, or the line by which it
    /// refuses that one. A fault in the text comes before such a refusal, and a fault in the
    /// journal of the scenario that is run after it.
    ghost choose: { List (List ℕ) → ScenarioParts → Chosen };

    /// What the command writes of the run of a scenario by a journal.
    ghost text: { List (List ℕ) → ScenarioParts → List Step → List ℕ };

    /// The status of success for that run.
    ghost success: { List (List ℕ) → ScenarioParts → List Step → ℕ };

    /// The statuses of success.
    ghost is_success: { ℕ → Type 0 };

    /// Whether the words are of the command's form. It takes no memory.
    ///
    /// Promise: the answer is exact, by the command's definition.
    ///
    /// Answers: true exactly where the words are of the command's form.
    ///
    /// Shown by: `.ci/calls.py`.
    fn are_words(&self, words: &[String]) -> bool
        ensures { IsTrue result ↔ are_words (map string_bytes words.now) };

    /// The plan of words that are of the command's form.
    ///
    /// Promise: the plan is one of these words, and the command refuses none of them. At a refusal
    /// its line is the one by which the command's definition refuses the words.
    ///
    /// Shown by: `.ci/calls.py`, `one_line_down`, `two_faults_of_one_line_overlap`.
    ///
    /// # Errors
    ///
    /// `Refused` exactly where the definition refuses the words, if there is memory. `Memory`: out
    /// of memory.
    fn plan(
        &self,
        alloc: Global,
        words: &[String],
    ) -> Result<Self::Plan, CommandFault<Self::Refusal>>
        requires { are_words (map string_bytes words.now) }
        ensures plan { IfOk result (λ plan. is_plan (map string_bytes words.now) plan) }
        ensures accepted { OnOk result (words_refusal (map string_bytes words.now) ≡ None) }
        ensures refused { IfErr result (λ fault. IfRefused fault (λ refusal.
            words_refusal (map string_bytes words.now) ≡ Some (Self.Refusal.line refusal))) };

    /// The scenario that is run for the one that was read. The one that was read is dropped where
    /// another is run.
    ///
    /// Promise: the scenario is the one that the command's definition chooses for the words of the
    /// plan. At a refusal its line is the one of that definition.
    ///
    /// Shown by: `blind_slot`, `one_line_down`, `commands_give_their_answers`.
    ///
    /// # Errors
    ///
    /// `Refused` exactly where the definition refuses the scenario, if there is memory. `Memory`:
    /// out of memory.
    fn scenario(
        &self,
        alloc: Global,
        plan: &Self::Plan,
        scenario: Scenario,
    ) -> Result<Scenario, CommandFault<Self::Refusal>>
        ensures chosen { IfOk result (λ chosen. (words : List (List ℕ)) → is_plan words plan.now
            → choose words scenario ≡ Ok chosen) }
        ensures refused { IfErr result (λ fault. IfRefused fault (λ refusal. (words : List (List ℕ)) → is_plan words plan.now
            → choose words scenario ≡ Err (Self.Refusal.line refusal))) };

    /// Writes the text of a run that has ended, and answers the status of success. Where it takes
    /// memory, it does so before its first write.
    ///
    /// Promise: exactly the command's text of the run is written, and the status is the one of
    /// success that its definition gives. At `Failed` a prefix of the text is written, at `Memory`
    /// nothing.
    ///
    /// Answers: a status of success of the command, the one for this run.
    ///
    /// Shown by: `commands_give_their_answers`, `each_write_fails_in_turn`, `verdict_all_held`,
    /// `verdict_order_is_parted`.
    ///
    /// # Errors
    ///
    /// `Failed` only where the sink's count of faults rose. `Memory`: out of memory.
    fn answer<K: Sink>(
        &self,
        alloc: Global,
        plan: &Self::Plan,
        world: &World,
        sink: &mut K,
    ) -> Result<u8, AnswerFault>
        requires { HasRun world.now }
        ensures written { OnOk result ((words : List (List ℕ)) → is_plan words plan.now
            → Takes (K.taken sink.old) (text words world.now.scenario world.now.journal) (K.taken sink.new)) }
        ensures success { IfOk result (λ status. (words : List (List ℕ)) → is_plan words plan.now
            → status ≡ success words world.now.scenario world.now.journal) }
        ensures status { IfOk result (λ status. is_success status) }
        ensures failed { IfErr result (λ fault. fault ≡ AnswerFault.Failed → HasRisen (K.faults sink.old) (K.faults sink.new)) }
        ensures prefix { IfErr result (λ fault. fault ≡ AnswerFault.Failed → (words : List (List ℕ)) → is_plan words plan.now
            → TakesPrefix (K.taken sink.old) (text words world.now.scenario world.now.journal) (K.taken sink.new)) }
        ensures untouched { IfErr result (λ fault. fault ≡ AnswerFault.Memory → sink.new ≡ sink.old) };

    /// No status of success is one that a command answers where it does not succeed.
    ghost no_fault: { (status : ℕ) → is_success status → IsNoFault status };
}
