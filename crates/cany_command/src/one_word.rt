//! The commands of one word.
ghost use Rattle.std.specs.Prelude.{◌≡◌, ℕ, List};
ghost use Rattle.cany_command.specs.Due.{RunText};
ghost use Rattle.cany_log.specs.Written.{IsWritten};

use crate::command::Command;
use crate::command_fault::{AnswerFault, CommandFault};
use crate::refusal_line::NoRefusal;
use crate::status::DONE;
use crate::words::is_only;
use cany_base::Scenario;
use cany_io::{Failed, Sink};
use cany_world::World;
use std::alloc::Global;

/// A command of one word that refuses nothing of its own, runs the scenario that was read, and
/// writes a text of the run for which it takes no memory. `OneWordCommand` is it as a `Command`.
pub trait OneWord {
    /// The word.
    ghost word: { List ℕ };

    /// What the command writes of the run of a scenario by a journal.
    ghost text: { RunText };

    /// The word.
    ///
    /// Promise: the word of the command.
    ///
    /// Shown by: `commands_give_their_answers`, `other_words_read_nothing`.
    fn word(&self) -> &'static str
        ensures { result.now ≡ word };

    /// Writes the text of a run.
    ///
    /// Promise: exactly the command's text of the world's scenario and journal is written, or at a
    /// failure a prefix of it.
    ///
    /// Shown by: `commands_give_their_answers`, `each_write_fails_in_turn`, `nothing_is_reported`.
    ///
    /// # Errors
    ///
    /// `Failed` only where the sink's count of faults rose.
    fn write<K: Sink>(&self, world: &World, sink: &mut K) -> Result<(), Failed>
        ensures { IsWritten (text world.now.scenario world.now.journal) result
            (K.taken sink.old) (K.taken sink.new) (K.faults sink.old) (K.faults sink.new) };
}

/// A command of one word, as a command.
pub struct OneWordCommand<C>(pub C);

impl<C: OneWord> Command for OneWordCommand<C> {
    type Plan = ();

    type Refusal = NoRefusal;

    ghost use Rattle.std.specs.Prelude.{◌≡◌, None};
    ghost use Rattle.cany_command.specs.declared.status.TheConstants.{DONE};
    ghost use Rattle.cany_command.specs.NoFault.{done_is_no_fault};
    ghost use Rattle.cany_command.specs.Performed.{AreOnly};
    ghost use Rattle.cany_command.specs.Refused.{as_read};

    ghost are_words = { AreOnly C.word };

    ghost is_plan = { λ _ _. Unit {0} };

    ghost words_refusal = { λ _. None };

    ghost choose = { λ _. as_read };

    ghost text = { λ _. C.text };

    ghost success = { λ _ _ _. DONE };

    ghost is_success = { λ status. status ≡ DONE };

    fn are_words(&self, words: &[String]) -> bool {
        is_only(words, self.0.word())
    }

    fn plan(&self, _alloc: Global, _words: &[String]) -> Result<(), CommandFault<NoRefusal>> {
        Ok(())
    }

    fn scenario(
        &self,
        _alloc: Global,
        _plan: &(),
        scenario: Scenario,
    ) -> Result<Scenario, CommandFault<NoRefusal>> {
        Ok(scenario)
    }

    fn answer<K: Sink>(
        &self,
        _alloc: Global,
        _plan: &(),
        world: &World,
        sink: &mut K,
    ) -> Result<u8, AnswerFault> {
        self.0.write(world, sink)?;
        Ok(DONE)
    }

    ghost no_fault = { done_is_no_fault };
}
