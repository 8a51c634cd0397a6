//! The call behind the command `check`.
ghost use Rattle.std.specs.Prelude.{map, string_bytes, IfSome, IsOkAnd};
ghost use Rattle.cany_command.specs.Performed.{IsPerformed};
ghost use Rattle.cany_text.specs.ScenarioText.{scenario_of};
ghost use Rattle.cany_check.specs.Top.{IsCheck, IsVerdict, check_command};

use crate::account::making::account_of;
use crate::deciders::judging::judge;
use crate::text::write_check;
use crate::unused_entries::idle_entries::unused;
use cany_base::Scenario;
use cany_command::{AnswerFault, Command, CommandFault, NoRefusal, is_only, perform};
use cany_io::{Sink, Source};
use cany_world::World;
use std::alloc::Global;

/// The command `check`.
struct Check;

impl Command for Check {
    type Plan = ();

    type Refusal = NoRefusal;

    ghost use Rattle.std.specs.Prelude.{None, codes};
    ghost use Rattle.cany_command.specs.Performed.{AreOnly};
    ghost use Rattle.cany_command.specs.Refused.{as_read};
    ghost use Rattle.cany_check.specs.Texts.CheckText.{check_text};
    ghost use Rattle.cany_check.specs.NoFault.{verdict_is_no_fault};
    ghost use Rattle.cany_check.specs.Top.{IsVerdict, check_status};

    ghost are_words = { AreOnly (codes "check") };

    ghost is_plan = { λ _ _. Unit {0} };

    ghost words_refusal = { λ _. None };

    ghost choose = { λ _. as_read };

    ghost text = { λ _. check_text };

    ghost success = { λ _. check_status };

    ghost is_success = { IsVerdict };

    fn are_words(&self, words: &[String]) -> bool {
        is_only(words, "check")
    }

    fn plan(&self, _alloc: Global, _words: &[String]) -> Result<(), CommandFault<NoRefusal>> {
        Ok(())
    }

    fn scenario(
        &self,
        _alloc: Global,
        _plan: &(),
        scenario: Scenario,
    ) -> Result<Scenario, CommandFault<NoRefusal>> {
        Ok(scenario)
    }

    fn answer<K: Sink>(
        &self,
        alloc: Global,
        _plan: &(),
        world: &World,
        sink: &mut K,
    ) -> Result<u8, AnswerFault> {
        let account = account_of(alloc, world)?;
        let findings = judge(alloc, &account)?;
        let unused = unused(alloc, world)?;
        write_check(&account, &findings, world.hypothesis(), &unused, sink)?;
        Ok(findings.status())
    }

    ghost no_fault = { verdict_is_no_fault };
}

/// Judges a run: reads a scenario text from the source, runs the scenario, and writes the verdict
/// to the sink, a line at a time. The verdict says of each part of the promise whether it held,
/// which nodes have each message and each failure sign, and which entries of the scenario did
/// nothing. The run is by the scenario's own journal or, where it has none, by its round robin
/// journal.
///
/// It answers the status of the program: one of those in `cany_command::status`, or `BROKEN` or
/// `OPEN`. The words are the one word `check`. Causes are looked at in this order: the words, the
/// reading, the text, the journal, the writing.
///
/// Promise: at status 0, 9 or 10 exactly the verdict of the scenario's run was written, and the
/// status is that of the verdict. The journal is legal and whole, the run has integrity, and within
/// the hypothesis it is safe. Where no stream fails, words and text decide the status, or it is 6.
///
/// Answers: 9 exactly where the verdict was written and the promise is not kept in this run
/// (`KeepsPromise`). 10 exactly where it was written, the promise is kept, and a message or a sign
/// is open (`IsOpen`). 0 where it was written and neither holds. 2 exactly where the words are not
/// the one word `check`; nothing is read. 3 only where the bytes stand for no scenario, or its own
/// journal is not legal or not whole: exactly the line of the first fault was written. 4 only where
/// the source's count of faults rose. 5 only where the sink's count rose: a prefix of the text or
/// of that line was taken. 6: out of memory. 7 only where the source has more than 33,554,432
/// bytes. At 0, 3, 5, 9 and 10 all was read, at 2, 4, 6 and 7 nothing is written. There is no other
/// status.
///
/// Shown by: `commands_give_their_answers`, `an_account_is_judged`, `an_account_is_broken`,
/// `verdict_all_held`, `verdict_order_is_parted`, `verdict_sign_is_open`, `.ci/calls.py`,
/// `each_write_fails_in_turn`.
pub fn check_top<S: Source, K: Sink>(
    alloc: Global,
    words: &[String],
    source: &mut S,
    sink: &mut K,
) -> u8
    // Each answer has its cause.
    ensures answered { IsPerformed check_command (map string_bytes words.now)
        (record { bytes = S.left; faults = S.faults; old = source.old; new = source.new })
        (record { bytes = K.taken; faults = K.faults; old = sink.old; new = sink.new }) result }

    // What a status of success says of the run. Here `bytes` are all that the source had.
    ensures done { IsVerdict result → IfSome (S.left source.old) (λ bytes. IsOkAnd (scenario_of bytes) (λ scenario.
        IsCheck scenario result (K.taken sink.old) (K.taken sink.new))) }
{
    perform(alloc, &Check, words, source, sink)
}
