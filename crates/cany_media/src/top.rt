//! The call behind the command `media`.
ghost use Rattle.std.specs.Prelude.{◌≡◌, ◌++◌, Some, None, Ok, Err, map, string_bytes, IfErr, IfOk, IfSome, IsOkAnd, OnOk};
ghost use Rattle.cany_command.specs.Faults.{IfRefused};
ghost use Rattle.cany_command.specs.Performed.{IsPerformed};
ghost use Rattle.cany_log.specs.Written.{IsWritten};
ghost use Rattle.cany_text.specs.Report.{report};
ghost use Rattle.cany_text.specs.ScenarioText.{scenario_of};
ghost use Rattle.cany_media.specs.MediaText.{media_refusal_line};
ghost use Rattle.cany_media.specs.MediaWords.{AreMedia, media_faults};
ghost use Rattle.cany_media.specs.Top.{IsMedia, chosen_for, faults_of, media_command, overlap_refusal};

use crate::fault_words::{are_media, media_faults};
use crate::medium_lines::medium_lines;
use crate::plan::{MediaFault, MediaPlan};
use crate::refusal::MediaRefusal;
use crate::single_bus::{SingleFault, single};
use cany_base::Scenario;
use cany_command::status::DONE;
use cany_command::{AnswerFault, Command, CommandFault, RefusalLine, perform};
use cany_io::{Failed, Sink, Source, write_whole};
use cany_log::write_report;
use cany_world::World;
use std::alloc::Global;

impl RefusalLine for MediaRefusal {
    ghost use Rattle.cany_media.specs.MediaText.{media_refusal_line};

    ghost line = { media_refusal_line };

    fn write_line<K: Sink>(&self, sink: &mut K) -> Result<(), Failed> {
        write_whole(sink, self.line().as_slice())
    }
}

/// The plan of the faults that the words name.
#[tactic(auto, using(crate::proofs::TopFacts::accepted_by, crate::proofs::TopFacts::refused_by))]
fn plan_of(alloc: Global, words: &[String]) -> Result<MediaPlan, CommandFault<MediaRefusal>>
    requires { AreMedia (map string_bytes words.now) }
    ensures plan { IfOk result (λ plan. media_faults (map string_bytes words.now) ≡ Some plan) }
    ensures accepted { OnOk result (overlap_refusal (map string_bytes words.now) ≡ None) }
    ensures refused { IfErr result (λ fault. IfRefused fault (λ refusal.
        overlap_refusal (map string_bytes words.now) ≡ Some (media_refusal_line refusal))) }
{
    let Ok(faults) = media_faults(alloc, words) else {
        return Err(CommandFault::Memory);
    };
    match MediaPlan::build(alloc, &faults) {
        Ok(plan) => Ok(plan),
        Err(MediaFault::Overlap { index }) => {
            Err(CommandFault::Refused(MediaRefusal::Overlap { index }))
        }
        Err(MediaFault::Memory) => Err(CommandFault::Memory),
    }
}

/// The scenario of one bus that is run for one that was read.
#[tactic(auto, using(crate::proofs::TopFacts::chosen_few, crate::proofs::TopFacts::chosen_many))]
fn chosen(
    alloc: Global,
    plan: &MediaPlan,
    scenario: Scenario,
) -> Result<Scenario, CommandFault<MediaRefusal>>
    ensures chosen { IfOk result (λ one. chosen_for plan.now scenario ≡ Ok one) }
    ensures refused { IfErr result (λ fault. IfRefused fault (λ refusal.
        chosen_for plan.now scenario ≡ Err (media_refusal_line refusal))) }
{
    match single(alloc, &scenario, plan) {
        Ok(one) => Ok(one),
        Err(SingleFault::TooMany { rules }) => {
            Err(CommandFault::Refused(MediaRefusal::TooMany { rules }))
        }
        Err(SingleFault::Memory) => Err(CommandFault::Memory),
    }
}

fn write_text<K: Sink>(text: &[u8], sink: &mut K) -> Result<(), Failed>
    ensures { IsWritten text.now result
        (K.taken sink.old) (K.taken sink.new) (K.faults sink.old) (K.faults sink.new) }
{
    write_whole(sink, text)
}

/// Writes a text, and then the report of the run.
fn write_before_report<K: Sink>(text: &[u8], world: &World, sink: &mut K) -> Result<(), Failed>
    ensures { IsWritten (text.now ++ report world.now.scenario world.now.journal) result
        (K.taken sink.old) (K.taken sink.new) (K.faults sink.old) (K.faults sink.new) }
{
    write_text(text, sink)?;
    write_report(world, sink)
}

/// The command `media`.
struct Media;

impl Command for Media {
    type Plan = MediaPlan;

    type Refusal = MediaRefusal;

    ghost use Rattle.std.specs.Prelude.{◌≡◌, Some};
    ghost use Rattle.cany_command.specs.declared.status.TheConstants.{DONE};
    ghost use Rattle.cany_command.specs.NoFault.{done_is_no_fault};
    ghost use Rattle.cany_media.specs.MediaWords.{AreMedia, media_faults};
    ghost use Rattle.cany_media.specs.Top.{media_choice, overlap_refusal, text_of};

    ghost are_words = { AreMedia };

    ghost is_plan = { λ said plan. media_faults said ≡ Some plan };

    ghost words_refusal = { overlap_refusal };

    ghost choose = { media_choice };

    ghost text = { text_of };

    ghost success = { λ _ _ _. DONE };

    ghost is_success = { λ status. status ≡ DONE };

    fn are_words(&self, words: &[String]) -> bool {
        are_media(words)
    }

    fn plan(
        &self,
        alloc: Global,
        words: &[String],
    ) -> Result<MediaPlan, CommandFault<MediaRefusal>> {
        plan_of(alloc, words)
    }

    fn scenario(
        &self,
        alloc: Global,
        plan: &MediaPlan,
        scenario: Scenario,
    ) -> Result<Scenario, CommandFault<MediaRefusal>> {
        chosen(alloc, plan, scenario)
    }

    fn answer<K: Sink>(
        &self,
        alloc: Global,
        plan: &MediaPlan,
        world: &World,
        sink: &mut K,
    ) -> Result<u8, AnswerFault> {
        let text = medium_lines(alloc, plan.faults())?;
        write_before_report(&text, world, sink)?;
        Ok(DONE)
    }

    ghost no_fault = { done_is_no_fault };
}

/// Runs over two media: takes the faults of the lines from the words, reads a scenario text from
/// the source, and runs the scenario of one bus that stands for both lines. It writes a line for
/// each fault and the report of the run to the sink. The run is by the scenario's own journal or,
/// where it has none, by its round robin journal.
///
/// It answers the status of the program, one of those in `cany_command::status`. The words are
/// `media` and any number of words `LINE:FROM-TO:down` and `LINE:FROM-TO:split:SET`. Causes are
/// looked at in this order: the words, faults that share a slot, the reading, the text, too many
/// slots without a whole line, the journal, the writing.
///
/// Promise: at status 0 a line for each fault and the report of the scenario of one bus were
/// written, exactly. Its run is the run over two lines; its journal is legal and whole, the run has
/// integrity, and within the hypothesis it is safe. Where no stream fails, words and text decide
/// the status, or it is 6.
///
/// Answers: 0 where these lines were written. 2 exactly where the words are not `media` and then
/// faults of lines; nothing is read. 3 only where two faults of a line share a slot, the bytes
/// stand for no scenario, that of one bus has too many rules, or its journal is not legal or not
/// whole. Exactly the line of the first of these was written. 4 only where the source's count of
/// faults rose. 5 only where the sink's count rose: a prefix was taken. 6: out of memory. 7 only
/// where the source has more than 33,554,432 bytes. At 0, 3 and 5 all was read, at 2, 4, 6 and 7
/// nothing is written. But where two faults of a line share a slot, nothing is read, and the status
/// is 3, 5 or 6. There is no other status.
///
/// Shown by: `commands_give_their_answers`, `one_line_down`, `blind_slot`,
/// `two_faults_of_one_line_overlap`, `.ci/calls.py`, `the_faults_are_not_written`.
pub fn media_top<S: Source, K: Sink>(
    alloc: Global,
    words: &[String],
    source: &mut S,
    sink: &mut K,
) -> u8
    // Each answer has its cause.
    ensures answered { IsPerformed media_command (map string_bytes words.now)
        (record { bytes = S.left; faults = S.faults; old = source.old; new = source.new })
        (record { bytes = K.taken; faults = K.faults; old = sink.old; new = sink.new }) result }

    // What success says of the run over two media. Here `said` are the words, and `bytes` all that
    // the source had.
    ensures done { let said = map string_bytes words.now in result ≡ DONE → IfSome (S.left source.old) (λ bytes. IsOkAnd (scenario_of bytes) (λ scenario.
        IsMedia (faults_of said) scenario (K.taken sink.old) (K.taken sink.new))) }
{
    perform(alloc, &Media, words, source, sink)
}
