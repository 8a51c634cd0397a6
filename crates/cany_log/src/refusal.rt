ghost use Rattle.cany_text.specs.RefusalLines.{journal_given_line};
ghost use Rattle.cany_log.specs.Refusals.{refusal_line};
ghost use Rattle.cany_log.specs.Written.{IsWritten};

use crate::journal_refusal::write_journal_refusal;
use crate::line::write_line;
use crate::scenario_refusal::write_scenario_refusal;
use cany_io::{Failed, Sink};
use cany_model::FollowFault;
use cany_text::ScenarioFault;

/// Why there is no report of a text.
#[derive(Clone, Copy)]
pub enum Refusal {
    /// It is no scenario.
    Scenario(ScenarioFault),
    /// Its journal is not legal, or not whole.
    Journal(FollowFault),
    /// It brings its own journal, where the journal is made.
    JournalGiven,
}

#[tactic(auto, unfolding(cany_text::specs::RefusalLines::journal_given_line))]
fn write_journal_given<K: Sink>(sink: &mut K) -> Result<(), Failed>
    ensures { IsWritten journal_given_line result
        (K.taken sink.old) (K.taken sink.new) (K.faults sink.old) (K.faults sink.new) }
{
    write_line("refused journal given to run", &[], sink)
}

/// Writes the line of a refusal. It takes no memory. That there was no memory is no fault of the
/// text and has no line: nothing is written.
///
/// Promise: exactly the line of the refusal is written, or at a failure a prefix of it.
///
/// Shown by: `.ci/refusals.py`, `the_write_of_a_refusal_fails`, `empty_text`, `refused_journal`.
///
/// # Errors
///
/// `Failed` only where the sink's count of faults rose.
pub fn write_refusal<K: Sink>(refusal: &Refusal, sink: &mut K) -> Result<(), Failed>
    ensures { IsWritten (refusal_line refusal.now) result
        (K.taken sink.old) (K.taken sink.new) (K.faults sink.old) (K.faults sink.new) }
{
    match *refusal {
        Refusal::Scenario(fault) => write_scenario_refusal(fault, sink),
        Refusal::Journal(fault) => write_journal_refusal(fault, sink),
        Refusal::JournalGiven => write_journal_given(sink),
    }
}
