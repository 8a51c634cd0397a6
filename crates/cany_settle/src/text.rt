//! The text of a run: whether it was long enough.
ghost use Rattle.std.specs.Prelude.{◌≡◌, ◌≤◌, length};
ghost use Rattle.std.specs.List.{concat};
ghost use Rattle.cany_log.specs.Written.{IsWritten};
ghost use Rattle.cany_settle.specs.TailText as text;
ghost use Rattle.cany_settle.specs.TailText.{tail_text};
ghost use Rattle.cany_world.specs.World.{state_of};

use crate::events::last_event;
use crate::length::{needed, tail};
use cany_io::{Failed, Sink};
use cany_log::{TextField, write_hypothesis, write_settled, write_short_line};
use cany_world::World;

/// Writes a line of a word.
#[tactic(auto, unfolding(crate::specs::TailText::word_line, cany_text::specs::ReportLines::line_of))]
fn write_word<K: Sink>(word: &'static str, sink: &mut K) -> Result<(), Failed>
    requires { length word.now ≤ 16 }
    ensures { IsWritten (text.word_line word.now) result
        (K.taken sink.old) (K.taken sink.new) (K.faults sink.old) (K.faults sink.new) }
{
    write_short_line(word, &[], sink)
}

/// Writes a line of a word and a number.
#[tactic(auto, unfolding(crate::specs::TailText::number_line, cany_text::specs::ReportLines::line_of))]
fn write_number<K: Sink>(word: &'static str, number: u64, sink: &mut K) -> Result<(), Failed>
    requires { length word.now ≤ 16 }
    ensures { IsWritten (text.number_line word.now number) result
        (K.taken sink.old) (K.taken sink.new) (K.faults sink.old) (K.faults sink.new) }
{
    write_short_line(word, &[TextField::Number(number)], sink)
}

/// Writes whether the run was long enough, or how long it would have to be.
fn write_enough<K: Sink>(world: &World, sink: &mut K) -> Result<(), Failed>
    ensures { IsWritten (text.enough_line world.now.scenario (state_of world.now)) result
        (K.taken sink.old) (K.taken sink.new) (K.faults sink.old) (K.faults sink.new) }
{
    let needed = needed(world);
    if needed <= world.scenario().params().slots {
        write_word("enough", sink)
    } else {
        write_number("short", needed, sink)
    }
}

/// Writes the same, where the scenario has no restarts: of one that has, nothing is claimed.
fn write_claim<K: Sink>(world: &World, sink: &mut K) -> Result<(), Failed>
    ensures { IsWritten (text.claim_line world.now.scenario (state_of world.now)) result
        (K.taken sink.old) (K.taken sink.new) (K.faults sink.old) (K.faults sink.new) }
{
    if world.scenario().restarts().is_empty() {
        write_enough(world, sink)
    } else {
        write_word("unclaimed", sink)
    }
}

/// Writes the lengths: the tail, the last event and the slots.
fn write_lengths<K: Sink>(world: &World, sink: &mut K) -> Result<(), Failed>
    ensures { IsWritten (concat (text.lengths_lines world.now.scenario (state_of world.now))) result
        (K.taken sink.old) (K.taken sink.new) (K.faults sink.old) (K.faults sink.new) }
{
    write_number("tail", tail(world.scenario()), sink)?;
    write_number("last", last_event(world), sink)?;
    write_number("slots", world.scenario().params().slots, sink)
}

/// Writes what became of the messages and of the fault hypothesis, and the end.
fn write_ending<K: Sink>(world: &World, sink: &mut K) -> Result<(), Failed>
    ensures { IsWritten (concat (text.ending_lines world.now.scenario (state_of world.now))) result
        (K.taken sink.old) (K.taken sink.new) (K.faults sink.old) (K.faults sink.new) }
{
    write_settled(world, sink)?;
    write_hypothesis(world.hypothesis(), sink)?;
    write_word("end", sink)
}

/// Writes the text of the world's run, line by line: how long it has to go on after its last event,
/// which slot that was, and whether it did. It takes no memory. A run that has not ended has a text
/// too: of what happened so far.
///
/// Promise: exactly the text of the world's scenario and journal is written, whether the run has
/// ended or not. At a failure a prefix of it is.
///
/// Shown by: `tail_enough`, `tail_too_short`, `tail_unclaimed`, `needed_is_the_tail_alone`,
/// `a_run_with_restarts_is_claimed`.
///
/// # Errors
///
/// `Failed` only where the sink's count of faults rose.
pub fn write_tail<K: Sink>(world: &World, sink: &mut K) -> Result<(), Failed>
    ensures { IsWritten (tail_text world.now.scenario world.now.journal) result
        (K.taken sink.old) (K.taken sink.new) (K.faults sink.old) (K.faults sink.new) }
{
    write_lengths(world, sink)?;
    write_claim(world, sink)?;
    write_ending(world, sink)
}
