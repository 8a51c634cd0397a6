//! The call behind the command `replay`.
ghost use Rattle.std.specs.Prelude.{map, string_bytes};
ghost use Rattle.cany_command.specs.Performed.{IsPerformed};
ghost use Rattle.cany_replay.specs.Top.{replay_command};

use cany_command::{OneWord, OneWordCommand, perform};
use cany_io::{Failed, Sink, Source};
use cany_log::write_report;
use cany_world::World;
use std::alloc::Global;

/// The command `replay`.
struct Replay;

impl OneWord for Replay {
    ghost use Rattle.std.specs.Prelude.{codes};
    ghost use Rattle.cany_text.specs.Report.{report};

    ghost word = { codes "replay" };

    ghost text = { report };

    fn word(&self) -> &'static str {
        "replay"
    }

    fn write<K: Sink>(&self, world: &World, sink: &mut K) -> Result<(), Failed> {
        write_report(world, sink)
    }
}

/// Replays: reads a scenario text from the source, runs the scenario, and writes the report to the
/// sink, a page of lines at a time. The run is by the scenario's own journal or, where it has none,
/// by its round robin journal.
///
/// It answers the status of the program, one of those in `cany_command::status`. The words are the
/// one word `replay`. Causes are looked at in this order: the words, the reading, the text, the
/// journal, the writing.
///
/// Promise: at status 0 exactly the report of the scenario's run was written, by its own journal or
/// by round robin. That journal is legal and whole, the run has integrity, and within the
/// hypothesis it is safe. Where no stream fails, words and text decide the status, or it is 6.
///
/// Answers: 0 only where the bytes stand for a scenario whose own journal, if any, is legal and
/// whole: its report was written. 2 exactly where the words are not the one word `replay`; nothing
/// is read. 3 only where the bytes stand for no scenario, or its own journal is not legal or not
/// whole: exactly the line of the first fault was written. 4 only where the source's count of
/// faults rose. 5 only where the sink's count rose: a prefix of the report or of that line was
/// taken. 6: out of memory. 7 only where the source has more than 33,554,432 bytes. At 0, 3 and 5
/// all was read, at 2, 4, 6 and 7 nothing is written. There is no other status.
///
/// Shown by: `commands_give_their_answers`, `.ci/calls.py`, `.ci/refusals.py`,
/// `a_source_that_never_fails`, `each_read_fails_in_turn`, `each_write_fails_in_turn`,
/// `top_always_refused`, `top_always_read_fault`, `top_always_write_fault`, `nothing_is_reported`,
/// `benches/refusals.py`.
pub fn replay_top<S: Source, K: Sink>(
    alloc: Global,
    words: &[String],
    source: &mut S,
    sink: &mut K,
) -> u8
    ensures { IsPerformed replay_command (map string_bytes words.now)
        (record { bytes = S.left; faults = S.faults; old = source.old; new = source.new })
        (record { bytes = K.taken; faults = K.faults; old = sink.old; new = sink.new }) result }
{
    perform(alloc, &OneWordCommand(Replay), words, source, sink)
}
