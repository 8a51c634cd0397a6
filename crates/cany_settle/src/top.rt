//! The call behind the command `tail`.
ghost use Rattle.std.specs.Prelude.{◌≡◌, map, string_bytes, IfSome, IsOkAnd};
ghost use Rattle.cany_command.specs.Performed.{IsPerformed};
ghost use Rattle.cany_text.specs.ScenarioText.{scenario_of};
ghost use Rattle.cany_settle.specs.Top.{IsTail, tail_command};

use crate::text::write_tail;
use cany_command::status::DONE;
use cany_command::{OneWord, OneWordCommand, perform};
use cany_io::{Failed, Sink, Source};
use cany_world::World;
use std::alloc::Global;

/// The command `tail`.
struct Tail;

impl OneWord for Tail {
    ghost use Rattle.std.specs.Prelude.{codes};
    ghost use Rattle.cany_settle.specs.TailText.{tail_text};

    ghost word = { codes "tail" };

    ghost text = { tail_text };

    fn word(&self) -> &'static str {
        "tail"
    }

    fn write<K: Sink>(&self, world: &World, sink: &mut K) -> Result<(), Failed> {
        write_tail(world, sink)
    }
}

/// Tells whether a run was long enough: reads a scenario text from the source, runs the scenario,
/// and writes the text of the tail to the sink, a line at a time. The text has the tail, the last
/// event, whether the run went on for the tail after it, and how many messages are settled. The run
/// is by the scenario's own journal or, where it has none, by its round robin journal.
///
/// It answers the status of the program, one of those in `cany_command::status`. The words are the
/// one word `tail`. Causes are looked at in this order: the words, the reading, the text, the
/// journal, the writing.
///
/// Promise: at status 0 exactly the text of the tail of the scenario's run was written. The journal
/// is legal and whole, the run has integrity; within the hypothesis it is safe, and has no open
/// message if it is long enough. Where no stream fails, words and text decide the status, or it is
/// 6.
///
/// Answers: 0 only where the bytes stand for a scenario whose own journal, if any, is legal and
/// whole: its text was written. 2 exactly where the words are not the one word `tail`; nothing is
/// read. 3 only where the bytes stand for no scenario, or its own journal is not legal or not
/// whole: exactly the line of the first fault was written. 4 only where the source's count of
/// faults rose. 5 only where the sink's count rose: a prefix of the text or of that line was taken.
/// 6: out of memory. 7 only where the source has more than 33,554,432 bytes. At 0, 3 and 5 all was
/// read, at 2, 4, 6 and 7 nothing is written. There is no other status.
///
/// Shown by: `commands_give_their_answers`, `tail_enough`, `tail_too_short`, `tail_unclaimed`,
/// `.ci/calls.py`.
pub fn tail_top<S: Source, K: Sink>(
    alloc: Global,
    words: &[String],
    source: &mut S,
    sink: &mut K,
) -> u8
    // Each answer has its cause.
    ensures answered { IsPerformed tail_command (map string_bytes words.now)
        (record { bytes = S.left; faults = S.faults; old = source.old; new = source.new })
        (record { bytes = K.taken; faults = K.faults; old = sink.old; new = sink.new }) result }

    // What success says of the run. Here `bytes` are all that the source had.
    ensures done { result ≡ DONE → IfSome (S.left source.old) (λ bytes. IsOkAnd (scenario_of bytes) (λ scenario.
        IsTail scenario (K.taken sink.old) (K.taken sink.new))) }
{
    perform(alloc, &OneWordCommand(Tail), words, source, sink)
}
