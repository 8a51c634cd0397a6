//! What a command writes, with the status that it ends with.
ghost use Rattle.std.specs.Prelude.{◌≡◌, ◌⊎◌};
ghost use Rattle.cany_io.specs.Faults.{HasRisen};
ghost use Rattle.cany_io.specs.Sink.{Takes, TakesPrefix};
ghost use Rattle.cany_text.specs.Report.{report};

use crate::refusal_line::RefusalLine;
use crate::status::{DONE, REFUSED, WRITE_FAULT};
use cany_io::{Failed, Sink};
use cany_log::write_report;
use cany_world::World;

/// Writes the report of a run, and answers the status.
///
/// Promise: the status 0 says that exactly the report of the world's scenario and journal was
/// written. At any answer a prefix of it was.
///
/// Answers: 0 where the report was written. 5 only where the sink's count of faults rose. There is
/// no other answer.
///
/// Shown by: `threads_replay`, `each_write_fails_in_turn`.
pub fn report_run<K: Sink>(world: &World, sink: &mut K) -> u8
    ensures done { result ≡ DONE → Takes (K.taken sink.old) (report world.now.scenario world.now.journal) (K.taken sink.new) }
    ensures write_fault { result ≡ WRITE_FAULT → HasRisen (K.faults sink.old) (K.faults sink.new) }
    ensures prefix { TakesPrefix (K.taken sink.old) (report world.now.scenario world.now.journal) (K.taken sink.new) }
    ensures status { (result ≡ DONE) ⊎ (result ≡ WRITE_FAULT) }
{
    match write_report(world, sink) {
        Ok(()) => DONE,
        Err(Failed) => WRITE_FAULT,
    }
}

/// Refuses, and answers the status: the line of the refusal is written.
///
/// Promise: the status 3 says that exactly the line of the refusal was written. At any answer a
/// prefix of it was.
///
/// Answers: 3 where the line was written. 5 only where the sink's count of faults rose. There is no
/// other answer.
///
/// Shown by: `.ci/refusals.py`, `the_write_of_a_refusal_fails`,
/// `a_refused_text_is_reported_as_done`.
pub fn refuse<L: RefusalLine, K: Sink>(refusal: &L, sink: &mut K) -> u8
    ensures refused { result ≡ REFUSED → Takes (K.taken sink.old) (L.line refusal.now) (K.taken sink.new) }
    ensures write_fault { result ≡ WRITE_FAULT → HasRisen (K.faults sink.old) (K.faults sink.new) }
    ensures prefix { TakesPrefix (K.taken sink.old) (L.line refusal.now) (K.taken sink.new) }
    ensures status { (result ≡ REFUSED) ⊎ (result ≡ WRITE_FAULT) }
{
    match refusal.write_line(sink) {
        Ok(()) => REFUSED,
        Err(Failed) => WRITE_FAULT,
    }
}
