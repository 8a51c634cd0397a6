ghost use Rattle.cany_text.specs.ReportLines as report;
ghost use Rattle.cany_log.specs.Written.{IsWritten};

use crate::line::write_line;
use crate::text_field::TextField;
use cany_io::{Failed, Sink};
use cany_model::Break;
use cany_text::names::break_name;

/// Writes the line of the fault hypothesis: that a run is within it, or where it leaves it first.
/// It takes no memory.
///
/// Promise: exactly the line of the hypothesis is written, or at a failure a prefix of it.
///
/// Shown by: `silent_omission_is_outside`, `tail_enough`, `each_write_fails_in_turn`,
/// `hypothesis_always_outside`.
///
/// # Errors
///
/// `Failed` only where the sink's count of faults rose.
#[tactic(auto, unfolding(cany_text::specs::ReportLines::hypothesis_line))]
pub fn write_hypothesis<K: Sink>(found: Option<Break>, sink: &mut K) -> Result<(), Failed>
    ensures { IsWritten (report.hypothesis_line found) result
        (K.taken sink.old) (K.taken sink.new) (K.faults sink.old) (K.faults sink.new) }
{
    match found {
        None => write_line("hypothesis within", &[], sink),
        Some(found) => write_line(
            "hypothesis outside",
            &[
                TextField::Text(break_name(found.kind)),
                TextField::Number(found.slot),
            ],
            sink,
        ),
    }
}
