//! The text of a command, and the scenario that it stands for.
ghost use Rattle.std.specs.Prelude.{◌≡◌, ◌≢◌, ◌⊎◌, ◌↔◌, ◌<◌, ◌≤◌, length, Ok, Err, IsTrue, IfErr, IfOk, IfSome, OnOk};
ghost use Rattle.cany_base.specs.Limits.{most_text_bytes};
ghost use Rattle.cany_io.specs.Faults.{HasRisen};
ghost use Rattle.cany_io.specs.Source.{IsAtEnd};
ghost use Rattle.cany_text.specs.declared.scenario_fault.ScenarioFault.TheVariants.{Memory};
ghost use Rattle.cany_text.specs.ScenarioText.{scenario_of};

use crate::status::{NO_MEMORY, READ_FAULT, TOO_LONG};
use cany_base::Scenario;
use cany_base::limits::MOST_TEXT_BYTES;
use cany_io::{ReadFault, Source, read_all};
use cany_scenario::{ScenarioFault, read_scenario};
use std::alloc::Global;

/// The bytes that the source has, or the status that says why there is no text.
///
/// Promise: the text is all that was left in the source, it has no more than 33,554,432 bytes, and
/// nothing is left.
///
/// Shown by: `reads_of_a_long_text_fail_in_turn`, `short_reads_and_writes`, `.ci/calls.py`,
/// `too_long_a_text_is_a_read_fault`.
///
/// # Errors
///
/// `READ_FAULT` only where the source's count of faults rose. `TOO_LONG` only where more than
/// 33,554,432 bytes are left in the source. `NO_MEMORY`: out of memory. There is no other.
pub fn text_from<S: Source>(alloc: Global, source: &mut S) -> Result<Vec<u8>, u8>
    // These bytes were all that was left, and nothing is left.
    ensures whole { IfOk result (λ text. IfSome (S.left source.old) (λ bytes. text.items ≡ bytes)) }
    ensures end { OnOk result (IsAtEnd (S.left source.new)) }
    ensures within { IfOk result (λ text. length text.items ≤ most_text_bytes) }

    // Where the bytes left are told, their number alone decides, but for a fault of the source and
    // for want of memory.
    ensures fits { OnOk result (IfSome (S.left source.old) (λ bytes. length bytes ≤ most_text_bytes)) }
    ensures too_long { IfErr result (λ status. status ≡ TOO_LONG → IfSome (S.left source.old) (λ bytes. most_text_bytes < length bytes)) }
    ensures read_fault { IfErr result (λ status. status ≡ READ_FAULT → HasRisen (S.faults source.old) (S.faults source.new)) }
    ensures status { IfErr result (λ status. (status ≡ READ_FAULT) ⊎ (status ≡ TOO_LONG) ⊎ (status ≡ NO_MEMORY)) }
{
    match read_all(alloc, source, MOST_TEXT_BYTES) {
        Ok(text) => Ok(text),
        Err(ReadFault::Failed) => Err(READ_FAULT),
        Err(ReadFault::TooLong) => Err(TOO_LONG),
        Err(ReadFault::Memory) => Err(NO_MEMORY),
    }
}

/// Whether a text was not read for lack of memory, which is no fault of the text.
///
/// Promise: the answer is exact.
///
/// Answers: true exactly where the fault is `Memory`.
///
/// Shown by: `.ci/refusals.py`, `the_write_of_a_refusal_fails`, `benches/refusals.py`.
pub fn is_memory(fault: &ScenarioFault) -> bool
    ensures { IsTrue result ↔ (fault.now ≡ Memory) }
{
    matches!(fault, ScenarioFault::Memory)
}

/// The scenario of a text. The text is dropped then, since the run needs the memory.
///
/// Promise: the scenario is exactly the one that the bytes stand for.
///
/// Shown by: `.ci/refusals.py`, `the_write_of_a_refusal_fails`, `three_services`.
///
/// # Errors
///
/// The first fault of the text, exactly where the definition finds one. `Memory`: out of memory.
pub fn scenario_in(alloc: Global, text: Vec<u8>) -> Result<Scenario, ScenarioFault>
    ensures ok { IfOk result (λ scenario. scenario_of text.items ≡ Ok scenario) }
    ensures fault { IfErr result (λ fault. fault ≢ Memory → scenario_of text.items ≡ Err fault) }
{
    read_scenario(alloc, &text)
}
