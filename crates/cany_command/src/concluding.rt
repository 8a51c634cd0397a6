//! The end of a command: the run, and the text of it.
ghost use Rattle.std.specs.Prelude.{◌≡◌, ◌⊎◌, ℕ, List, None, Ok, Err, IfErr, IfOk, IsSomeAnd, OnOk};
ghost use Rattle.cany_command.specs.Answers.{IsAnswered, answer_for};
ghost use Rattle.cany_command.specs.Refused.{own_fault};
ghost use Rattle.cany_io.specs.Faults.{HasRisen};
ghost use Rattle.cany_io.specs.Sink.{Takes, TakesPrefix};
ghost use Rattle.cany_model.specs.Runs.Follow.{journal_of};
ghost use Rattle.cany_text.specs.RefusalLines.{journal_refusal_line};

use crate::answer::refuse;
use crate::command::Command;
use crate::command_fault::AnswerFault;
use crate::running::{RunFault, run};
use crate::status::{NO_MEMORY, REFUSED, WRITE_FAULT};
use cany_base::Scenario;
use cany_io::Sink;
use cany_log::Refusal;
use std::alloc::Global;

/// The status of a command that has written its text, or of one that has not.
fn status_of(answered: Result<u8, AnswerFault>) -> Result<u8, u8>
    ensures ok { IfOk result (λ status. answered ≡ Ok status) }
    ensures failed { IfErr result (λ status. status ≡ WRITE_FAULT → answered ≡ Err AnswerFault.Failed) }
    ensures memory { IfErr result (λ status. status ≡ NO_MEMORY → answered ≡ Err AnswerFault.Memory) }
    ensures other { IfErr result (λ status. (status ≡ WRITE_FAULT) ⊎ (status ≡ NO_MEMORY)) }
{
    match answered {
        Ok(status) => Ok(status),
        Err(AnswerFault::Failed) => Err(WRITE_FAULT),
        Err(AnswerFault::Memory) => Err(NO_MEMORY),
    }
}

/// Runs the scenario by its own journal or, where it has none, by its round robin journal, and
/// writes the command's text of the run, or refuses the journal. Nothing is written before the run
/// has ended. It answers the status of success, or the other status.
///
/// # Errors
///
/// `REFUSED` where the journal is refused, `WRITE_FAULT` only where the sink failed, `NO_MEMORY`
/// for want of memory.
pub(crate) fn conclude<C: Command, K: Sink>(
    alloc: Global,
    command: &C,
    plan: &C::Plan,
    scenario: Scenario,
    sink: &mut K,
) -> Result<u8, u8>
    ensures done { OnOk result ((words : List (List ℕ)) → C.is_plan words plan.now
        → IsAnswered (C.text words) scenario (K.taken sink.old) (K.taken sink.new)) }
    ensures success { IfOk result (λ status. (words : List (List ℕ)) → C.is_plan words plan.now
        → status ≡ C.success words scenario (journal_of scenario)) }
    ensures followed { OnOk result (own_fault scenario ≡ None) }
    ensures status { IfOk result (λ status. C.is_success status) }
    ensures refused { IfErr result (λ status. status ≡ REFUSED → IsSomeAnd (own_fault scenario) (λ fault.
        Takes (K.taken sink.old) (journal_refusal_line fault) (K.taken sink.new))) }
    ensures write_fault { IfErr result (λ status. status ≡ WRITE_FAULT → HasRisen (K.faults sink.old) (K.faults sink.new)) }
    ensures prefix { IfErr result (λ status. status ≡ WRITE_FAULT → (words : List (List ℕ)) → C.is_plan words plan.now
        → TakesPrefix (K.taken sink.old) (answer_for (C.text words) scenario) (K.taken sink.new)) }
    ensures untouched { IfErr result (λ status. status ≡ NO_MEMORY → sink.new ≡ sink.old) }
    ensures other { IfErr result (λ status. (status ≡ REFUSED) ⊎ (status ≡ WRITE_FAULT) ⊎ (status ≡ NO_MEMORY)) }
{
    match run(alloc, scenario) {
        Ok(world) => status_of(command.answer(alloc, plan, &world, sink)),
        Err(RunFault::Journal(fault)) => Err(refuse(&Refusal::Journal(fault), sink)),
        Err(RunFault::Memory) => Err(NO_MEMORY),
    }
}
