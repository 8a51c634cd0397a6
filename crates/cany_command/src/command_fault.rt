//! Why a command ends without its answer.
ghost use Rattle.std.specs.Prelude.{◌≡◌};
ghost use Rattle.cany_command.specs.declared.command_fault.AnswerFault.TheVariants.{Failed as AnswerFailed, Memory as AnswerMemory};

use cany_base::Memory;
use cany_io::Failed;
use thiserror::Error;

/// Why a command does not go on with words or with a scenario.
#[derive(Clone, Copy, Debug)]
pub enum CommandFault<R> {
    /// It refuses them, with the line of this refusal.
    Refused(R),
    /// There was no memory.
    Memory,
}

/// Why a command has not written all of its text.
#[derive(Clone, Copy, Debug, Error)]
pub enum AnswerFault {
    /// The sink failed.
    #[error("writing failed")]
    Failed,
    /// There was no memory. Nothing was written.
    #[error("out of memory")]
    Memory,
}

impl From<Failed> for AnswerFault {
    ghost from_gives = { λ _ fault. fault ≡ AnswerFailed };

    fn from(_: Failed) -> Self {
        AnswerFault::Failed
    }
}

impl From<Memory> for AnswerFault {
    ghost from_gives = { λ _ fault. fault ≡ AnswerMemory };

    fn from(_: Memory) -> Self {
        AnswerFault::Memory
    }
}
