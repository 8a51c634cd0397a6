//! What all commands share. `Command` is what a command has to say of itself, `OneWord` the less
//! that one of one word has to say, and `perform` the frame of every command: each answer with its
//! cause. Below it stand the pieces, for a command that ends in its own way: the statuses, the test
//! of words without arguments, and the number among the words. Other pieces read a scenario, run it
//! by its own journal or by round robin, write the report, and refuse.
#![tactic(auto)]

mod answer;
mod command;
mod command_fault;
mod concluding;
mod numbers;
mod one_word;
mod performing;
mod reading;
mod refusal_line;
mod running;
pub mod status;
mod words;

pub use answer::{refuse, report_run};
pub use cany_base::limits::MOST_TEXT_BYTES;
pub use command::Command;
pub use command_fault::{AnswerFault, CommandFault};
pub use numbers::{named_number, number_in};
pub use one_word::{OneWord, OneWordCommand};
pub use performing::perform;
pub use reading::{is_memory, scenario_in, text_from};
pub use refusal_line::{NoRefusal, RefusalLine};
pub use running::{RunFault, run};
pub use words::is_only;
