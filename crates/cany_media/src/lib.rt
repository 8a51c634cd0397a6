//! A bus of two lines that fail one at a time or together, and the command `media`. Here stand what
//! is planned for the lines, what comes of a slot over them, and the scenario of one bus whose run
//! is that over both.
#![tactic(auto)]

mod fault_words;
pub mod laws;
mod line;
mod medium_lines;
mod outcome;
mod plan;
mod refusal;
mod single_bus;
mod stretches;
mod tables;
mod threads;
mod top;

pub use line::{Line, LineFault};
pub use outcome::{MediaOutcome, levels};
pub use plan::{MediaFault, MediaPlan};
pub use single_bus::{SingleFault, single};
pub use top::media_top;
