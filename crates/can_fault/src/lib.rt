//! The fault side of the bus: what the scripted rules say of each slot, and whether the run keeps
//! the fault hypothesis.
#![tactic(auto)]

mod attempts;
mod breaks;
mod counts;
mod identity;
pub mod laws;
mod script;
mod table;
mod tally;
mod threads;
mod window;

pub use attempts::Attempts;
pub use cany_model::{Break, BreakKind};
pub use identity::{Attempt, FrameIdentity};
pub use script::{Script, ScriptFault};
pub use tally::Tally;
