//! When a run was long enough that every message is settled: the laws, and the calls and the text
//! that tell it of a run.
#![tactic(auto)]

mod events;
pub mod laws;
mod length;
mod text;
mod top;

pub use events::last_event;
pub use length::{long_enough, tail};
pub use text::write_tail;
pub use top::tail_top;
