//! What a run is, and what is promised of it: the definitions that every contract above cites, and
//! their laws.
#![tactic(auto)]

mod breaks;
mod follow;
pub mod laws;
mod reply;
mod share;
mod span;
mod threads;

pub use breaks::{Break, BreakKind};
pub use follow::FollowFault;
pub use reply::StepReply;
pub use share::Share;
pub use span::Span;
