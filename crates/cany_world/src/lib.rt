//! The world: a run of a scenario, made step by step in whatever order its lag allows.
#![tactic(auto)]

mod began;
mod finished;
mod following;
mod free_slots;
mod gathering;
mod incarnations;
mod journal;
mod opening;
mod restarting;
mod resting;
mod rounds;
mod settled;
mod slot;
mod step;
mod stretch;
mod threads;
mod turn;
mod unread;
mod unsettled;
mod world;

pub use cany_model::{Break, FollowFault, Span, StepReply};
pub use finished::FinishedServices;
pub use following::follow;
pub use rounds::{advance, round_robin};
pub use world::World;
