//! The controller of a node: the frames that wait to be sent, the error counters, and the notices
//! of the slots.
#![tactic(auto)]

mod controller;
mod counters;
mod identity;
pub mod laws;
mod notice;
mod threads;
mod waiting;

pub use cany_model::Share;
pub use controller::Controller;
