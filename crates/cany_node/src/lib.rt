//! One node: what it does in a turn with what its controller has for it.
#![tactic(auto)]

mod agenda;
mod apply;
mod asks;
mod membership;
mod node;
mod notices;
mod plan;
mod protocols;
mod reply;
mod rooms;
mod sending;
mod stamping;
mod threads;

pub use node::Node;
pub use reply::TurnReply;
pub use rooms::{actions_room, waiting_room};
