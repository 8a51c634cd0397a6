//! A world that threads share: one lock round it, and a seat for the bus and for each node.
//!
//! Whoever holds the lock makes one step at a time on the world by a seat, and the seats count the
//! steps that they made. What the lock keeps is that the world is the run of its scenario by its
//! journal, and that two books have the numbers of turns and of slots in that journal.
#![tactic(auto)]

mod course;
mod deck;
mod locked;
mod seat;
mod seating;
mod threads;
mod yard;

pub use cany_model::StepReply;
pub use cany_node::TurnReply;
pub use course::Course;
pub use deck::Deck;
pub use seat::{BusSeat, Seat};
pub use yard::{SeatsMissing, Yard};
