//! The command `run`: a thread for each node and one for the bus, on one world under one lock.
//!
//! A worker asks its gate outside the lock and makes one step each time it holds the lock. Nothing
//! that a worker learnt under the lock is relied on: when all have ended the world is taken out of
//! the lock, and the caller makes the steps that are left.
#![tactic(auto)]

mod assigning;
mod assignment;
mod crew;
mod event_count;
mod finish;
mod free_gate;
mod gate;
mod lending;
mod nodes;
mod pace;
mod signals;
pub mod status;
mod threads;
mod top;
mod worker;
mod workers;

pub use cany_base::{Memory, NodeId, Slot};
pub use crew::{CrewFault, crew_run};
pub use free_gate::{FreeGate, free_gates, free_run};
pub use gate::Gate;
pub use top::run_top;
