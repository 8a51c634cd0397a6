//! RELCAN: a node delivers a message at its first copy, the origin confirms it, and a node that
//! reads no confirmation in time falls back to sending the data frame itself.
#![tactic(auto)]

mod frames;
mod relcan;
mod threads;
mod timers;

pub use relcan::Relcan;
