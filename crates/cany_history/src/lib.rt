//! Reception history vectors: in each membership cycle the nodes come to one set of nodes by
//! exchanging it.
#![tactic(auto)]

mod cycle;
mod ended;
mod history;
mod threads;

pub use ended::Ended;
pub use history::History;
