//! EDCAN: every node that gets the data frame of a message delivers the message and relays the
//! frame by eager diffusion.
#![tactic(auto)]

mod data;
mod edcan;
mod laws;
mod threads;

pub use edcan::Edcan;
pub use laws::rests;
