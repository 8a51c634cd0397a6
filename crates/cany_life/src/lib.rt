//! Life signs and failure signs: a member shows life at intervals, and a node that learns that
//! another one failed tells of it.
#![tactic(auto)]

mod frames;
mod life;
mod threads;

pub use life::Life;
