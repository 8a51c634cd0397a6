//! Eager diffusion: how many copies of each frame a node read, whether it sent the frame itself,
//! and what a copy calls for.
#![tactic(auto)]

mod counts;
mod diffused;
mod eager;
mod learnt;
mod series;
mod threads;

pub use diffused::Diffused;
pub use eager::Eager;
pub use learnt::Learnt;
