//! Readers of the logs of nodes, beside the one writer that drives the world, and the command
//! `watch`.
//!
//! The line of a node is the logs of its incarnations, one after the other. A hall makes steps and
//! publishes the lines; a reading, in whatever thread, reads what is published of a node, and never
//! less than what it read or was told of before.
#![tactic(auto)]

mod book;
mod growing;
mod hall;
mod note;
mod published;
mod publisher;
mod publishing;
mod reading;
mod rule;
mod text;
mod threads;
mod top;
mod watching;
mod words;

pub use hall::{Hall, Shown};
pub use note::Note;
pub use reading::Reading;
pub use top::watch_top;
