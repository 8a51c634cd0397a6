//! TOTCAN: all nodes deliver the messages in one order. A node delivers a message once it has heard
//! in time that it is accepted, in the order in which it last read the data frames. A node sends
//! its own messages one after another.
#![tactic(auto)]

mod backlog;
mod message_set;
mod queue;
mod threads;
mod totcan;

pub use totcan::Totcan;
