//! Where bytes come from and where they go: the two traits of the outside, and two calls that read
//! and write as a whole. Sources and sinks in memory fail when they are told to. Adapters stand
//! over std's readers and writers.
#![tactic(auto)]

mod failed;
mod memory;
mod sink;
mod source;
mod standard;
mod threads;
mod whole;

pub use failed::Failed;
pub use memory::{MemSink, MemSource, PlainSource};
pub use sink::Sink;
pub use source::Source;
pub use standard::{StdSink, StdSource};
pub use whole::{ReadFault, read_all, write_whole};
