//! Streams in memory may move to another thread and be shared by threads, as the bounds below show.

use crate::memory::{MemSink, MemSource, PlainSource};
use crate::whole::ReadFault;

fn is_thread_safe<T: Send + Sync>() {}

fn all_are_thread_safe() {
    is_thread_safe::<(PlainSource, MemSource, MemSink, ReadFault)>();
}
