//! A fault of a frame may move to another thread and be shared by threads, as the bounds below
//! show.

use crate::decoding::FrameFault;

fn is_thread_safe<T: Send + Sync>() {}

fn all_are_thread_safe() {
    is_thread_safe::<FrameFault>();
}
