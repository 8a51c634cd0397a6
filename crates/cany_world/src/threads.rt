//! A world may move to another thread and be shared by threads.

use crate::world::World;

fn is_thread_safe<T: Send + Sync>() {}

fn all_are_thread_safe() {
    is_thread_safe::<World>();
}
