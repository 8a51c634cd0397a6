//! Where its values may move to another thread and be shared by threads, an `Eager` of them may
//! too, as the bounds below show.

use crate::diffused::Diffused;
use crate::eager::Eager;
use crate::learnt::Learnt;

fn is_thread_safe<T: Send + Sync>() {}

fn all_are_thread_safe<K: Diffused + Send + Sync>() {
    is_thread_safe::<Eager<K>>();
    is_thread_safe::<Learnt>();
}
