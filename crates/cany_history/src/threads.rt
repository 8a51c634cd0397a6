//! A value of vectors, and what it answers, may move to another thread and be shared by threads.

use crate::ended::Ended;
use crate::history::History;

fn is_thread_safe<T: Send + Sync>() {}

fn all_are_thread_safe() {
    is_thread_safe::<Ended>();
    is_thread_safe::<History>();
}
