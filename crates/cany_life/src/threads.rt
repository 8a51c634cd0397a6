//! A value of life and failure signs may move to another thread and be shared by threads.

use crate::life::Life;

fn is_thread_safe<T: Send + Sync>() {}

fn all_are_thread_safe() {
    is_thread_safe::<Life>();
}
