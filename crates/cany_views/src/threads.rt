//! A value of views may move to another thread and be shared by threads.

use crate::views::Views;

fn is_thread_safe<T: Send + Sync>() {}

fn all_are_thread_safe() {
    is_thread_safe::<Views>();
}
