//! A TOTCAN value may move to another thread and be shared by threads.

use crate::totcan::Totcan;

fn is_thread_safe<T: Send + Sync>() {}

fn all_are_thread_safe() {
    is_thread_safe::<Totcan>();
}
