//! An EDCAN value may move to another thread and be shared by threads.

use crate::edcan::Edcan;

fn is_thread_safe<T: Send + Sync>() {}

fn all_are_thread_safe() {
    is_thread_safe::<Edcan>();
}
