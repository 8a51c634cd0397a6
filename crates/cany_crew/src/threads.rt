//! A gate that never refuses may move to another thread and be shared by threads, as the bound
//! below shows.

use crate::free_gate::FreeGate;

fn is_thread_safe<T: Send + Sync>() {}

fn free_gate_is_thread_safe() {
    is_thread_safe::<FreeGate>();
}
