//! The faults of a scenario text may move to another thread and be shared by threads.

use crate::scenario_fault::ScenarioFault;

fn is_thread_safe<T: Send + Sync>() {}

fn all_cross_threads() {
    is_thread_safe::<ScenarioFault>();
}
