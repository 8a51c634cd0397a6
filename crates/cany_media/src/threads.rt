//! What is planned, and what comes of a slot, may move to another thread and be shared by threads,
//! as the bounds below show.

use crate::line::{Line, LineFault};
use crate::outcome::MediaOutcome;
use crate::plan::{MediaFault, MediaPlan};
use crate::single_bus::SingleFault;

fn is_thread_safe<T: Send + Sync>() {}

fn all_are_thread_safe() {
    is_thread_safe::<
        (
            Line,
            LineFault,
            MediaFault,
            MediaOutcome,
            MediaPlan,
            SingleFault,
        ),
    >();
}
