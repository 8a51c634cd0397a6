//! Offers and outcomes may move to another thread and be shared by threads, as the bounds below
//! show.

use crate::arbitration::Outcome;
use crate::offers::Offers;

fn is_thread_safe<T: Send + Sync>() {}

fn all_are_thread_safe() {
    is_thread_safe::<Offers>();
    is_thread_safe::<Outcome>();
}
