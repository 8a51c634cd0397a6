//! A seat may move to another thread, and threads share none: the shares of a ledger that std has
//! are `Send` alone. A yard may move, and threads may share it.

use crate::course::Course;
use crate::seat::{BusSeat, Seat};
use crate::yard::{SeatsMissing, Yard};
use std::sync::ledger::Ledger;

fn is_movable<T: Send>() {}

fn is_thread_safe<T: Send + Sync>() {}

fn all_cross_threads<L: Course + Send + Sync, B: Ledger + Send + Sync>() {
    is_movable::<Seat<L, B>>();
    is_movable::<BusSeat<L, B>>();
    is_movable::<SeatsMissing<L, B>>();
    is_thread_safe::<Yard<L, B>>();
}
