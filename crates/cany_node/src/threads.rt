//! A node and its answers may move to another thread and be shared by threads, as the bounds below
//! show.

use crate::node::Node;
use crate::reply::TurnReply;

fn is_thread_safe<T: Send + Sync>() {}

fn all_are_thread_safe() {
    is_thread_safe::<Node>();
    is_thread_safe::<TurnReply>();
}
