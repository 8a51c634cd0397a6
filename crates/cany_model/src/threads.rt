//! Replies, faults, breaks and shares may move to another thread and be shared by threads.

use crate::breaks::Break;
use crate::follow::FollowFault;
use crate::reply::StepReply;
use crate::share::Share;

fn is_thread_safe<T: Send + Sync>() {}

fn all_cross_threads() {
    is_thread_safe::<(Break, FollowFault, Share, StepReply)>();
}
