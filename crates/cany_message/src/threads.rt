//! These values may move to another thread and be shared by threads: a `MessageFrame` where the
//! type that stands for its class may.

use crate::frame::{FrameClass, MessageFrame};
use crate::sequence::SequenceNumbers;

fn is_thread_safe<T: Send + Sync>() {}

fn all_are_thread_safe<C: FrameClass + Send + Sync>() {
    is_thread_safe::<MessageFrame<C>>();
    is_thread_safe::<SequenceNumbers>();
}
