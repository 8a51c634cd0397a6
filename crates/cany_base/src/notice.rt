use crate::frame::Frame;

/// A number of a bus slot, counted from 0. One slot is one attempt to carry a frame, or one idle
/// gap.
pub type Slot = u64;

/// What one slot gave one node.
#[derive(Clone, Copy, Debug)]
pub struct Notice {
    pub slot: Slot,
    pub kind: NoticeKind,
}

/// What a node learns of a slot: no frame, a frame that it accepted, the success of its own
/// transmission, or an error or a rejected frame.
#[derive(Clone, Copy, Debug)]
pub enum NoticeKind {
    Idle,
    Got(Frame),
    Sent(Frame),
    Bad,
}
