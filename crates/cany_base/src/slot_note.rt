use crate::frame::Frame;
use crate::node_set::NodeSet;
use crate::notice::Slot;
use crate::rule::Verdict;

/// What happened on the bus in one slot. For an idle slot the verdict is `Clean`, and nobody sent
/// or accepted a frame.
#[derive(Clone, Copy, Debug)]
pub struct SlotNote {
    pub slot: Slot,
    pub frame: Option<Frame>,
    pub senders: NodeSet,
    /// The receivers that accepted the frame.
    pub takers: NodeSet,
    pub verdict: Verdict,
    /// The nodes that stopped at the end of the slot.
    pub stops: NodeSet,
}
