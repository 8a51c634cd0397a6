use cany_base::{NodeId, Slot};

/// The reply to a step. Every reply but `Done` leaves the run as it was.
#[derive(Clone, Copy, Debug, PartialEq, Eq)]
pub enum StepReply {
    Done,
    /// A slot cannot run yet: the node, the least such one, has this number of unread notices.
    Lagging { node: NodeId, unread: u32 },
    /// All slots ran.
    Over { slots: u64 },
    /// The node has read every notice: the next slot that it has to read.
    NothingYet { now: Slot },
    /// The node stopped in this slot.
    Stopped { slot: Slot },
    /// There is no such node.
    NoNode { node: NodeId },
}
