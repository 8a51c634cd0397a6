use cany_base::Slot;

/// The answer of a turn.
#[derive(Clone, Copy, PartialEq, Eq)]
pub enum TurnReply {
    /// The node read the notice of this slot and did what the rules say.
    Turned { slot: Slot },
    /// No notice is unread. The next will be that of this slot: as many were read, of a node that
    /// has never started again.
    NothingYet { now: Slot },
    /// The node stopped in this slot.
    Stopped { slot: Slot },
}
