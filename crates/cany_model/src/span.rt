use cany_base::Slot;

/// What became of an incarnation of a node.
#[derive(Clone, Copy, Debug, PartialEq, Eq)]
pub struct Span {
    /// The first slot that gave it a notice: 0 for the one of the opening, for a later one the slot
    /// after its restart.
    pub since: Slot,
    /// The slot of its stop, if it has stopped.
    pub stopped: Option<Slot>,
    /// How many notices it has read.
    pub read: u64,
}
