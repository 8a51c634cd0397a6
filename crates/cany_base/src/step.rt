use crate::node::NodeId;

/// One atomic step of a run: a whole bus slot, or a turn in which a node reads one notice.
#[derive(Clone, Copy, Debug, PartialEq, Eq)]
pub enum Step {
    Slot,
    Turn(NodeId),
}
