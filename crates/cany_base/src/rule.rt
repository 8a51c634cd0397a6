use crate::class::Class;
use crate::node::NodeId;
use crate::node_set::NodeSet;
use crate::notice::Slot;

/// What the fault script says of a slot that carries a frame. The set has the receivers that reject
/// the frame.
#[derive(Clone, Copy, Debug)]
pub enum Verdict {
    /// All receivers accept the frame, and the senders see success.
    Clean,
    /// No receiver accepts the frame, and the senders see an error.
    Lost,
    /// The receivers outside the set accept the frame, and the senders see an error.
    Partial(NodeSet),
    /// The receivers outside the set accept the frame, and the senders see success.
    Silent(NodeSet),
}

/// Where a fault rule acts: at a slot, or at an attempt to carry a frame.
#[derive(Clone, Copy, Debug, PartialEq, Eq, Hash)]
pub enum Place {
    At {
        slot: Slot,
    },
    /// The attempt `nth`, counted from 1, to carry the frame of this class, number and node.
    FrameNth {
        class: Class,
        number: u16,
        node: NodeId,
        nth: u32,
    },
}

/// A fault rule: the verdict of a slot, and the nodes that stop at its end.
#[derive(Clone, Copy, Debug)]
pub struct Rule {
    pub place: Place,
    pub verdict: Verdict,
    pub stop: NodeSet,
}
