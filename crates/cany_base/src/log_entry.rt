use crate::message::{MsgKey, Service};
use crate::node::NodeId;
use crate::node_set::NodeSet;
use crate::notice::Slot;
use crate::payload::Payload;

/// An entry of a node's log. Its slot is that of the notice in whose turn the entry was made.
#[derive(Clone, Copy)]
pub enum LogEntry {
    /// The node delivered a message.
    Deliver {
        slot: Slot,
        service: Service,
        msg: MsgKey,
        payload: Payload,
    },
    /// The failure sign of a node, of a cycle, became known.
    Failed {
        slot: Slot,
        node: NodeId,
        cycle: u16,
    },
    /// The node installed a membership view that it is a member of.
    View {
        slot: Slot,
        number: u16,
        members: NodeSet,
    },
}
