//! What an account tells of a message, of a log and of a failure sign.
use cany_base::{LogEntry, MsgKey, NodeId, NodeSet, Payload, Service, Slot};

/// The first and the last of some slots.
#[derive(Clone, Copy)]
pub struct FirstAndLast {
    pub first: Slot,
    pub last: Slot,
}

/// A message, and what became of it.
#[derive(Clone, Copy)]
pub struct MessageRecord {
    pub key: MsgKey,
    pub service: Service,
    pub payload: Payload,
    /// The slot in whose turn its origin was to send it.
    pub slot: Slot,
    /// The first slot that carried its data frame, payload included, with its origin among the
    /// senders.
    pub sent: Option<Slot>,
    /// The slots that carried a frame of the identity of its data frame, with whatever verdict.
    pub carried: Option<FirstAndLast>,
    /// Whether its origin runs, takes part since the scripted slot, and has not asked for it.
    pub queued: bool,
    /// The running nodes that wait with its data frame, or with a frame that confirms or accepts
    /// it.
    pub waits: NodeSet,
    /// The running nodes that have a timer or a closing of it ahead.
    pub ahead: NodeSet,
}

/// The log of an incarnation of a node.
#[derive(Clone, Copy)]
pub struct LogRecord<'a> {
    pub node: NodeId,
    /// The slot since which it takes part.
    pub from: Slot,
    /// Whether it is the present incarnation of a running node.
    pub runs: bool,
    /// Its entries, oldest first.
    pub entries: &'a [LogEntry],
}

/// The sign that a node failed, as it was found out in a membership cycle, and what became of it.
#[derive(Clone, Copy)]
pub struct SignRecord {
    pub node: NodeId,
    pub cycle: u16,
    /// The slots that carried its frame, with whatever verdict.
    pub carried: Option<FirstAndLast>,
    /// The running nodes that wait with its frame.
    pub waits: NodeSet,
}
