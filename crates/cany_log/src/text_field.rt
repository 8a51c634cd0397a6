use cany_base::{NodeId, NodeSet, Payload};

/// A piece of a line: one field of it, or two that stand there together or not at all. Fields stand
/// a space apart.
#[derive(Clone, Copy)]
pub enum TextField {
    /// Fixed words.
    Text(&'static str),
    /// A number, in decimal.
    Number(u64),
    /// A number that may be past the range of the others, in decimal.
    Count(u128),
    /// A number that may be below zero, in decimal.
    SignedNumber(i64),
    /// A node by its number, with that of its incarnation where it is not the first.
    Node(NodeId, u8),
    /// A byte, as two hexadecimal digits.
    Byte(u8),
    /// The bytes of a data frame or of a message, in hexadecimal.
    Bytes(Payload),
    Set(NodeSet),
    /// A word and a number, where there is one.
    NumberIfAny(&'static str, Option<u64>),
    /// A word and a set, where it has a node.
    SetIfAny(&'static str, NodeSet),
}
