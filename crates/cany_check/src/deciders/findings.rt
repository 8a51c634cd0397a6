//! What is found of an account.
use crate::account::record::FirstAndLast;
use cany_base::{MsgKey, NodeId, NodeSet, Service, Slot};

/// What is judged of a part of the promise.
#[derive(Clone, Copy, PartialEq, Eq)]
pub enum Judgement {
    Held,
    Broken,
    /// A message or a sign is open: a longer run can tell.
    Open,
}

/// A part of the promise.
#[derive(Clone, Copy)]
pub enum Part {
    Integrity,
    Agreement(Service),
    Order,
    Views,
    Signs,
    Accuracy,
}

/// What became of a message or a sign among the nodes that count for it.
#[derive(Clone, Copy, PartialEq, Eq)]
pub enum Fate {
    /// All of them have it.
    All,
    /// None of them has it, and none had to.
    Nobody,
    /// Some lack what others have, or what one of them was to send; or all know a sign that was
    /// never carried.
    Apart,
    /// More may come of it.
    Open,
}

/// What is told of a message or a sign.
#[derive(Clone, Copy)]
pub struct Told {
    pub fate: Fate,
    /// The nodes that count for it and have it.
    pub has: NodeSet,
    /// The nodes that count for it and do not have it.
    pub lacks: NodeSet,
    /// The nodes of which some incarnation has delivered the message: nobody, of a sign.
    pub had: NodeSet,
    /// The slots of its entries in the logs of the nodes that have it.
    pub slots: Option<FirstAndLast>,
}

/// An entry of the log of a correct node, by its place in the log.
#[derive(Clone, Copy)]
pub struct EntryAt {
    pub node: NodeId,
    pub place: usize,
}

/// A delivery by TOTCAN.
#[derive(Clone, Copy)]
pub struct Delivery {
    pub msg: MsgKey,
    pub slot: Slot,
}

/// Two correct nodes that delivered in two orders, of the messages that both take part since: up to
/// this place they delivered the same, and what either has there.
#[derive(Clone, Copy)]
pub struct Parting {
    pub first: NodeId,
    pub second: NodeId,
    pub place: usize,
    pub here: Delivery,
    pub there: Delivery,
}

/// Two correct nodes with unequal views of one number.
#[derive(Clone, Copy)]
pub struct ViewParting {
    pub number: u16,
    pub first: NodeId,
    pub members: NodeSet,
    pub second: NodeId,
    pub others: NodeSet,
}

/// What is found of the views that correct nodes hold.
#[derive(Drop)]
pub struct Views {
    /// Of how many numbers one of them holds a view.
    pub numbers: usize,
    /// The numbers of which two of them hold unequal views, ascending.
    pub apart: Vec<ViewParting>,
}

/// A node that ran all the time, and was taken for failed.
#[derive(Clone, Copy)]
pub struct Accusation {
    pub node: NodeId,
    /// The correct nodes in whose logs it is.
    pub by: NodeSet,
    /// The least slot of such an entry.
    pub first: Slot,
}
