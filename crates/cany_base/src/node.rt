ghost use Rattle.std.specs.Prelude.{◌≡◌, ◌<◌, ◌↔◌, ℕ, IsSome, IfSome};
ghost use Rattle.cany_base.specs.Limits.{most_nodes};

use crate::limits::MOST_NODES;
use std::marker::Model;

/// The number of a node on the bus, 0 to 63.
#[derive(Clone, Copy, Debug, PartialEq, Eq, PartialOrd, Ord, Hash)]
pub struct NodeId {
    number: u8,
}

impl Model for NodeId {
    ghost Value = { ℕ };

    ghost view = { λ node. node.number };

    ghost invariant = { λ node. node.number < most_nodes };

    ghost inverse = { λ number. record { number = number } };
}

impl NodeId {
    /// How many nodes there can be.
    pub const COUNT: u8 = MOST_NODES;

    /// The node of this number, if there can be one.
    ///
    /// Promise: the node has this number.
    ///
    /// Answers: `None` exactly from 64 on.
    ///
    /// Shown by: `forty_nodes`.
    pub fn new(n: u8) -> Option<NodeId>
        ensures found { IsSome result ↔ (n < most_nodes) }
        ensures value { IfSome result (λ node. node ≡ n) }
    {
        if n < NodeId::COUNT {
            Some(NodeId { number: n })
        } else {
            None
        }
    }

    /// The node at this index of a row of nodes.
    ///
    /// Promise: the node has the number of this index.
    pub fn of_index(i: usize) -> NodeId
        requires { i < most_nodes }
        ensures { result ≡ i }
    {
        NodeId { number: i as u8 }
    }

    /// The number of the node.
    ///
    /// Promise: the number, which is below 64.
    pub fn get(self) -> u8
        ensures value { result ≡ self }
        ensures in_range { result < most_nodes }
    {
        self.number
    }
}
