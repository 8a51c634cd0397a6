ghost use Rattle.std.specs.Prelude.{◌≡◌, ◌<◌, ◌≤◌, ◌↔◌, ◌==◌, ◌&&◌, ◌||◌, ℕ, not, nat_lt, false, IsTrue, IsSome, IfSome, IfNone};
ghost use Rattle.cany_base.specs.Limits.{most_nodes};
ghost use Rattle.cany_base.specs.Nodes.{has, is_nobody, meet, minus, nobody, node_count, plus, with_node, AllBelow};

use crate::node::NodeId;
use std::marker::Model;

/// A set of nodes.
#[derive(Clone, Copy, Debug, PartialEq, Eq)]
pub struct NodeSet {
    bits: u64,
}

impl Model for NodeSet {
    ghost use Rattle.std.specs.Prelude.{◌<◌, ◌^◌};
    ghost use Rattle.cany_base.specs.Limits.{most_nodes};
    ghost use Rattle.cany_base.specs.Nodes.{Nodes};

    ghost Value = { Nodes };

    ghost view = { λ set. record { bits = set.bits } };

    ghost invariant = { λ set. set.bits < 2 ^ most_nodes };

    ghost inverse = { λ nodes. record { bits = nodes.bits } };
}

impl NodeSet {
    /// The set without nodes.
    ///
    /// Promise: the set has no node.
    pub fn empty() -> NodeSet
        ensures has { (i : ℕ) → has result i ≡ false }
        ensures set { result ≡ nobody }
    {
        NodeSet { bits: 0 }
    }

    /// The set of the nodes below `nodes`.
    ///
    /// Promise: the set has exactly these nodes.
    ///
    /// Shown by: `a_vector_has_its_lowest_nodes_last`.
    pub fn all(nodes: u8) -> NodeSet
        requires { nodes ≤ most_nodes }
        ensures has { (i : ℕ) → has result i ≡ nat_lt i nodes }
        ensures below { AllBelow nodes result }
    {
        if nodes < NodeId::COUNT {
            NodeSet {
                bits: (1u64 << nodes) - 1,
            }
        } else {
            NodeSet { bits: u64::MAX }
        }
    }

    /// The set that has node i where bit i is 1.
    ///
    /// Promise: the set of these bits.
    ///
    /// Shown by: `a_vector_has_its_lowest_nodes_last`.
    pub fn of_bits(bits: u64) -> NodeSet
        ensures { result ≡ record { bits = bits } }
    {
        NodeSet { bits }
    }

    /// The number whose bit i is 1 where the set has node i.
    ///
    /// Promise: the bits of the set, in which every node is below 64.
    ///
    /// Shown by: `a_vector_has_its_lowest_nodes_last`.
    pub fn bits(self) -> u64
        ensures bits { result ≡ self.bits }
        ensures below { AllBelow most_nodes self }
    {
        self.bits
    }

    /// Puts a node into the set.
    ///
    /// Promise: the set has this node and those of before.
    ///
    /// Shown by: `insert_forgets_the_others`.
    pub fn insert(&mut self, n: NodeId)
        ensures has { (i : ℕ) → has self.new i ≡ (has self.old i || i == n) }
        ensures set { self.new ≡ with_node n self.old }
    {
        self.bits |= 1u64 << n.get();
    }

    /// Takes a node out of the set.
    ///
    /// Promise: the set has the nodes of before but for this one.
    pub fn remove(&mut self, n: NodeId)
        ensures { (i : ℕ) → has self.new i ≡ (has self.old i && not (i == n)) }
    {
        self.bits &= !(1u64 << n.get());
    }

    /// Whether the node is in the set.
    ///
    /// Promise: whether the set has the node.
    ///
    /// Answers: `true` exactly where the node is in it.
    ///
    /// Shown by: `forty_nodes`.
    pub fn has(self, n: NodeId) -> bool
        ensures { result ≡ has self n }
    {
        (self.bits >> n.get()) & 1 == 1
    }

    /// The nodes that stand in both sets.
    ///
    /// Promise: the set has exactly the nodes that are in both.
    ///
    /// Shown by: `meet_and_plus_swapped`.
    pub fn meet(self, o: NodeSet) -> NodeSet
        ensures has { (i : ℕ) → has result i ≡ (has self i && has o i) }
        ensures set { result ≡ meet self o }
    {
        NodeSet {
            bits: self.bits & o.bits,
        }
    }

    /// The nodes that stand in one of the sets, or in both.
    ///
    /// Promise: the set has exactly the nodes that are in one of the two, or in both.
    ///
    /// Shown by: `meet_and_plus_swapped`.
    pub fn plus(self, o: NodeSet) -> NodeSet
        ensures has { (i : ℕ) → has result i ≡ (has self i || has o i) }
        ensures set { result ≡ plus self o }
    {
        NodeSet {
            bits: self.bits | o.bits,
        }
    }

    /// The nodes of this set that do not stand in the other.
    ///
    /// Promise: the set has exactly the nodes of the first that are not in the second.
    pub fn minus(self, o: NodeSet) -> NodeSet
        ensures has { (i : ℕ) → has result i ≡ (has self i && not (has o i)) }
        ensures set { result ≡ minus self o }
    {
        NodeSet {
            bits: self.bits & !o.bits,
        }
    }

    /// Whether the set has no node.
    ///
    /// Promise: whether no node is in the set, which is where none is counted.
    ///
    /// Answers: `true` exactly where the set has no node.
    ///
    /// Shown by: `forty_nodes`.
    pub fn is_empty(self) -> bool
        ensures nobody { result ≡ is_nobody self }
        ensures counted { result ≡ (node_count self == 0) }
    {
        self.bits == 0
    }

    /// How many nodes the set has.
    ///
    /// Promise: the number of nodes in the set, which is at most 64.
    ///
    /// Shown by: nothing runs it; it has no edit.
    pub fn count(self) -> u32
        ensures count { result ≡ node_count self }
        ensures small { result ≤ most_nodes }
    {
        let mut count = 0;
        for i in 0..NodeId::COUNT {
            if (self.bits >> i) & 1 == 1 {
                count += 1;
            }
        }
        count
    }

    /// The node of the smallest number.
    ///
    /// Promise: a node of the set, and no node of the set has a smaller number.
    ///
    /// Answers: `None` exactly where the set is empty.
    ///
    /// Shown by: `one_line_down`, `least_from_the_wrong_end`.
    pub fn least(self) -> Option<NodeId>
        ensures none { IfNone result ((i : ℕ) → has self i ≡ false) }
        ensures has { IfSome result (λ node. IsTrue (has self node)) }
        ensures least { IfSome result (λ node. (i : ℕ) → IsTrue (has self i) → node ≤ i) }
    {
        if self.is_empty() {
            return None;
        }
        NodeId::new(self.bits.trailing_zeros() as u8)
    }
}
