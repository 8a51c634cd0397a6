ghost use Rattle.std.specs.Prelude.{◌≡◌, not};
ghost use Rattle.cany_base.specs.Nodes.{has};
ghost use Rattle.cany_media.specs.Lines.{is_whole, some_node};

use cany_base::limits::MOST_NODES;
use cany_base::{NodeSet, Slot};
use std::marker::Model;

/// How one line of the bus is in a slot.
#[derive(Clone, Copy)]
pub enum Line {
    /// It joins all nodes.
    Whole,
    /// It joins nobody: every node reads recessive on it.
    Down,
    /// It is cut into two parts: the nodes of the set, and the others.
    Split(NodeSet),
}

impl Line {
    /// Whether the line parts no two of so many nodes.
    pub(crate) fn is_whole(self, nodes: u8) -> bool
        ensures { result ≡ is_whole nodes self }
    {
        match self {
            Line::Whole => true,
            Line::Down => false,
            Line::Split(part) => !(has_one(part, nodes) && lacks_one(part, nodes)),
        }
    }
}

/// Whether one of so many nodes stands in the set.
fn has_one(part: NodeSet, nodes: u8) -> bool
    ensures { result ≡ some_node nodes (has part) }
{
    let bus = NodeSet::all(nodes.min(MOST_NODES));
    bus.meet(part).least().is_some()
}

/// Whether one of so many nodes does not stand in the set.
fn lacks_one(part: NodeSet, nodes: u8) -> bool
    ensures { result ≡ some_node nodes (λ i. not (has part i)) }
{
    let bus = NodeSet::all(nodes.min(MOST_NODES));
    bus.minus(part).least().is_some()
}

/// A line that is not whole from one slot to another, with both of them.
#[derive(Clone, Copy)]
pub struct LineFault {
    /// 0 or 1.
    pub line: u8,
    pub from: Slot,
    /// Not below `from`.
    pub to: Slot,
    pub state: Line,
}

impl Model for LineFault {
    ghost use Rattle.cany_media.specs.Plan.{FaultParts, IsFault};

    ghost Value = { FaultParts };

    ghost view = { λ f. record { line = f.line; from = f.from; to = f.to; state = f.state } };

    ghost invariant = { λ f. IsFault (record { line = f.line; from = f.from; to = f.to; state = f.state }) };

    ghost inverse = { λ f. record { line = f.line; from = f.from; to = f.to; state = f.state } };
}
