ghost use Rattle.std.specs.Prelude.{◌≡◌, ◌<◌, ◌==◌, ◌&&◌, ◌||◌, ℕ, if◌then◌else◌, nat_lt};
ghost use Rattle.cany_base.specs.Nodes.{has};
ghost use Rattle.can_arbiter.specs.Offers.{does_offer, word_at};
ghost use Rattle.can_arbiter.specs.Walk.{IsWalked};

use crate::offers::Offers;
use cany_base::{NodeId, NodeSet};

/// The least word of the nodes gone over, and those of them that have it. Before the first node it
/// is the greatest word that there can be.
#[derive(Drop)]
struct Least {
    word: u32,
    nodes: NodeSet,
}

impl Least {
    /// One node more is gone over.
    fn enter(&mut self, node: NodeId, word: u32)
        ensures word { self.new.word ≡ (if nat_lt word self.old.word then word else self.old.word) }
        ensures nodes { (i : ℕ) → has self.new.nodes i ≡
            (if nat_lt word self.old.word then i == node
            else (has self.old.nodes i || (word == self.old.word && i == node))) }
    {
        if word < self.word {
            self.word = word;
            self.nodes = NodeSet::empty();
            self.nodes.insert(node);
        } else if word == self.word {
            self.nodes.insert(node);
        }
    }
}

/// The nodes whose frame sends the least word of all. The law `walk_leaves_least` says that a walk
/// bit by bit leaves the same.
pub(crate) fn least_words(offers: &Offers) -> NodeSet
    ensures { IsWalked (does_offer offers.now) (has result) (word_at offers.now) 0 }
{
    let mut least = Least {
        word: u32::MAX,
        nodes: NodeSet::empty(),
    };
    let mut rest = offers.offering();
    while let Some(node) = rest.least() {
        rest.remove(node);
        least.enter(node, offers.word(node));
    }
    least.nodes
}
