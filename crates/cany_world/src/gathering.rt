//! How a set is filled node by node.
ghost use Rattle.std.specs.Prelude.{◌≡◌, ◌<◌, ◌&&◌, ◌||◌, ◌==◌, ℕ};
ghost use Rattle.cany_base.specs.Limits.{most_nodes};
ghost use Rattle.cany_base.specs.Nodes.{has};

use cany_base::{NodeId, NodeSet};

/// Puts node i into the set, if so.
pub(crate) fn insert_if(set: &mut NodeSet, i: usize, so: bool)
    requires { i < most_nodes }
    ensures { (k : ℕ) → has set.new k ≡ (has set.old k || (so && k == i)) }
{
    if so {
        set.insert(NodeId::of_index(i));
    }
}
