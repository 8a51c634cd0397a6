//! Sets of nodes.
ghost use Rattle.std.specs.Prelude.{◌≡◌, ◌<◌, ◌&&◌, ◌||◌, ◌==◌, not, ℕ, is_none};
ghost use Rattle.cany_base.specs.Limits.{most_nodes};
ghost use Rattle.cany_base.specs.Nodes.{has};

use can_controller::Controller;
use cany_base::{NodeId, NodeSet};

/// Puts node i into the set if its controller runs.
pub(crate) fn insert_running(set: &mut NodeSet, i: usize, controller: &Controller)
    requires { i < most_nodes }
    ensures { (k : ℕ) → has set.new k ≡ (has set.old k || (is_none controller.now.stopped && k == i)) }
{
    if controller.stopped().is_none() {
        set.insert(NodeId::of_index(i));
    }
}

/// Puts node i into the set, unless so.
pub(crate) fn insert_unless(set: &mut NodeSet, i: usize, so: bool)
    requires { i < most_nodes }
    ensures { (k : ℕ) → has set.new k ≡ (has set.old k || (not so && k == i)) }
{
    if !so {
        set.insert(NodeId::of_index(i));
    }
}

/// Those of the nodes that run before the slot which do not run after it: the script names them, or
/// they stopped by their counters.
pub(crate) fn stopping(before: NodeSet, after: NodeSet, scripted: NodeSet) -> NodeSet
    ensures { (i : ℕ) → has result i ≡ (has before i && not (has after i && not (has scripted i))) }
{
    before.minus(after.minus(scripted))
}
