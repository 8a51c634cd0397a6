//! Gates that wait for one another, and that refuse.
ghost use Rattle.std.specs.Prelude.{◌≡◌, IfOk, vec_len};
ghost use Rattle.cany_base.specs.Limits.{most_nodes};

use cany_base::limits::MOST_NODES;
use cany_base::{NodeId, Slot};
use cany_crew::Gate;
use std::alloc::{AllocError, Global};
use std::sync::atomic::{AtomicU64, Ordering};
use std::thread;

/// How often a gate looks for the other before it refuses.
const MOST_LOOKS: u32 = 20_000_000;

/// Counts a gate that was asked, and looks until another was.
fn meets(asked: &AtomicU64) -> bool {
    asked.fetch_add(1, Ordering::SeqCst);
    for _ in 0..MOST_LOOKS {
        if asked.load(Ordering::SeqCst) > 1 {
            return true;
        }
        thread::yield_now();
    }
    false
}

/// A gate that passes nodes 0 and 1 in slot 0 once both have been asked, and refuses from a slot
/// on.
#[derive(Drop)]
pub(crate) struct Meeting<'a> {
    asked: &'a AtomicU64,
    closed_from: Slot,
    refusals: u64,
    refused_at: Option<Slot>,
}

impl Gate for Meeting<'_> {
    ghost refusals = { λ gate. gate.refusals };

    ghost refused_at = { λ gate. gate.refused_at };

    fn pass(&mut self, node: NodeId, slot: Slot) -> bool {
        let is_free = slot > 0 || node.get() > 1;
        if slot < self.closed_from && (is_free || meets(self.asked)) {
            return true;
        }
        self.refusals = self.refusals.saturating_add(1);
        self.refused_at = Some(slot);
        false
    }
}

/// Such a gate for each node that a scenario can have.
pub(crate) fn meetings(
    alloc: Global,
    asked: &AtomicU64,
    closed_from: Slot,
) -> Result<Vec<Meeting<'_>>, AllocError>
    ensures { IfOk result (λ gates. vec_len gates ≡ most_nodes) }
{
    let mut gates = Vec::new(alloc);
    for _ in 0..MOST_NODES {
        gates.push(Meeting {
            asked,
            closed_from,
            refusals: 0,
            refused_at: None,
        })?;
    }
    Ok(gates)
}
