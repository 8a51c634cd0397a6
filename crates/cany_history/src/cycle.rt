//! Where a membership cycle starts or ends next.

ghost use Rattle.std.specs.Prelude.{◌≡◌, ℕ, ◌<◌, ◌≤◌};
ghost use Rattle.cany_history.specs.HistorySteps.{IsPlain};

use cany_base::{Params, Slot};

/// The first slot from this one on in which a cycle starts or ends.
pub(crate) fn next_start_or_end(params: &Params, from: Slot) -> Slot
    ensures { params.now.bound < params.now.cycle → (slot : ℕ) → from ≤ slot → slot < result → IsPlain params.now slot }
{
    if from <= params.cycle {
        return params.cycle;
    }
    let after_start = from % params.cycle;
    if after_start == 0 {
        return from;
    }
    let ahead = if after_start <= params.bound {
        params.bound - after_start
    } else {
        params.cycle - after_start
    };
    from.saturating_add(ahead)
}
