//! What comes of the frame of a slot.
ghost use Rattle.std.specs.Prelude.{◌≡◌, ◌&&◌, not, ℕ, List};
ghost use Rattle.cany_base.specs.Nodes.{has};
ghost use Rattle.cany_model.specs.Bus.Slot.{transmission, lets_accept, is_success, winner};
ghost use Rattle.cany_model.specs.Bus.State.{NodeState};
ghost use Rattle.can_bus.specs.Contest.{IsContestOf, running_nodes};
ghost use Rattle.can_bus.specs.Rest.{idle_note};

use can_arbiter::Outcome;
use cany_base::{NodeSet, Slot, SlotNote, Verdict};

/// Those of the running nodes that accept the frame.
fn acceptors(running: NodeSet, senders: NodeSet, verdict: &Verdict) -> NodeSet
    ensures { (i : ℕ) → has result i ≡ (has running i && not (has senders i) && lets_accept verdict.now i) }
{
    let receivers = running.minus(senders);
    match verdict {
        Verdict::Clean => receivers,
        Verdict::Lost => NodeSet::empty(),
        Verdict::Partial(reject) => receivers.minus(*reject),
        Verdict::Silent(reject) => receivers.minus(*reject),
    }
}

/// The note of the slot but for its stops.
pub(crate) fn transmission(
    slot: Slot,
    running: NodeSet,
    outcome: &Outcome,
    verdict: &Verdict,
) -> SlotNote
    ensures { (nodes : List NodeState) → IsContestOf nodes outcome.now → running ≡ running_nodes nodes
        → result ≡ transmission slot nodes verdict.now (winner nodes) }
{
    match outcome {
        Outcome::Won { frame, senders } => SlotNote {
            slot,
            frame: Some(*frame),
            senders: *senders,
            takers: acceptors(running, *senders, verdict),
            verdict: *verdict,
            stops: NodeSet::empty(),
        },
        Outcome::Idle => idle_note(slot),
    }
}

/// The note of a slot that carries no frame and stops nobody.
pub(crate) fn idle_note(slot: Slot) -> SlotNote
    ensures { result ≡ idle_note slot }
{
    SlotNote {
        slot,
        frame: None,
        senders: NodeSet::empty(),
        takers: NodeSet::empty(),
        verdict: Verdict::Clean,
        stops: NodeSet::empty(),
    }
}

/// Whether the senders see success.
pub(crate) fn is_success(verdict: &Verdict) -> bool
    ensures { result ≡ is_success verdict.now }
{
    match verdict {
        Verdict::Clean | Verdict::Silent(_) => true,
        Verdict::Lost | Verdict::Partial(_) => false,
    }
}
