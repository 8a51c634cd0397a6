ghost use Rattle.std.specs.Prelude.{◌≡◌, ◌↔◌, ℕ, Some, IsTrue};
ghost use Rattle.cany_base.specs.Nodes.{has};
ghost use Rattle.can_arbiter.specs.Offers.{offer_at};
ghost use Rattle.can_arbiter.specs.Outcome.{IsOutcome};

use crate::least::least_words;
use crate::offers::Offers;
use cany_base::{Frame, NodeSet};

/// What arbitration gives in one slot.
#[derive(Clone, Copy)]
pub enum Outcome {
    /// No node offers a frame.
    Idle,
    /// The bus carries this frame, and all nodes that offer it send it together.
    Won { frame: Frame, senders: NodeSet },
}

/// Arbitration over the offers of one slot (CAN Specification 2.0 Part B, basic concepts,
/// "arbitration"). The winner is the offer of the least key, and of equal keys that of the least
/// node: the one that a bus finds bit by bit (`walk_leaves_least`).
///
/// Promise: the outcome is that of arbitration over these offers. The frame of the least key wins,
/// of equal keys that of the least node, and the senders are exactly the nodes that offer this
/// frame.
///
/// Answers: `Idle` exactly where nobody offers.
///
/// Shown by: `offers_are_decided`, `levels_over_two_lines`, `always_idle`,
/// `an_equal_word_is_left_out`, `another_payload_is_sent_too`, `nodes_above_31_are_not_asked`,
/// `rtr_is_forgotten`. The program does not run it.
pub fn arbitrate(offers: &Offers) -> Outcome
    ensures { IsOutcome offers.now result }
{
    let sending = least_words(offers);
    let Some(first) = sending.least() else {
        return Outcome::Idle;
    };
    let frame = offers.get(first).unwrap();
    Outcome::Won {
        frame,
        senders: senders_of(offers, &frame, sending),
    }
}

/// Those of `sending` that offer this frame. The others offer one with the same identifier and
/// kind, and with another payload.
fn senders_of(offers: &Offers, frame: &Frame, sending: NodeSet) -> NodeSet
    ensures { (i : ℕ) →
        IsTrue (has result i) ↔ (IsTrue (has sending i) × (offer_at offers.now i ≡ Some frame.now)) }
{
    let mut senders = sending;
    let mut rest = sending;
    while let Some(node) = rest.least() {
        rest.remove(node);
        if offers.get(node) != Some(*frame) {
            senders.remove(node);
        }
    }
    senders
}
