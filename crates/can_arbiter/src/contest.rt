//! Arbitration over offers that come one after another.
ghost use Rattle.std.specs.Prelude.{◌≡◌, ◌==◌, ℕ, Option, Some, IfSome};
ghost use Rattle.cany_base.specs.Frame.{FrameParts};
ghost use Rattle.cany_base.specs.Nodes.{has};
ghost use Rattle.can_frame.specs.Identifier.{FitsFormat};
ghost use Rattle.can_arbiter.specs.Outcome.{IsEntered, IsOutcomeAmong, frame_of};

use crate::arbitration::Outcome;
use can_frame::key;
use cany_base::{Format, Frame, NodeId, NodeSet};

/// The set of this node alone.
fn only(node: NodeId) -> NodeSet
    ensures { (i : ℕ) → has result i ≡ (i == node) }
{
    let mut set = NodeSet::empty();
    set.insert(node);
    set
}

impl Outcome {
    /// Enters what a node offers, after all offers of lesser nodes. So one pass over the nodes
    /// decides a slot, as `arbitrate` decides it over a table of their offers.
    ///
    /// Promise: let the value be the outcome of arbitration over the offers of lesser nodes. Then
    /// it is afterwards the outcome over these offers and the one of this node.
    ///
    /// Shown by: `a_later_frame_of_an_equal_key_wins`, `one_sender_of_a_merged_frame`,
    /// `two_orders`, `four_messages`.
    // A hint, since the bus makes most of these calls in one place.
    #[inline(always)]
    pub fn enter(&mut self, format: Format, node: NodeId, frame: &Frame)
        requires best { IfSome (frame_of self.old) (FitsFormat format) }
        requires frame { FitsFormat format frame.now }
        ensures outcome { (before after : ℕ → Option FrameParts) → IsOutcomeAmong format before self.old
            → IsEntered node (Some frame.now) before after → IsOutcomeAmong format after self.new }
        ensures best { IfSome (frame_of self.new) (FitsFormat format) }
    {
        if let Outcome::Won {
            frame: best,
            senders,
        } = self
        {
            // Mostly all nodes that offer a frame offer the same one.
            if *best == *frame {
                senders.insert(node);
                return;
            }
            if key(format, best) <= key(format, frame) {
                return;
            }
        }
        *self = Outcome::Won {
            frame: *frame,
            senders: only(node),
        };
    }
}
