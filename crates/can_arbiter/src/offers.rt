ghost use Rattle.std.specs.Prelude.{◌≡◌, ◌==◌, ℕ, Some, None, if◌then◌else◌};
ghost use Rattle.cany_base.specs.Nodes.{has};
ghost use Rattle.can_frame.specs.Identifier.{FitsFormat};
ghost use Rattle.can_arbiter.specs.Offers.{does_offer, offer_at, word_at};

use crate::levels::levels;
use cany_base::{Format, Frame, NodeId, NodeSet};
use std::marker::Model;

/// What each node offers to the bus in one slot: its waiting frame of the least key, if it has one.
#[derive(Drop)]
pub struct Offers {
    format: Format,
    frames: [Option<Frame>; NodeId::COUNT as usize],
    /// The nodes that offer a frame, so that no other has to be looked at.
    offering: NodeSet,
}

impl Model for Offers {
    ghost use Rattle.can_arbiter.specs.Offers.{OfferTable, IsOfferTable};

    ghost Value = { OfferTable };

    ghost view = { λ offers. record { format = offers.format; frames = offers.frames } };

    ghost invariant = { λ offers. IsOfferTable offers.format offers.frames offers.offering };
}

impl Offers {
    /// A table in which no node offers.
    ///
    /// Promise: no node offers, in the format that is given.
    ///
    /// Shown by: `offers_are_decided`. The program does not run it.
    pub fn none(format: Format) -> Offers
        ensures format { result.format ≡ format }
        ensures none { (i : ℕ) → offer_at result i ≡ None }
    {
        Offers {
            format,
            frames: [None; NodeId::COUNT as usize],
            offering: NodeSet::empty(),
        }
    }

    /// Enters the frame of node `n`, in place of what it offered before.
    ///
    /// Promise: node `n` offers this frame, and what every other node offers stays.
    ///
    /// Shown by: `offers_are_decided`, `first_offer_is_kept`. The program does not run it.
    pub fn put(&mut self, n: NodeId, f: Frame)
        requires { FitsFormat self.old.format f }
        ensures format { self.new.format ≡ self.old.format }
        ensures offers { (i : ℕ) → offer_at self.new i ≡ (if i == n then Some f else offer_at self.old i) }
    {
        self.frames[n.get() as usize] = Some(f);
        self.offering.insert(n);
    }

    /// What node `n` offers.
    ///
    /// Promise: the frame that the node offers.
    ///
    /// Answers: `None` exactly where node `n` offers nothing.
    ///
    /// Shown by: `offers_are_decided`. The program does not run it.
    pub fn get(&self, n: NodeId) -> Option<Frame>
        ensures { result ≡ offer_at self.now n }
    {
        self.frames[n.get() as usize]
    }

    /// The nodes that offer a frame.
    pub(crate) fn offering(&self) -> NodeSet
        ensures { (i : ℕ) → has result i ≡ does_offer self.now i }
    {
        self.offering
    }

    /// The levels that the node's frame sends, as a word; 0 where it offers none.
    pub(crate) fn word(&self, n: NodeId) -> u32
        ensures { result ≡ word_at self.now n }
    {
        match &self.frames[n.get() as usize] {
            Some(frame) => levels(self.format, frame),
            None => 0,
        }
    }
}
