//! What tells frames and attempts to carry them apart, as keys.
ghost use Rattle.std.specs.Prelude.{◌≡◌};
ghost use Rattle.cany_model.specs.Bus.Frames.{identity_of};

use cany_base::{Class, Frame, NodeId};

/// What tells frames apart: one frame has one class, number and node, in each of its attempts.
#[derive(Clone, Copy, PartialEq, Eq, PartialOrd, Ord, Hash)]
pub struct FrameIdentity {
    pub class: Class,
    /// The number in its identifier, of which its class decides what it counts.
    pub number: u16,
    /// The node in its identifier, which need not be a sender of it.
    pub node: NodeId,
}

impl FrameIdentity {
    ghost use Rattle.can_fault.specs.Identities.{frame_identity};

    /// The identity of the frame that a rule names.
    ///
    /// Promise: it has this class, number and node.
    pub fn new(class: Class, number: u16, node: NodeId) -> FrameIdentity
        ensures { result ≡ record { class = class; number = number; node = node } }
    {
        FrameIdentity {
            class,
            number,
            node,
        }
    }

    /// The identity of a frame that the bus carries. Neither its data nor its incarnation tells it
    /// apart.
    ///
    /// Promise: it is the identity of the frame: its class, number and node.
    pub fn of(frame: &Frame) -> FrameIdentity
        ensures { result ≡ frame_identity (identity_of frame.now) }
    {
        FrameIdentity::new(frame.class, frame.number, frame.node)
    }
}

/// An attempt to carry a frame.
#[derive(Clone, Copy, PartialEq, Eq, PartialOrd, Ord)]
pub struct Attempt {
    pub identity: FrameIdentity,
    /// Which of the frame's attempts it is, counted from 1.
    pub nth: u64,
}
