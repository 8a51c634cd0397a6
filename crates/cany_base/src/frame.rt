ghost use Rattle.std.specs.Prelude.{ℕ};

use crate::class::Class;
use crate::node::NodeId;
use crate::payload::Payload;
use std::marker::Model;

/// A frame that a controller sends. Its class, number and node name it. A remote frame carries no
/// bytes, and a reception history vector has four or eight, by the format of its scenario.
#[derive(Clone, Copy, Debug, PartialEq, Eq)]
pub struct Frame {
    pub class: Class,
    pub number: u16,
    pub node: NodeId,
    /// The sender's incarnation, counted from 0 at the opening, below 16: in a vector, a life sign,
    /// a join and a leave. 0 in the frames of every other class.
    pub inc: u8,
    pub payload: Payload,
}

impl Model for Frame {
    ghost use Rattle.cany_base.specs.Frame.{FrameParts, IsFormed};

    ghost Value = { FrameParts };

    ghost view = { λ f. record { class = f.class; number = f.number; node = f.node; inc = f.inc; payload = f.payload } };

    ghost invariant = { λ f. IsFormed f.class f.inc f.payload };

    ghost inverse = { λ f. record { class = f.class; number = f.number; node = f.node; inc = f.inc; payload = f.payload } };
}
