ghost use Rattle.std.specs.Prelude.{◌≡◌, ◌<◌};
ghost use Rattle.cany_base.specs.Limits.{most_nodes};
ghost use Rattle.cany_model.specs.Rules.Knowledge.{shows_life, sign_of};

use cany_base::{Class, Frame, NodeId, Payload};
use cany_diffuse::Diffused;
use std::marker::Model;

/// That a node has failed, as it was found out in a membership cycle. It is told of by a frame
/// without payload.
#[derive(Clone, Copy)]
pub(crate) struct DiffusedSign {
    pub(crate) node: NodeId,
    /// The number of the cycle, counted from 0.
    pub(crate) cycle: u16,
}

impl Model for DiffusedSign {
    ghost use Rattle.cany_model.specs.Rules.Knowledge.{FailureSign};

    ghost Value = { FailureSign };

    ghost view = { λ s. record { node = s.node; cycle = s.cycle } };

    ghost inverse = { λ s. record { node = s.node; cycle = s.cycle } };
}

impl DiffusedSign {
    /// The sign that a frame tells of. The frame's class is not looked at.
    pub(crate) fn of(frame: &Frame) -> DiffusedSign
        ensures sign { result ≡ sign_of frame.now }
        ensures in_range { frame.now.node < most_nodes }
    {
        // Read for what it ensures: that the node is in range.
        let _number = frame.node.get();
        DiffusedSign {
            node: frame.node,
            cycle: frame.number,
        }
    }
}

impl Diffused for DiffusedSign {
    ghost use Rattle.std.proofs.Common.{arith, refl};
    ghost use Rattle.cany_base.specs.Limits.{most_nodes};
    ghost use Rattle.cany_life.specs.Life.{sign_number};
    ghost use Rattle.cany_model.specs.Rules.Knowledge.{fda_frame};

    ghost key = { sign_number };

    ghost form = { fda_frame };

    ghost is_value = { λ s. s.node < most_nodes };

    fn key(&self) -> u64 {
        u64::from(self.cycle) * u64::from(NodeId::COUNT) + u64::from(self.node.get())
    }

    fn form(&self) -> Frame {
        Frame {
            class: Class::Fda,
            number: self.cycle,
            node: self.node,
            inc: 0,
            payload: Payload::empty(),
        }
    }

    ghost one_name_one_key = { λ a b in_a in_b. (λ one. Prim.omega (arith, one.number, one.node), λ e. record { class = refl; number = Prim.omega (arith, e, in_a, in_b); node = Prim.omega (arith, e, in_a, in_b) }) };
}

/// Whether the frame shows that the node lives which it names.
pub(crate) fn shows_life(frame: &Frame) -> bool
    ensures { result ≡ shows_life frame.now }
{
    can_frame::shows_life(frame.class)
}
