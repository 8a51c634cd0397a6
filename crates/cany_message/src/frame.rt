ghost use Rattle.std.specs.Prelude.{◌≡◌, ◌<◌, []};
ghost use Rattle.cany_base.specs.declared.class.Class.{Class};
ghost use Rattle.cany_base.specs.Frame.{FitsClass};
ghost use Rattle.cany_base.specs.Limits.{most_nodes};
ghost use Rattle.cany_model.specs.Bus.Frames.{same_class};

use crate::number::message_number;
use cany_base::{Class, Frame, MsgKey, Payload};
use cany_diffuse::Diffused;
use std::marker::PhantomData;

/// A class of frames that name a message, as the data frames of a service do.
pub trait FrameClass {
    /// The class.
    ghost class: { Class };

    /// The class of the frames.
    ///
    /// Promise: the class that the type stands for.
    fn class() -> Class
        ensures { result ≡ class };
}

/// What a frame of the class `C` says: the message that it names, and the bytes that it carries.
#[derive(Drop)]
pub struct MessageFrame<C: FrameClass> {
    pub msg: MsgKey,
    pub payload: Payload,
    of: PhantomData<C>,
}

impl<C: FrameClass> MessageFrame<C> {
    /// What a frame says that names this message and carries this payload.
    ///
    /// Promise: it has this message and this payload.
    pub fn new(msg: MsgKey, payload: Payload) -> MessageFrame<C>
        ensures msg { result.msg ≡ msg }
        ensures payload { result.payload ≡ payload }
    {
        MessageFrame {
            msg,
            payload,
            of: PhantomData,
        }
    }

    /// What a frame says of a message. The frame's class is not looked at.
    ///
    /// Promise: the sequence number is the number of the frame, the origin is its node, which is
    /// below 64, and the payload is its own.
    pub fn of(frame: &Frame) -> MessageFrame<C>
        ensures seq { result.msg.seq ≡ frame.now.number }
        ensures origin { result.msg.origin ≡ frame.now.node }
        ensures payload { result.payload ≡ frame.now.payload }
        ensures in_range { frame.now.node < most_nodes }
    {
        // Read for what it ensures: that the node is in range.
        let _number = frame.node.get();
        let msg = MsgKey {
            origin: frame.node,
            seq: frame.number,
        };
        MessageFrame::new(msg, frame.payload)
    }
}

impl<C: FrameClass> Diffused for MessageFrame<C> {
    ghost use Rattle.cany_message.specs.Numbers.{message_number};
    ghost use Rattle.std.proofs.Common.{arith, refl};

    ghost key = { λ d. message_number d.msg.seq d.msg.origin };

    ghost form = { λ d. record { class = C.class; number = d.msg.seq; node = d.msg.origin; inc = 0; payload = d.payload } };

    ghost is_value = { λ d. (d.msg.origin < most_nodes) × FitsClass C.class d.payload };

    fn key(&self) -> u64 {
        message_number(&self.msg)
    }

    fn form(&self) -> Frame {
        Frame {
            class: C::class(),
            number: self.msg.seq,
            node: self.msg.origin,
            inc: 0,
            payload: self.payload,
        }
    }

    ghost one_name_one_key = { λ a b in_a in_b. (
      λ one. Prim.omega (arith, one.number, one.node),
      λ e. record { class = refl; number = Prim.omega (arith, e, in_a.0, in_b.0); node = Prim.omega (arith, e, in_a.0, in_b.0) },
    ) };
}

/// The frame of a class that names the message of this frame, and carries nothing.
///
/// Promise: the frame has this class and the number and node of the given one. It has incarnation 0
/// and no bytes.
pub fn bare_frame(class: Class, frame: &Frame) -> Frame
    requires { FitsClass class [] }
    ensures { result ≡ record { class = class; number = frame.now.number; node = frame.now.node; inc = 0; payload = [] } }
{
    Frame {
        class,
        number: frame.number,
        node: frame.node,
        inc: 0,
        payload: Payload::empty(),
    }
}

/// Whether the frame is of a class.
///
/// Promise: whether the classes are the same.
///
/// Answers: `true` exactly where the frame is of this class.
///
/// Shown by: `three_services`.
#[tactic(auto, unfolding(cany_model::specs::Bus::Frames::same_class))]
pub fn is_of_class(frame: &Frame, class: Class) -> bool
    ensures { result ≡ same_class frame.now.class class }
{
    frame.class == class
}
