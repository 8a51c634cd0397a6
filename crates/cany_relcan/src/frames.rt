ghost use Rattle.std.specs.Prelude.{◌≡◌, []};
ghost use Rattle.cany_base.specs.declared.class.Class.TheVariants as class;

use cany_base::{Class, MsgKey, Payload};
use cany_message::{FrameClass, MessageFrame};

/// The class of the frames that carry messages of RELCAN.
#[derive(Drop)]
pub(crate) struct RelClass;

impl FrameClass for RelClass {
    ghost class = { class.Rel };

    fn class() -> Class {
        Class::Rel
    }
}

/// The class of confirmations.
#[derive(Drop)]
pub(crate) struct ConfirmClass;

impl FrameClass for ConfirmClass {
    ghost class = { class.Confirm };

    fn class() -> Class {
        Class::Confirm
    }
}

/// A message, which travels in its data frame.
pub(crate) type Data = MessageFrame<RelClass>;

/// That the origin of a message has sent it, which it tells in a frame without payload.
pub(crate) type Confirmation = MessageFrame<ConfirmClass>;

/// The confirmation of a message.
pub(crate) fn confirmation_of(msg: MsgKey) -> Confirmation
    ensures msg { result.msg ≡ msg }
    ensures payload { result.payload ≡ [] }
{
    Confirmation::new(msg, Payload::empty())
}
