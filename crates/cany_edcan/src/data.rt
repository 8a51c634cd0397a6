ghost use Rattle.std.specs.Prelude.{◌≡◌};
ghost use Rattle.cany_base.specs.declared.class.Class.TheVariants as class;
ghost use Rattle.cany_model.specs.Bus.Frames.{same_class};

use cany_base::{Class, Frame};
use cany_message::{FrameClass, MessageFrame, is_of_class};

/// The class of the frames that carry messages of EDCAN.
#[derive(Drop)]
pub(crate) struct EdClass;

impl FrameClass for EdClass {
    ghost class = { class.Ed };

    fn class() -> Class {
        Class::Ed
    }
}

/// A message, which travels in its data frame.
pub(crate) type Data = MessageFrame<EdClass>;

/// Whether the frame is the data frame of an EDCAN message.
pub(crate) fn is_data(frame: &Frame) -> bool
    ensures { result ≡ same_class frame.now.class class.Ed }
{
    is_of_class(frame, Class::Ed)
}
