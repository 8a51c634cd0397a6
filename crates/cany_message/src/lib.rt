//! What the broadcast protocols share: the number that stands for a message, the frames that name
//! it, and the actions that deliver it, relay its frame and withdraw it. Then what a notice of such
//! a frame calls for, the sequence numbers of scripted sends, and how many are by a service.
#![tactic(auto)]

mod actions;
mod calls;
mod frame;
mod keys;
mod number;
mod sends;
mod sequence;
mod threads;

pub use actions::{deliver, identifier_without_incarnation, relay, reply_to_copy, withdraw};
pub use calls::{Calls, Reply, confirmation_frame, put};
pub use frame::{FrameClass, MessageFrame, bare_frame, is_of_class};
pub use keys::keys_of;
pub use number::message_number;
pub use sends::sends_by;
pub use sequence::SequenceNumbers;
