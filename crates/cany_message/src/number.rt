ghost use Rattle.std.specs.Prelude.{◌≡◌};
ghost use Rattle.cany_message.specs.Numbers.{message_number};

use cany_base::{MsgKey, NodeId};

/// The number that stands for a message.
///
/// Promise: the sequence number times 64, plus the number of the origin.
///
/// Shown by: `numbers_of_32_nodes`.
pub fn message_number(msg: &MsgKey) -> u64
    ensures { result ≡ message_number msg.now.seq msg.now.origin }
{
    u64::from(msg.seq) * u64::from(NodeId::COUNT) + u64::from(msg.origin.get())
}
