ghost use Rattle.std.specs.Prelude.{◌≡◌, ◌≤◌, IfOk, length, map};
ghost use Rattle.cany_base.specs.Limits.{most_sends};
ghost use Rattle.cany_model.specs.Rules.Messages.{message_key, messages_of};

use crate::sequence::SequenceNumbers;
use cany_base::{Memory, MsgKey, SendAsk};
use std::alloc::Global;

/// The keys of the messages of these scripted sends, in file order.
///
/// Promise: the keys are those of the messages of these sends by the definition, in their order.
///
/// Shown by: `four_messages`, `every_key_has_number_zero`.
///
/// # Errors
///
/// `Memory`: out of memory.
pub fn keys_of(alloc: Global, sends: &[SendAsk]) -> Result<Vec<MsgKey>, Memory>
    requires { length sends.now ≤ most_sends }
    ensures { IfOk result (λ keys. keys.items ≡ map message_key (messages_of sends.now)) }
{
    let mut numbers = SequenceNumbers::new();
    let mut keys = Vec::with_capacity(alloc, sends.len())?;
    for send in sends {
        let origin = send.node;
        let seq = numbers.next(origin);
        keys.push(MsgKey { origin, seq })?;
    }
    Ok(keys)
}
