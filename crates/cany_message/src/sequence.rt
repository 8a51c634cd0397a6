ghost use Rattle.std.specs.Prelude.{◌≡◌, ℕ, ◌<◌, List, [], ◌∷◌};
ghost use Rattle.cany_base.specs.declared.message.SendAsk.{SendAsk};
ghost use Rattle.cany_base.specs.Limits.{most_nodes};
ghost use Rattle.cany_message.specs.Sequence.{sent_by, HaveCounted};
ghost use Rattle.cany_model.specs.Rules.Messages.{message_of};

use cany_base::NodeId;
use std::marker::Model;

/// Counts the scripted sends of each node, which gives their messages the sequence numbers.
#[derive(Drop)]
pub struct SequenceNumbers {
    sent: [u16; NodeId::COUNT as usize],
}

impl Model for SequenceNumbers {
    ghost use Rattle.std.specs.Prelude.{ℕ, List};

    ghost Value = { List ℕ };

    ghost view = { λ numbers. numbers.sent };
}

impl SequenceNumbers {
    /// Numbers by which no send is counted yet.
    ///
    /// Promise: they count no sends.
    ///
    /// Shown by: `four_messages`.
    pub fn new() -> SequenceNumbers
        ensures { HaveCounted [] result }
    {
        SequenceNumbers {
            sent: [0; NodeId::COUNT as usize],
        }
    }

    /// Counts a send of a node, which follows those counted before. Gives the sequence number of
    /// its message.
    ///
    /// Promise: of numbers that count some sends, the answer is the sequence number of the message
    /// of this send by the definition. They then count this send too.
    ///
    /// Shown by: `four_messages`, `a_send_is_not_counted`.
    pub fn next(&mut self, origin: NodeId) -> u16
        requires { (node : ℕ) → node < most_nodes → sent_by self.old node < 65535 }
        ensures message { (earlier : List SendAsk) (send : SendAsk) → HaveCounted earlier self.old → send.node ≡ origin → result ≡ (message_of earlier send).seq }
        ensures counts { (earlier : List SendAsk) (send : SendAsk) → HaveCounted earlier self.old → send.node ≡ origin → HaveCounted (send ∷ earlier) self.new }
    {
        let place = usize::from(origin.get());
        let seq = self.sent[place];
        self.sent[place] = seq + 1;
        seq
    }
}
