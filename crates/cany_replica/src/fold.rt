//! The table of a node: what the messages that it delivered by TOTCAN make of the empty one.
ghost use Rattle.std.specs.Prelude.{◌≡◌, ◌∷◌, [], option_to_list};
ghost use Rattle.cany_base.specs.declared.message.Service.TheVariants.{Tot};
ghost use Rattle.cany_model.specs.Promises.Order.{tot_content, tot_deliveries};
ghost use Rattle.cany_model.specs.Rules.Messages.{is_service};
ghost use Rattle.cany_replica.specs.Fold.{replies_after, table_after};
ghost use Rattle.cany_replica.specs.Fold as folded;

use crate::answer::Answer;
use crate::table::Table;
use cany_base::{LogEntry, MsgKey, Payload, Service};

/// Whether a message is one of TOTCAN.
#[tactic(auto, unfolding(cany_model::specs::Rules::Messages::is_service, cany_model::specs::Bus::Frames::same_class))]
fn is_tot(service: Service) -> bool
    ensures { result ≡ is_service service Tot }
{
    matches!(service, Service::Tot)
}

/// Whether an entry of a log delivers a message by TOTCAN.
pub(crate) fn is_applied(entry: &LogEntry) -> bool
    ensures { result ≡ folded.is_applied entry.now }
{
    match *entry {
        LogEntry::Deliver { service, .. } => is_tot(service),
        LogEntry::Failed { .. } | LogEntry::View { .. } => false,
    }
}

impl Table {
    /// Answers a message.
    #[tactic(auto, unfolding(crate::specs::Fold::table_after, crate::specs::Fold::replies_after))]
    fn answer(&mut self, msg: MsgKey, payload: &Payload) -> Answer
        ensures table { self.new ≡ table_after self.old (record { msg = msg; payload = payload.now } ∷ []) }
        ensures answer { result ∷ [] ≡ replies_after self.old (record { msg = msg; payload = payload.now } ∷ []) }
    {
        let reply = self.apply(payload);
        Answer { msg, reply }
    }

    /// Applies what an entry of a log delivers by TOTCAN. Any other entry changes nothing, and has
    /// no answer.
    #[tactic(auto, unfolding(crate::specs::Fold::table_after, crate::specs::Fold::replies_after))]
    pub(crate) fn take_in(&mut self, entry: &LogEntry) -> Option<Answer>
        ensures table { self.new ≡ table_after self.old (tot_content entry.now) }
        ensures answer { option_to_list result ≡ replies_after self.old (tot_content entry.now) }
    {
        match *entry {
            LogEntry::Deliver {
                service,
                msg,
                payload,
                ..
            } => {
                if is_tot(service) {
                    Some(self.answer(msg, &payload))
                } else {
                    None
                }
            }
            LogEntry::Failed { .. } | LogEntry::View { .. } => None,
        }
    }
}

/// The table of a node by its log. It takes no memory.
///
/// Promise: the table is the one after the messages that the log delivers by TOTCAN, in their
/// order. Other entries change nothing.
///
/// Shown by: nothing in the program runs it; its edit shows its clauses:
/// `messages_of_every_service_change_the_table`.
pub fn table_of(log: &[LogEntry]) -> Table
    ensures { result ≡ folded.table_of (tot_deliveries log.now) }
{
    let mut table = Table::empty();
    for entry in log {
        table.take_in(entry);
    }
    table
}
