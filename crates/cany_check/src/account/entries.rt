//! What the entries of logs tell: their slots, and the messages that they deliver.
ghost use Rattle.std.specs.Prelude.{◌≡◌, ◌&&◌};
ghost use Rattle.std.specs.Str.{bytes_eq};
ghost use Rattle.cany_model.specs.Rules.Messages.{is_service};
ghost use Rattle.cany_check.specs.Deciding.Fates.{with_slot};
ghost use Rattle.cany_check.specs.Accounts.Words.{entry_slot, is_delivery, same_key};

use crate::account::record::{FirstAndLast, MessageRecord};
use cany_base::{LogEntry, MsgKey, Payload, Service, Slot};

/// The least and the greatest of some slots, with one more.
pub(crate) fn with_slot(slots: Option<FirstAndLast>, slot: Slot) -> Option<FirstAndLast>
    ensures { result ≡ with_slot slots slot }
{
    match slots {
        None => Some(FirstAndLast {
            first: slot,
            last: slot,
        }),
        Some(slots) => Some(FirstAndLast {
            first: slot.min(slots.first),
            last: slot.max(slots.last),
        }),
    }
}

/// The slot of an entry.
pub(crate) fn entry_slot(entry: &LogEntry) -> Slot
    ensures { result ≡ entry_slot entry.now }
{
    match entry {
        LogEntry::Deliver { slot, .. } => *slot,
        LogEntry::Failed { slot, .. } => *slot,
        LogEntry::View { slot, .. } => *slot,
    }
}

/// Whether the services are one.
#[tactic(auto, unfolding(cany_model::specs::Rules::Messages::is_service, cany_model::specs::Bus::Frames::same_class))]
pub(crate) fn is_service(a: Service, b: Service) -> bool
    ensures { result ≡ is_service a b }
{
    a == b
}

/// Whether these are the service, the key and the payload of the message.
fn is_message(message: &MessageRecord, service: Service, key: MsgKey, payload: Payload) -> bool
    ensures { result ≡ (same_key message.now.key key && is_service message.now.service service && bytes_eq message.now.payload payload) }
{
    message.key == key && is_service(message.service, service) && message.payload == payload
}

/// Whether the entry delivers the message.
pub(crate) fn is_delivery(message: &MessageRecord, entry: &LogEntry) -> bool
    ensures { result ≡ is_delivery message.now entry.now }
{
    match entry {
        LogEntry::Deliver {
            service,
            msg,
            payload,
            ..
        } => is_message(message, *service, *msg, *payload),
        LogEntry::Failed { .. } => false,
        LogEntry::View { .. } => false,
    }
}
