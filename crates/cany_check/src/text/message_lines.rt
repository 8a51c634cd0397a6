//! The lines of the messages, in file order.
ghost use Rattle.std.specs.Prelude.{◌≡◌, ◌<◌, ◌≤◌};
ghost use Rattle.std.specs.List.{concat};
ghost use Rattle.cany_base.specs.Limits.{greatest_default};
ghost use Rattle.cany_check.specs.Texts.CheckLines as line;
ghost use Rattle.cany_check.specs.Texts.CheckText.{message_lines};
ghost use Rattle.cany_check.specs.Deciding.Fates.{message_fates};
ghost use Rattle.cany_check.specs.Accounts.Orderly.{AreSmallSlots, most_slot};
ghost use Rattle.cany_check.specs.Texts.FateParts.{fate_room, fate_texts, most_fate_bytes};
ghost use Rattle.cany_log.specs.Written.{IsWritten};

use crate::account::Account;
use crate::account::record::MessageRecord;
use crate::deciders::findings::{Fate, Told};
use crate::text::fate_fields::{
    FateFields, apart_fields, first_of, first_or_dash, last_if_any, named, named_set, text_if,
};
use cany_base::{Params, Service, Slot};
use cany_io::{Failed, Sink};
use cany_log::{TextField, write_line};
use cany_text::names::service_name;

/// How long the protocol of the service waits: the slots between a copy of a message and the last
/// closing of it by TOTCAN, or its timer by RELCAN. EDCAN has neither: in a run no node has a
/// message of EDCAN ahead, so this is asked of the other two alone.
#[tactic(auto, unfolding(cany_model::specs::Rules::Messages::is_service, cany_model::specs::Bus::Frames::same_class))]
fn wait(params: &Params, service: Service) -> u64
    ensures wait { result ≡ line.wait params.now service }
    ensures short { result ≤ greatest_default }
{
    match service {
        Service::Tot => params.bound,
        Service::Ed => params.confirm,
        Service::Rel => params.confirm,
    }
}

/// The last slot that carried a data frame of the message, or else its scripted slot.
fn last_copy(message: &MessageRecord) -> Slot
    requires slot { message.now.slot < most_slot }
    requires carried { AreSmallSlots message.now.carried }
    ensures slot { result ≡ line.last_copy message.now }
    ensures small { result < most_slot }
{
    match message.carried {
        Some(slots) => slots.last,
        None => message.slot,
    }
}

/// The last slot in which a timer or a closing of the message can be due, where one is ahead.
fn due_if_ahead(params: &Params, message: &MessageRecord) -> Option<Slot>
    requires slot { message.now.slot < most_slot }
    requires carried { AreSmallSlots message.now.carried }
    ensures { result ≡ line.due_if_ahead params.now message.now }
{
    if message.ahead.is_empty() {
        return None;
    }
    Some(last_copy(message) + wait(params, message.service))
}

/// The fate of a message that is open, and why it is.
fn open_fields(params: &Params, message: &MessageRecord) -> FateFields
    requires slot { message.now.slot < most_slot }
    requires carried { AreSmallSlots message.now.carried }
    ensures texts { fate_texts result ≡ line.open_fields params.now message.now }
    ensures short { fate_room result ≤ most_fate_bytes }
{
    FateFields {
        first: TextField::Text("open"),
        second: text_if(message.queued, "queued"),
        third: TextField::SetIfAny("waits", message.waits),
        fourth: TextField::SetIfAny("ahead", message.ahead),
        fifth: TextField::NumberIfAny("by", due_if_ahead(params, message)),
    }
}

/// What became of a message.
fn fate_fields(params: &Params, message: &MessageRecord, told: &Told) -> FateFields
    requires slot { message.now.slot < most_slot }
    requires carried { AreSmallSlots message.now.carried }
    ensures texts { fate_texts result ≡ line.message_fate_fields params.now message.now told.now told.now.fate }
    ensures short { fate_room result ≤ most_fate_bytes }
{
    match told.fate {
        Fate::All => named("all"),
        Fate::Nobody => named_set("none had", told.had),
        Fate::Apart => apart_fields(told),
        Fate::Open => open_fields(params, message),
    }
}

/// Writes the line of a message.
fn write_message<K: Sink>(
    params: &Params,
    message: &MessageRecord,
    told: &Told,
    sink: &mut K,
) -> Result<(), Failed>
    requires slot { message.now.slot < most_slot }
    requires carried { AreSmallSlots message.now.carried }
    ensures { IsWritten (line.message_line params.now message.now told.now) result
        (K.taken sink.old) (K.taken sink.new) (K.faults sink.old) (K.faults sink.new) }
{
    let fate = fate_fields(params, message, told);
    write_line(
        "message",
        &[
            TextField::Text(service_name(message.service)),
            TextField::Number(u64::from(message.key.origin.get())),
            TextField::Number(u64::from(message.key.seq)),
            TextField::Text("slot"),
            TextField::Number(message.slot),
            fate.first,
            fate.second,
            fate.third,
            fate.fourth,
            fate.fifth,
            TextField::Text("carried"),
            first_or_dash(message.carried),
            last_if_any(message.carried),
            TextField::NumberIfAny("delivered", first_of(told.slots)),
            last_if_any(told.slots),
        ],
        sink,
    )
}

/// Writes the lines of the messages of the account.
pub(crate) fn write_messages<K: Sink>(
    account: &Account<'_>,
    told: &[Told],
    sink: &mut K,
) -> Result<(), Failed>
    requires { told.now ≡ message_fates account.now }
    ensures { IsWritten (concat (message_lines account.now)) result
        (K.taken sink.old) (K.taken sink.new) (K.faults sink.old) (K.faults sink.new) }
{
    let params = account.params();
    for (i, message) in account.messages().iter().enumerate() {
        write_message(params, message, &told[i], sink)?;
    }
    Ok(())
}
