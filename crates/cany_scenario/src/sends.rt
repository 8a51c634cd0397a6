//! The scripted sends of a scenario text.
ghost use Rattle.std.specs.Prelude.{◌≡◌, IfSome};
ghost use Rattle.toml.specs.Data.{member};
ghost use Rattle.toml.specs.View.{view, members_view, table_view};
ghost use Rattle.cany_text.specs.SendsText.{bytes_of, send_from};
ghost use Rattle.cany_text.specs.TextNames.{key_name};
ghost use Rattle.cany_scenario.specs.Entries.{entry_of};
ghost use Rattle.cany_scenario.specs.SendsParts.{four_members, send_of_values};

use crate::array::{Array, FromEntry};
use crate::asks::{node_at, slot_at};
use crate::entry::{Entry, number_from, wrong_kind};
use crate::value::FromValue;
use crate::word::{Named, one_of};
use cany_base::limits::MOST_SENDS;
use cany_base::{NodeId, Params, Payload, SendAsk, Service};
use cany_text::names::{key_name, service_name};
use cany_text::{KeyName, Position, ScenarioFault, TableName};
use std::collections::btree_map::Iter;
use toml::{Table, Value};

/// The keys that an entry can have.
const SEND_KEYS: [KeyName; 4] = [
    KeyName::Slot,
    KeyName::Node,
    KeyName::Service,
    KeyName::DataKey,
];

/// How many digits a payload can have.
const MOST_DIGITS: usize = 16;

/// The scripted sends.
pub(crate) const SENDS: Array = Array {
    table: TableName::Send,
    name: KeyName::Send,
    most: MOST_SENDS,
};

/// The values of an entry that has each of the four keys, and no other.
#[derive(Clone, Copy)]
struct SendValues<'a> {
    payload: &'a Value,
    node: &'a Value,
    service: &'a Value,
    slot: &'a Value,
}

impl FromEntry for SendAsk {
    ghost use Rattle.cany_text.specs.SendsText.{send_from};

    ghost meaning = { send_from };

    fn from_entry(params: &Params, entry: &Entry) -> Result<SendAsk, ScenarioFault> {
        // Mostly an entry has its four keys, and one walk finds their values without a look-up.
        match four_values(entry.members) {
            Some(values) => send_of_values(params, entry, &values),
            None => send_by_keys(params, entry),
        }
    }
}

/// The values of the four keys, where the table has just these. `None` says nothing of a table.
fn four_values<'a>(members: &'a Table) -> Option<SendValues<'a>>
    ensures { IfSome result (λ values. table_view members.now ≡ four_members values) }
{
    // A table gives its keys in their order as texts.
    let mut entries = members.iter();
    let payload = next_value(&mut entries, KeyName::DataKey)?;
    let node = next_value(&mut entries, KeyName::Node)?;
    let service = next_value(&mut entries, KeyName::Service)?;
    let slot = next_value(&mut entries, KeyName::Slot)?;
    match entries.next() {
        Some(_) => None,
        None => Some(SendValues {
            payload,
            node,
            service,
            slot,
        }),
    }
}

/// The value of the next entry, where that is of this key. `None` says nothing of the entries.
fn next_value<'a>(entries: &mut Iter<'a, String, Value>, name: KeyName) -> Option<&'a Value>
    ensures { IfSome result (λ value. members_view entries.old ≡ member (key_name name) (view value.now) (members_view entries.new)) }
{
    let (key, value) = entries.next()?;
    if key.as_str() == key_name(name) {
        Some(value)
    } else {
        None
    }
}

/// The send that the four values make.
#[tactic(auto, unfolding(crate::specs::SendsParts::send_of_values))]
fn send_of_values(
    params: &Params,
    entry: &Entry,
    values: &SendValues,
) -> Result<SendAsk, ScenarioFault>
    ensures { result ≡ send_of_values params.now (entry_of entry.now) values.now }
{
    let slots = params.slots - 1;
    let slot = number_from(entry.position(KeyName::Slot), values.slot, 0, slots)?;
    let nodes = u64::from(params.nodes) - 1;
    let node = number_from(entry.position(KeyName::Node), values.node, 0, nodes)?;
    let service = Service::from_value(entry.position(KeyName::Service), values.service)?;
    let payload = Payload::from_value(entry.position(KeyName::DataKey), values.payload)?;
    Ok(SendAsk {
        slot,
        node: NodeId::of_index(node as usize),
        service,
        payload,
    })
}

/// The send of an entry that may lack a key, or have another.
#[tactic(auto, unfolding(cany_text::specs::SendsText::send_from))]
fn send_by_keys(params: &Params, entry: &Entry) -> Result<SendAsk, ScenarioFault>
    ensures { result ≡ send_from params.now (entry_of entry.now) }
{
    entry.only_keys(&SEND_KEYS)?;
    let slot = slot_at(params, entry)?;
    let node = node_at(params, entry)?;
    let service = entry.read(KeyName::Service)?;
    let payload = entry.read_or(KeyName::DataKey, Payload::empty())?;
    Ok(SendAsk {
        slot,
        node,
        service,
        payload,
    })
}

impl Named for Service {
    ghost use Rattle.cany_text.specs.TextNames.{service_name};

    ghost word = { service_name };

    fn name(self) -> &'static str {
        service_name(self)
    }
}

impl FromValue for Service {
    ghost use Rattle.cany_text.specs.SendsText.{service_from};

    ghost meaning = { service_from };

    #[tactic(auto, unfolding(cany_text::specs::SendsText::service_from))]
    fn from_value(at: Position, value: &Value) -> Result<Service, ScenarioFault> {
        one_of(&[Service::Ed, Service::Rel, Service::Tot], at, value)
    }
}

impl FromValue for Payload {
    ghost use Rattle.cany_text.specs.SendsText.{payload_from};

    ghost meaning = { payload_from };

    #[tactic(auto, unfolding(cany_text::specs::SendsText::payload_from))]
    fn from_value(at: Position, value: &Value) -> Result<Payload, ScenarioFault> {
        let digits = value.as_str().ok_or(wrong_kind(at))?;
        bytes_of(digits).ok_or(ScenarioFault::BadData { place: at.place })
    }
}

/// The bytes that the digits write.
fn bytes_of(digits: &str) -> Option<Payload>
    ensures { result ≡ bytes_of digits.now }
{
    if digits.len() > MOST_DIGITS {
        return None;
    }
    let mut bytes = [0; MOST_DIGITS / 2];
    let room = &mut bytes[..digits.len() / 2];
    hex::decode_to_slice(digits, room).ok()?;
    Payload::of(room)
}
