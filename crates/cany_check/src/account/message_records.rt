//! The records of the messages of a run.
ghost use Rattle.std.specs.Prelude.{◌≡◌, ◌<◌, length, map, slice_get, Some, IfOk};
ghost use Rattle.cany_model.specs.Rules.Messages.{messages_of};
ghost use Rattle.cany_check.specs.Accounts.Account.{message_record, unsent_record};
ghost use Rattle.cany_check.specs.Accounts.Records.{with_slots};
ghost use Rattle.cany_world.specs.World.{state_of};

use crate::account::message_slots::{MessageSlots, slots_of_messages};
use crate::account::record::MessageRecord;
use cany_base::Memory;
use cany_world::World;
use std::alloc::Global;

/// The record of the message of a scripted send, by its place in the file, but for the slots in
/// which it was sent and carried.
fn unsent_record(world: &World, index: usize) -> MessageRecord
    requires { index < length world.now.scenario.sends }
    ensures { slice_get (map (unsent_record world.now.scenario (state_of world.now)) (messages_of world.now.scenario.sends)) index ≡ Some result }
{
    let send = &world.scenario().sends()[index];
    MessageRecord {
        key: world.key(index),
        service: send.service,
        payload: send.payload,
        slot: send.slot,
        sent: None,
        carried: None,
        queued: world.queued(index),
        waits: world.waiting(index),
        ahead: world.ahead(index),
    }
}

/// Those of all messages, in file order.
fn unsent_records(alloc: Global, world: &World) -> Result<Vec<MessageRecord>, Memory>
    ensures { IfOk result (λ records. records.items ≡ map (unsent_record world.now.scenario (state_of world.now)) (messages_of world.now.scenario.sends)) }
{
    let count = world.scenario().sends().len();
    let mut records = Vec::with_capacity(alloc, count)?;
    for i in 0..count {
        records.push(unsent_record(world, i))?;
    }
    Ok(records)
}

/// The record with the slots of its message.
fn with_slots(message: &MessageRecord, slots: MessageSlots) -> MessageRecord
    ensures { result ≡ with_slots message.now slots }
{
    let mut record = *message;
    record.sent = slots.sent;
    record.carried = slots.carried;
    record
}

/// The records of the messages of a run, in file order: linear in the slots that ran and in
/// messages times nodes.
pub(crate) fn records_of_messages(
    alloc: Global,
    world: &World,
) -> Result<Vec<MessageRecord>, Memory>
    ensures { IfOk result (λ records. records.items ≡ map (message_record world.now.scenario (state_of world.now)) (messages_of world.now.scenario.sends)) }
{
    let unsent = unsent_records(alloc, world)?;
    let slots = slots_of_messages(alloc, world.trace(), unsent.as_slice())?;
    let mut records = Vec::with_capacity(alloc, unsent.len())?;
    for i in 0..unsent.len() {
        records.push(with_slots(&unsent[i], slots[i]))?;
    }
    Ok(records)
}
