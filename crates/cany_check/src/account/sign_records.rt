//! The records of the failure signs of a run.
ghost use Rattle.std.specs.Prelude.{◌≡◌, ◌<◌, ◌∷◌, ◌++◌, ℕ, true, [], List, All, map, Some, slice_get, reverse, IfOk, OnOk};
ghost use Rattle.std.specs.BTreeMap.{values};
ghost use Rattle.cany_base.specs.declared.class.Class.TheVariants as class;
ghost use Rattle.cany_base.specs.declared.slot_note.SlotNote.{SlotNote as AnyNote};
ghost use Rattle.cany_base.specs.Scenario.{IsLegalScenario};
ghost use Rattle.cany_model.specs.Bus.Frames.{same_class};
ghost use Rattle.cany_model.specs.Bus.State.{RunState};
ghost use Rattle.cany_model.specs.Rules.Knowledge.{FailureSign};
ghost use Rattle.cany_world.specs.World.{state_of};
ghost use Rattle.cany_check.specs.declared.account.record.LogRecord.{LogRecord as AnyLog};
ghost use Rattle.cany_check.specs.Accounts.Account.{is_sign_before, logs_of, sign_in, sign_record, signs_told};
ghost use Rattle.cany_check.specs.Accounts.AccountFields.{log_parts};
ghost use Rattle.cany_check.specs.InOrder.{ascending};
ghost use Rattle.cany_check.specs.Accounts.Records.{TellsWithin, sign_entry, sign_key, sign_so_far, signs_of_entries, signs_of_logs, with_last};

use crate::account::message_slots::with_last;
use crate::account::record::{LogRecord, SignRecord};
use cany_base::{Class, Frame, LogEntry, Memory, NodeId, Slot, SlotNote};
use cany_world::World;
use std::alloc::Global;
use std::collections::BTreeMap;

/// By what a sign stands in a table: its cycle, and then its node.
type SignKey = (u16, u8);

/// The key of a sign.
fn sign_key(node: NodeId, cycle: u16) -> SignKey
    ensures { result ≡ sign_key (record { node = node; cycle = cycle }) }
{
    (cycle, node.get())
}

/// The record of a sign that no slot has carried.
fn new_record(world: &World, node: NodeId, cycle: u16) -> SignRecord
    requires { node < world.now.scenario.params.nodes }
    ensures { result ≡ sign_so_far (state_of world.now) [] (record { node = node; cycle = cycle }) }
{
    SignRecord {
        node,
        cycle,
        carried: None,
        waits: world.waiting_sign(node, cycle),
    }
}

/// Enters the sign that the entry tells of, if it tells of one.
fn enter(
    world: &World,
    entry: &LogEntry,
    table: &mut BTreeMap<SignKey, SignRecord>,
) -> Result<(), Memory>
    requires { TellsWithin world.now.scenario.params.nodes entry.now }
    ensures { (told : List FailureSign) → table.old.entries ≡ map (sign_entry (state_of world.now) []) (ascending is_sign_before told)
        → OnOk result (table.new.entries ≡ map (sign_entry (state_of world.now) []) (ascending is_sign_before (told ++ sign_in entry.now))) }
{
    match *entry {
        LogEntry::Failed { node, cycle, .. } => {
            table.insert(sign_key(node, cycle), new_record(world, node, cycle))?;
            Ok(())
        }
        LogEntry::Deliver { .. } => Ok(()),
        LogEntry::View { .. } => Ok(()),
    }
}

/// Enters the signs that the log tells of.
fn enter_all(
    world: &World,
    log: &LogRecord<'_>,
    table: &mut BTreeMap<SignKey, SignRecord>,
) -> Result<(), Memory>
    requires { All (TellsWithin world.now.scenario.params.nodes) (log_parts log.now).entries }
    ensures { (told : List FailureSign) → table.old.entries ≡ map (sign_entry (state_of world.now) []) (ascending is_sign_before told)
        → OnOk result (table.new.entries ≡ map (sign_entry (state_of world.now) []) (ascending is_sign_before (told ++ signs_of_entries (log_parts log.now).entries))) }
{
    for entry in log.entries {
        enter(world, entry, table)?;
    }
    Ok(())
}

/// Enters the signs that the log tells of, if it runs.
fn enter_running(
    world: &World,
    log: &LogRecord<'_>,
    table: &mut BTreeMap<SignKey, SignRecord>,
) -> Result<(), Memory>
    requires { log.now.runs ≡ true → All (TellsWithin world.now.scenario.params.nodes) (log_parts log.now).entries }
    ensures { (told : List FailureSign) → table.old.entries ≡ map (sign_entry (state_of world.now) []) (ascending is_sign_before told)
        → OnOk result (table.new.entries ≡ map (sign_entry (state_of world.now) []) (ascending is_sign_before (told ++ signs_of_logs (log_parts log.now ∷ [])))) }
{
    if log.runs {
        return enter_all(world, log, table);
    }
    Ok(())
}

/// A table of the signs that the running ones of these logs tell of.
fn table_of(
    alloc: Global,
    world: &World,
    logs: &[LogRecord<'_>],
) -> Result<BTreeMap<SignKey, SignRecord>, Memory>
    requires { (i : ℕ) (log : AnyLog) → slice_get logs.now i ≡ Some log → log.runs ≡ true
        → All (TellsWithin world.now.scenario.params.nodes) (log_parts log).entries }
    ensures { IfOk result (λ table. table.entries ≡ map (sign_entry (state_of world.now) []) (signs_told (map log_parts logs.now))) }
{
    let mut table = BTreeMap::new(alloc);
    for i in 0..logs.len() {
        enter_running(world, &logs[i], &mut table)?;
    }
    Ok(table)
}

/// The table after one more slot.
fn go_over(note: &SlotNote, table: &mut BTreeMap<SignKey, SignRecord>) -> Result<(), Memory>
    ensures { (s : RunState) (trace : List AnyNote) (told : List FailureSign)
        → table.old.entries ≡ map (sign_entry s trace) told → OnOk result (table.new.entries ≡ map (sign_entry s (note.now ∷ trace)) told) }
{
    match note.frame {
        Some(frame) => carry(&frame, note.slot, table),
        None => Ok(()),
    }
}

/// Whether the frame is that of a failure sign.
#[tactic(auto, unfolding(cany_model::specs::Bus::Frames::same_class))]
fn is_fda(frame: &Frame) -> bool
    ensures { result ≡ same_class class.Fda frame.now.class }
{
    Class::Fda == frame.class
}

/// The table after one more slot, which carried this frame.
fn carry(frame: &Frame, slot: Slot, table: &mut BTreeMap<SignKey, SignRecord>) -> Result<(), Memory>
    ensures { (s : RunState) (trace : List AnyNote) (note : AnyNote) (told : List FailureSign)
        → note.frame ≡ Some frame.now → note.slot ≡ slot
        → table.old.entries ≡ map (sign_entry s trace) told → OnOk result (table.new.entries ≡ map (sign_entry s (note ∷ trace)) told) }
{
    if !is_fda(frame) {
        return Ok(());
    }
    let key = sign_key(frame.node, frame.number);
    match table.get(&key).copied() {
        Some(sign) => {
            table.insert(key, carried_in(sign, slot))?;
            Ok(())
        }
        None => Ok(()),
    }
}

/// The record of a sign, after one more slot, which carried its frame.
fn carried_in(sign: SignRecord, slot: Slot) -> SignRecord
    ensures { result ≡ record sign { carried = with_last sign.carried slot } }
{
    SignRecord {
        carried: with_last(sign.carried, slot),
        ..sign
    }
}

/// The table after the slots of a run with this trace, oldest slot first.
fn go_over_all(trace: &[SlotNote], table: &mut BTreeMap<SignKey, SignRecord>) -> Result<(), Memory>
    ensures { (s : RunState) (told : List FailureSign)
        → table.old.entries ≡ map (sign_entry s []) told → OnOk result (table.new.entries ≡ map (sign_entry s (reverse trace.now)) told) }
{
    for i in 0..trace.len() {
        go_over(&trace[i], table)?;
    }
    Ok(())
}

/// The records of a table, by ascending cycle and then node.
fn records_of(
    alloc: Global,
    table: &BTreeMap<SignKey, SignRecord>,
) -> Result<Vec<SignRecord>, Memory>
    ensures { IfOk result (λ records. records.items ≡ values table.now) }
{
    Ok(table.values().copied().collect(alloc)?)
}

/// The records of the signs that the running ones of these logs tell of, by ascending cycle and
/// then node: linear in the slots that ran and the entries, each sign and each entry of one looked
/// up in a tree.
pub(crate) fn records_of_signs(
    alloc: Global,
    world: &World,
    logs: &[LogRecord<'_>],
) -> Result<Vec<SignRecord>, Memory>
    requires legal { IsLegalScenario world.now.scenario }
    requires logs { map log_parts logs.now ≡ logs_of world.now.scenario (state_of world.now) }
    ensures { IfOk result (λ records. records.items ≡ map (sign_record (state_of world.now)) (signs_told (map log_parts logs.now))) }
{
    let mut table = table_of(alloc, world, logs)?;
    go_over_all(world.trace(), &mut table)?;
    records_of(alloc, &table)
}
