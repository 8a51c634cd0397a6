//! The text of a run.
ghost use Rattle.std.specs.Prelude.{◌≡◌, ◌<◌, count_by, map, option_to_list, OnOk};
ghost use Rattle.std.specs.List.{concat, flat_map, range_with_len};
ghost use Rattle.cany_log.specs.Written.{IsWritten};
ghost use Rattle.cany_model.specs.Promises.Order.{tot_deliveries};
ghost use Rattle.cany_replica.specs.Fold as folded;
ghost use Rattle.cany_replica.specs.Fold.{replies_after, table_after};
ghost use Rattle.cany_replica.specs.ReplicaText.{key_lines, node_lines, replica_text, reply_line, value_lines};
ghost use Rattle.cany_world.specs.World.{state_of};

use crate::answer::Answer;
use crate::fold::is_applied;
use crate::lines::{write_first_line, write_key, write_last_line, write_node_line, write_reply};
use crate::table::Table;
use crate::value::Value;
use cany_base::{LogEntry, NodeId};
use cany_io::{Failed, Sink};
use cany_log::write_hypothesis;
use cany_world::World;

/// How many messages a node applied, by its log.
fn applied_in(log: &[LogEntry]) -> usize
    ensures { result ≡ count_by folded.is_applied log.now }
{
    log.iter().filter(|entry| is_applied(entry)).count()
}

/// Writes the reply to a message, where there is one.
fn write_answer<K: Sink>(answer: Option<Answer>, sink: &mut K) -> Result<(), Failed>
    ensures { IsWritten (concat (map reply_line (option_to_list answer))) result
        (K.taken sink.old) (K.taken sink.new) (K.faults sink.old) (K.faults sink.new) }
{
    match answer {
        Some(answer) => write_reply(&answer, sink),
        None => Ok(()),
    }
}

/// Applies what a log delivers by TOTCAN, and writes the replies.
fn write_answers<K: Sink>(table: &mut Table, log: &[LogEntry], sink: &mut K) -> Result<(), Failed>
    ensures table { OnOk result (table.new ≡ table_after table.old (tot_deliveries log.now)) }
    ensures written { IsWritten (concat (map reply_line (replies_after table.old (tot_deliveries log.now)))) result
        (K.taken sink.old) (K.taken sink.new) (K.faults sink.old) (K.faults sink.new) }
{
    for entry in log {
        let answer = table.take_in(entry);
        write_answer(answer, sink)?;
    }
    Ok(())
}

/// Writes the line of a key, where it has a value.
fn write_value<K: Sink>(key: u8, value: Option<Value>, sink: &mut K) -> Result<(), Failed>
    ensures { IsWritten (concat (value_lines key value)) result
        (K.taken sink.old) (K.taken sink.new) (K.faults sink.old) (K.faults sink.new) }
{
    match value {
        Some(value) => write_key(key, &value, sink),
        None => Ok(()),
    }
}

/// Writes the keys that have a value.
fn write_keys<K: Sink>(table: &Table, sink: &mut K) -> Result<(), Failed>
    ensures { IsWritten (concat (key_lines table.now)) result
        (K.taken sink.old) (K.taken sink.new) (K.faults sink.old) (K.faults sink.new) }
{
    for key in 0..256u16 {
        let key = key as u8;
        write_value(key, table.get(key), sink)?;
    }
    Ok(())
}

/// Writes a node: the replies to what its present incarnation applied, and its table.
fn write_node<K: Sink>(world: &World, node: NodeId, sink: &mut K) -> Result<(), Failed>
    requires { node < world.now.scenario.params.nodes }
    ensures { IsWritten (concat (node_lines world.now.scenario (state_of world.now) node)) result
        (K.taken sink.old) (K.taken sink.new) (K.faults sink.old) (K.faults sink.new) }
{
    let log = world.log(node);
    let inc = world.incarnation(node);
    let count = applied_in(log) as u64;
    write_node_line(node, inc, world.stopped(node), count, sink)?;
    let mut table = Table::empty();
    write_answers(&mut table, log, sink)?;
    write_keys(&table, sink)
}

/// Writes the nodes.
fn write_nodes<K: Sink>(world: &World, sink: &mut K) -> Result<(), Failed>
    ensures { IsWritten (concat (flat_map (node_lines world.now.scenario (state_of world.now))
        (range_with_len 0 world.now.scenario.params.nodes))) result
        (K.taken sink.old) (K.taken sink.new) (K.faults sink.old) (K.faults sink.new) }
{
    for number in 0..world.scenario().params().nodes {
        write_node(world, NodeId::new(number).unwrap(), sink)?;
    }
    Ok(())
}

/// Writes the text of the world's run, line by line: whether it is within the fault hypothesis, and
/// the replies and the table of each node. The replies are those to the messages that its present
/// incarnation applied, and the table is what they made. It takes no memory. A run that has not
/// ended has a text too: of what happened so far.
///
/// Promise: exactly the text of the world's scenario and journal is written, whether the run has
/// ended or not. At a failure a prefix of it is.
///
/// Shown by: `table_order_decides`, `commands_give_their_answers`, `a_key_is_printed_twice`,
/// `a_message_has_the_reply_of_the_one_before`, `all_entries_count_as_applied`,
/// `the_second_incarnation_is_not_told`.
///
/// # Errors
///
/// `Failed` only where the sink's count of faults rose.
pub fn write_replica<K: Sink>(world: &World, sink: &mut K) -> Result<(), Failed>
    ensures { IsWritten (replica_text world.now.scenario world.now.journal) result
        (K.taken sink.old) (K.taken sink.new) (K.faults sink.old) (K.faults sink.new) }
{
    write_first_line(sink)?;
    write_hypothesis(world.hypothesis(), sink)?;
    write_nodes(world, sink)?;
    write_last_line(sink)
}
