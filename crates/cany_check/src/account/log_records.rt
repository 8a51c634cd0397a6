//! The records of the logs of a run.
ghost use Rattle.std.specs.Prelude.{◌≡◌, ◌<◌, ◌≤◌, map, IfOk};
ghost use Rattle.cany_check.specs.Accounts.Account.{log_record, logs_of, logs_of_node};
ghost use Rattle.cany_check.specs.Accounts.AccountFields.{log_parts};
ghost use Rattle.cany_model.specs.Bus.State.{node_at};
ghost use Rattle.cany_world.specs.World.{state_of};

use crate::account::record::LogRecord;
use cany_base::{Memory, NodeId};
use cany_world::World;
use std::alloc::Global;

/// The record of the log of an incarnation of a node.
fn log_record(world: &World, node: NodeId, inc: u8) -> LogRecord<'_>
    requires node { node < world.now.scenario.params.nodes }
    requires inc { inc ≤ (node_at (state_of world.now).nodes node).present.number }
    ensures { log_parts result ≡ log_record world.now.scenario (state_of world.now) node inc }
{
    LogRecord {
        node,
        from: world.takes_part_since(node, inc),
        runs: world.stopped(node).is_none() && inc == world.incarnation(node),
        entries: world.log_of(node, inc),
    }
}

/// Those of all incarnations of a node.
fn records_of_node(alloc: Global, world: &World, node: NodeId) -> Result<Vec<LogRecord<'_>>, Memory>
    requires { node < world.now.scenario.params.nodes }
    ensures { IfOk result (λ logs. map log_parts logs.items ≡ logs_of_node world.now.scenario (state_of world.now) node) }
{
    let mut logs = Vec::new(alloc);
    for inc in 0..=world.incarnation(node) {
        if logs.push(log_record(world, node, inc)).is_err() {
            return Err(Memory);
        }
    }
    Ok(logs)
}

/// The records of the logs of a run, by ascending node and then incarnation. They lend the entries
/// from the world.
pub(crate) fn records_of_logs(alloc: Global, world: &World) -> Result<Vec<LogRecord<'_>>, Memory>
    ensures { IfOk result (λ logs. map log_parts logs.items ≡ logs_of world.now.scenario (state_of world.now)) }
{
    let mut logs = Vec::new(alloc);
    for number in 0..world.scenario().params().nodes {
        let of_node = records_of_node(alloc, world, NodeId::of_index(usize::from(number)))?;
        logs.extend_from_slice(of_node.as_slice())?;
    }
    Ok(logs)
}
