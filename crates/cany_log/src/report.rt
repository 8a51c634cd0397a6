ghost use Rattle.std.specs.Prelude.{◌≡◌, []};
ghost use Rattle.cany_text.specs.Report.{report};
ghost use Rattle.cany_log.specs.ReportParts.{bus_text, heading_text, nodes_and_messages_text};
ghost use Rattle.cany_log.specs.Written.{IsWritten};
ghost use Rattle.cany_world.specs.World.{state_of};

use crate::bus_lines::write_bus;
use crate::heading::{write_first_line, write_journal, write_params};
use crate::hypothesis::write_hypothesis;
use crate::line::write_line;
use crate::messages::write_messages;
use crate::node_lines::write_nodes;
use crate::page::Page;
use cany_io::{Failed, Sink};
use cany_world::World;

/// Writes what was run: the heading, the parameters and the journal.
fn write_heading<K: Sink>(world: &World, page: &mut Page, sink: &mut K) -> Result<(), Failed>
    requires { page.old ≡ [] }
    ensures written { IsWritten (heading_text world.now.scenario world.now.journal) result
        (K.taken sink.old) (K.taken sink.new) (K.faults sink.old) (K.faults sink.new) }
    ensures empty { page.new ≡ [] }
{
    let params = world.scenario().params();
    write_first_line(params.format, sink)?;
    write_params(params, sink)?;
    write_journal(world.journal(), world.period(), page, sink)
}

/// Writes what happened on the bus, and whether it is within the fault hypothesis.
fn write_bus_part<K: Sink>(world: &World, page: &mut Page, sink: &mut K) -> Result<(), Failed>
    requires { page.old ≡ [] }
    ensures written { IsWritten (bus_text world.now.scenario (state_of world.now)) result
        (K.taken sink.old) (K.taken sink.new) (K.faults sink.old) (K.faults sink.new) }
    ensures empty { page.new ≡ [] }
{
    write_bus(world, page, sink)?;
    write_hypothesis(world.hypothesis(), sink)
}

/// Writes what the nodes and the messages came to.
fn write_nodes_and_messages<K: Sink>(
    world: &World,
    page: &mut Page,
    sink: &mut K,
) -> Result<(), Failed>
    requires { page.old ≡ [] }
    ensures { IsWritten (nodes_and_messages_text world.now.scenario (state_of world.now)) result
        (K.taken sink.old) (K.taken sink.new) (K.faults sink.old) (K.faults sink.new) }
{
    write_nodes(world, page, sink)?;
    write_messages(world, page, sink)?;
    write_line("end", &[], sink)
}

/// Writes the report of the world's run, a page of lines at a time. It takes no memory. A run that
/// has not ended has a report too: of what happened so far.
///
/// Promise: exactly the report of the world's scenario and journal is written, whether the run has
/// ended or not. At a failure a prefix of it is.
///
/// Shown by: `commands_give_their_answers`, `each_write_fails_in_turn`, `short_reads_and_writes`,
/// `message_always_open`, `journal_lines_of_63_steps`, `a_stop_in_an_idle_slot_is_left_out`.
///
/// # Errors
///
/// `Failed` only where the sink's count of faults rose.
pub fn write_report<K: Sink>(world: &World, sink: &mut K) -> Result<(), Failed>
    ensures { IsWritten (report world.now.scenario world.now.journal) result
        (K.taken sink.old) (K.taken sink.new) (K.faults sink.old) (K.faults sink.new) }
{
    let mut page = Page::new();
    write_heading(world, &mut page, sink)?;
    write_bus_part(world, &mut page, sink)?;
    write_nodes_and_messages(world, &mut page, sink)
}
