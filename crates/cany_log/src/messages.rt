//! The messages, in the order of their sends.
ghost use Rattle.std.specs.Prelude.{◌≡◌, ◌+◌, ◌-◌, ◌*◌, ◌≤◌, ◌++◌, [], drop, length, take};
ghost use Rattle.std.specs.List.{concat, flat_map};
ghost use Rattle.cany_model.specs.Rules.Messages.{messages_of};
ghost use Rattle.cany_text.specs.Report.{message_lines};
ghost use Rattle.cany_log.specs.ReportItems.{message_text};
ghost use Rattle.cany_log.specs.Written.{IsWritten};
ghost use Rattle.cany_world.specs.World.{state_of};

use crate::line::SHORT_LINE_BYTES;
use crate::message_line::put_message;
use crate::page::{PAGE_BYTES, Page, SHORT_LINES, write_page};
use cany_io::{Failed, Sink};
use cany_world::World;

/// Puts the lines of the messages whose sends stand in the file from one place on to before
/// another.
fn put_messages(world: &World, first: usize, end: usize, page: &mut Page)
    requires order { (first ≤ end) × (end ≤ length world.now.scenario.sends) }
    requires room { length page.old + SHORT_LINE_BYTES * (end - first) ≤ PAGE_BYTES }
    ensures { page.new ≡ flat_map (message_text world.now.scenario (state_of world.now))
        (drop first (take end (messages_of world.now.scenario.sends))) ++ page.old }
{
    let sends = world.scenario().sends();
    let finished = world.finished_services();
    let mut place = end;
    while place > first {
        place -= 1;
        let seq = u64::from(world.key(place).seq);
        put_message(&sends[place], seq, world.settled_by(place, &finished), page);
    }
}

/// Writes the messages of the world's scenario. The page is empty before and after.
pub(crate) fn write_messages<K: Sink>(
    world: &World,
    page: &mut Page,
    sink: &mut K,
) -> Result<(), Failed>
    requires { page.old ≡ [] }
    ensures written { IsWritten (concat (message_lines world.now.scenario (state_of world.now))) result
        (K.taken sink.old) (K.taken sink.new) (K.faults sink.old) (K.faults sink.new) }
    ensures empty { page.new ≡ [] }
{
    let count = world.scenario().sends().len();
    let mut first = 0;
    while first < count {
        let end = (first + SHORT_LINES).min(count);
        put_messages(world, first, end, page);
        write_page(page, sink)?;
        first = end;
    }
    Ok(())
}
