//! What happened on the bus, slot by slot.
ghost use Rattle.std.specs.Prelude.{◌≡◌, ◌≤◌, ◌++◌, ◌*◌, ◌+◌, [], length};
ghost use Rattle.std.specs.List.{concat, flat_map};
ghost use Rattle.cany_base.specs.Limits.{most_line_bytes};
ghost use Rattle.cany_text.specs.Report.{bus_lines};
ghost use Rattle.cany_log.specs.ReportItems.{shown_line};
ghost use Rattle.cany_log.specs.Written.{IsWritten};
ghost use Rattle.cany_world.specs.World.{state_of};

use crate::bus_line::{is_shown, put_bus_line};
use crate::page::{LINES, PAGE_BYTES, Page, write_page};
use cany_base::SlotNote;
use cany_io::{Failed, Sink};
use cany_world::World;

/// Puts the line of a slot, where it has one.
fn put_note(world: &World, note: &SlotNote, page: &mut Page)
    requires { length page.old + most_line_bytes ≤ PAGE_BYTES }
    ensures text { page.new ≡ shown_line (state_of world.now) note.now ++ page.old }
    ensures short { length page.new ≤ length page.old + most_line_bytes }
{
    let again = world.restarted(note.slot);
    if is_shown(note, again) {
        put_bus_line(note, again, page);
    }
}

/// Puts the lines of some slots, those that have one.
fn put_notes(world: &World, notes: &[SlotNote], page: &mut Page)
    requires { length page.old + most_line_bytes * length notes.now ≤ PAGE_BYTES }
    ensures { page.new ≡ flat_map (shown_line (state_of world.now)) notes.now ++ page.old }
{
    let mut left = notes.len();
    while left > 0 {
        left -= 1;
        put_note(world, &notes[left], page);
    }
}

/// Writes the slots of the world's run, oldest first. The page is empty before and after.
pub(crate) fn write_bus<K: Sink>(world: &World, page: &mut Page, sink: &mut K) -> Result<(), Failed>
    requires { page.old ≡ [] }
    ensures written { IsWritten (concat (bus_lines (state_of world.now))) result
        (K.taken sink.old) (K.taken sink.new) (K.faults sink.old) (K.faults sink.new) }
    ensures empty { page.new ≡ [] }
{
    for notes in world.trace().chunks(LINES) {
        put_notes(world, notes, page);
        write_page(page, sink)?;
    }
    Ok(())
}
