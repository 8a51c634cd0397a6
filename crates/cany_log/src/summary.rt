//! The summary of the run of a storm.
ghost use Rattle.std.specs.Prelude.{◌≡◌, ◌≤◌, ◌&&◌, length};
ghost use Rattle.cany_model.specs.Bus.Slot.{carried};
ghost use Rattle.cany_model.specs.Promises.Hypothesis.{any_frame, is_partial, is_silent};
ghost use Rattle.cany_log.specs.Summary as summary;
ghost use Rattle.cany_log.specs.Summary.{all_entries, frames_where, open_count, settled_count};
ghost use Rattle.cany_log.specs.SummaryParts.{counts_text, ending_text};
ghost use Rattle.cany_log.specs.Written.{IsWritten};
ghost use Rattle.cany_world.specs.World.{state_of};

use crate::entry_counts::EntryCounts;
use crate::hypothesis::write_hypothesis;
use crate::line::write_line;
use crate::text_field::TextField;
use cany_base::{SlotNote, Verdict};
use cany_io::{Failed, Sink};
use cany_world::World;

fn is_carried(note: &SlotNote) -> bool
    ensures { result ≡ carried any_frame note.now }
{
    note.frame.is_some()
}

fn is_lost(note: &SlotNote) -> bool
    ensures { result ≡ (carried any_frame note.now && summary.is_lost note.now.verdict) }
{
    is_carried(note) && matches!(note.verdict, Verdict::Lost)
}

fn is_partial(note: &SlotNote) -> bool
    ensures { result ≡ (carried any_frame note.now && is_partial note.now.verdict) }
{
    is_carried(note) && matches!(note.verdict, Verdict::Partial(_))
}

fn is_silent(note: &SlotNote) -> bool
    ensures { result ≡ (carried any_frame note.now && is_silent note.now.verdict) }
{
    is_carried(note) && matches!(note.verdict, Verdict::Silent(_))
}

fn frames_in(trace: &[SlotNote]) -> usize
    ensures { result ≡ summary.frames trace.now }
{
    trace.iter().filter(|note| is_carried(note)).count()
}

fn lost_in(trace: &[SlotNote]) -> usize
    ensures { result ≡ frames_where summary.is_lost trace.now }
{
    trace.iter().filter(|note| is_lost(note)).count()
}

fn partial_in(trace: &[SlotNote]) -> usize
    ensures { result ≡ frames_where is_partial trace.now }
{
    trace.iter().filter(|note| is_partial(note)).count()
}

fn silent_in(trace: &[SlotNote]) -> usize
    ensures { result ≡ frames_where is_silent trace.now }
{
    trace.iter().filter(|note| is_silent(note)).count()
}

/// Writes how many slots carried a frame, and how many of them went wrong in each way.
#[tactic(auto, unfolding(crate::specs::Summary::frames_line))]
fn write_frames<K: Sink>(trace: &[SlotNote], sink: &mut K) -> Result<(), Failed>
    ensures { IsWritten (summary.frames_line trace.now) result
        (K.taken sink.old) (K.taken sink.new) (K.faults sink.old) (K.faults sink.new) }
{
    write_line(
        "frames",
        &[
            TextField::Number(frames_in(trace) as u64),
            TextField::Text("lost"),
            TextField::Number(lost_in(trace) as u64),
            TextField::Text("partial"),
            TextField::Number(partial_in(trace) as u64),
            TextField::Text("silent"),
            TextField::Number(silent_in(trace) as u64),
        ],
        sink,
    )
}

/// Writes how many log entries there are of each kind.
fn write_entry_counts<K: Sink>(world: &World, sink: &mut K) -> Result<(), Failed>
    ensures { IsWritten (summary.entries_line (all_entries world.now.scenario (state_of world.now))) result
        (K.taken sink.old) (K.taken sink.new) (K.faults sink.old) (K.faults sink.new) }
{
    let counts = EntryCounts::of_world(world);
    write_line(
        "deliveries",
        &[
            TextField::Count(counts.deliveries),
            TextField::Text("failures"),
            TextField::Count(counts.failures),
            TextField::Text("views"),
            TextField::Count(counts.views),
        ],
        sink,
    )
}

/// How many messages are settled.
fn settled_count(world: &World) -> usize
    ensures count { result ≡ settled_count world.now.scenario (state_of world.now) }
    ensures few { result ≤ length world.now.scenario.sends }
{
    let finished = world.finished_services();
    let mut settled = 0usize;
    for i in 0..world.scenario().sends().len() {
        settled += usize::from(world.settled_by(i, &finished));
    }
    settled
}

/// How many messages are not settled.
fn open_count(world: &World) -> usize
    ensures { result ≡ open_count world.now.scenario (state_of world.now) }
{
    world.scenario().sends().len() - settled_count(world)
}

/// Writes how many messages are settled, and how many are not. It takes no memory.
///
/// Promise: exactly the line of these two numbers is written, or at a failure a prefix of it.
///
/// Shown by: `tail_enough`, `tail_too_short`, `a_write_of_a_summary_fails`.
///
/// # Errors
///
/// `Failed` only where the sink's count of faults rose.
#[tactic(auto, unfolding(crate::specs::Summary::settled_line))]
pub fn write_settled<K: Sink>(world: &World, sink: &mut K) -> Result<(), Failed>
    ensures { IsWritten (summary.settled_line world.now.scenario (state_of world.now)) result
        (K.taken sink.old) (K.taken sink.new) (K.faults sink.old) (K.faults sink.new) }
{
    write_line(
        "settled",
        &[
            TextField::Number(settled_count(world) as u64),
            TextField::Text("open"),
            TextField::Number(open_count(world) as u64),
        ],
        sink,
    )
}

/// Writes which storm it was.
#[tactic(auto, unfolding(crate::specs::Summary::storm_line))]
fn write_storm<K: Sink>(number: u32, sink: &mut K) -> Result<(), Failed>
    ensures { IsWritten (summary.storm_line number) result
        (K.taken sink.old) (K.taken sink.new) (K.faults sink.old) (K.faults sink.new) }
{
    write_line("storm", &[TextField::Number(u64::from(number))], sink)
}

/// Writes how many slots, log entries and messages there are of each kind.
fn write_counts<K: Sink>(world: &World, sink: &mut K) -> Result<(), Failed>
    ensures { IsWritten (counts_text world.now.scenario (state_of world.now)) result
        (K.taken sink.old) (K.taken sink.new) (K.faults sink.old) (K.faults sink.new) }
{
    write_frames(world.trace(), sink)?;
    write_entry_counts(world, sink)?;
    write_settled(world, sink)
}

/// Writes whether the run is within the fault hypothesis, and the end.
fn write_ending<K: Sink>(world: &World, sink: &mut K) -> Result<(), Failed>
    ensures { IsWritten (ending_text world.now.scenario (state_of world.now)) result
        (K.taken sink.old) (K.taken sink.new) (K.faults sink.old) (K.faults sink.new) }
{
    write_hypothesis(world.hypothesis(), sink)?;
    write_line("end", &[], sink)
}

/// Writes the summary of the run of a storm, line by line. It takes no memory. A run that has not
/// ended has a summary too: of what happened so far.
///
/// Promise: exactly the summary of the number and of the world's scenario and journal is written,
/// whether the run has ended or not. At a failure a prefix of it is.
///
/// Shown by: `.ci/calls.py`, `a_write_of_a_summary_fails`,
/// `lost_slots_without_a_frame_are_counted`.
///
/// # Errors
///
/// `Failed` only where the sink's count of faults rose.
pub fn write_summary<K: Sink>(world: &World, number: u32, sink: &mut K) -> Result<(), Failed>
    ensures { IsWritten (summary.summary number world.now.scenario world.now.journal) result
        (K.taken sink.old) (K.taken sink.new) (K.faults sink.old) (K.faults sink.new) }
{
    write_storm(number, sink)?;
    write_counts(world, sink)?;
    write_ending(world, sink)
}
