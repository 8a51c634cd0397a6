//! A run with a reader beside it.
ghost use Rattle.std.specs.Prelude.{◌≡◌, ◌<◌, ◌≤◌, ℕ, [], IfOk, length, map};
ghost use Rattle.cany_base.specs.declared.actions.Action.TheVariants.{Enter};
ghost use Rattle.cany_model.specs.Runs.Follow.{journal_of};
ghost use Rattle.cany_model.specs.Runs.RoundRobin.{round_robin};
ghost use Rattle.cany_model.specs.Runs.Run.{IsLegal};
ghost use Rattle.cany_watch.specs.declared.hall.Shown.TheVariants as shown;
ghost use Rattle.cany_watch.specs.Halls.{published_of, publisher_at};
ghost use Rattle.cany_watch.specs.Lines.{line_of, nodes_of};
ghost use Rattle.cany_watch.specs.Notes.{Follows};
ghost use Rattle.cany_watch.specs.Publishers.{note_of};

use crate::hall::{Hall, Shown};
use crate::reading::Reading;
use cany_base::{Actions, Memory, NodeId, Step};
use cany_world::World;
use std::alloc::Global;
use std::sync::Wait;
use std::thread::{Threads, join_mut};

/// How many reads are made beside the run.
const READS: usize = 1000;

/// How many entries of each of them are looked at.
const READ_ROOM: usize = 64;

/// Makes the steps of a legal journal, and answers what the last one said of what is published.
fn run_steps<R: Wait>(rt: &R, steps: &[Step], hall: &mut Hall) -> Shown
    requires fresh { hall.old.world.journal ≡ [] }
    requires legal { IsLegal hall.old.world.scenario steps.now }
    ensures world { hall.new.world ≡ record hall.old.world { journal = steps.now } }
    ensures books { (i : ℕ) → (publisher_at hall.new.publishers i).book ≡ (publisher_at hall.old.publishers i).book }
    ensures all { result ≡ shown.All → (i : ℕ) → i < nodes_of hall.new.world → published_of hall.new i ≡ line_of hall.new.world i }
{
    let mut shown = Shown::Memory;
    for step in steps {
        let (_, last) = hall.step(rt, *step);
        shown = last;
    }
    shown
}

/// Makes the rounds of the round robin journal, those of idle slots in bulk, and answers what the
/// last ones said of what is published.
fn run_rounds<R: Wait>(rt: &R, hall: &mut Hall) -> Shown
    requires { hall.old.world.journal ≡ [] }
    ensures world { hall.new.world ≡ record hall.old.world { journal = round_robin hall.old.world.scenario } }
    ensures books { (i : ℕ) → (publisher_at hall.new.publishers i).book ≡ (publisher_at hall.old.publishers i).book }
    ensures all { result ≡ shown.All → (i : ℕ) → i < nodes_of hall.new.world → published_of hall.new i ≡ line_of hall.new.world i }
{
    let mut shown = Shown::Memory;
    let mut left = hall.world().scenario().params().slots;
    while left > 0 {
        let (fewer, last) = hall.advance(rt, left);
        left = fewer;
        shown = last;
    }
    shown
}

/// Makes the run of the scenario, whose steps these are: the steps of its own journal, or where it
/// has none, by rounds.
fn run_again<R: Wait>(rt: &R, steps: &[Step], hall: &mut Hall) -> Shown
    requires fresh { hall.old.world.journal ≡ [] }
    requires legal { IsLegal hall.old.world.scenario steps.now }
    requires run { steps.now ≡ journal_of hall.old.world.scenario }
    ensures world { hall.new.world ≡ record hall.old.world { journal = steps.now } }
    ensures books { (i : ℕ) → (publisher_at hall.new.publishers i).book ≡ (publisher_at hall.old.publishers i).book }
    ensures all { result ≡ shown.All → (i : ℕ) → i < nodes_of hall.new.world → published_of hall.new i ≡ line_of hall.new.world i }
{
    if hall.world().scenario().journal().is_none() {
        return run_rounds(rt, hall);
    }
    run_steps(rt, steps, hall)
}

/// Reads again and again.
fn read_often<R: Wait>(rt: &R, out: &mut Actions, reading: &mut Reading)
    ensures { Follows reading.old reading.new }
{
    for _ in 0..READS {
        reading.read(rt, 0, out);
        out.clear();
    }
}

/// Reads the line of the node by its note.
fn read_line<R: Wait>(
    rt: &R,
    alloc: Global,
    node: NodeId,
    hall: &mut Hall,
    reading: &mut Reading,
) -> Result<Actions, Memory>
    requires node { node < nodes_of hall.old.world }
    requires book { reading.old.book ≡ (publisher_at hall.old.publishers node).book }
    requires all { published_of hall.old node ≡ line_of hall.old.world node }
    ensures line { IfOk result (λ out. out.items ≡ map Enter (line_of hall.old.world node)) }
    ensures same { hall.new ≡ hall.old }
{
    let note = hall.tell(node);
    let mut out = Actions::build(alloc, note.len() as usize)?;
    reading.learn(note);
    reading.read(rt, 0, &mut out);
    Ok(out)
}

/// Makes the steps of the run, with a second thread that reads beside them, and then reads the line
/// of the node.
fn watch_steps<R: Threads + Wait + Sync>(
    rt: &R,
    alloc: Global,
    node: NodeId,
    steps: &[Step],
    beside: &mut Actions,
    hall: &mut Hall,
    reading: &mut Reading,
) -> Result<Actions, Memory>
    requires fresh { hall.old.world.journal ≡ [] }
    requires legal { IsLegal hall.old.world.scenario steps.now }
    requires run { steps.now ≡ journal_of hall.old.world.scenario }
    requires node { node < nodes_of hall.old.world }
    requires book { reading.old.book ≡ (publisher_at hall.old.publishers node).book }
    ensures { IfOk result (λ out. out.items ≡ map Enter (line_of (record hall.old.world { journal = steps.now }) node)) }
{
    let ((), shown) = join_mut(
        rt,
        &mut || read_often(rt, beside, reading),
        &mut || run_again(rt, steps, hall),
    );
    match shown {
        Shown::All => read_line(rt, alloc, node, hall, reading),
        Shown::Memory => Err(Memory),
    }
}

/// Makes the run of a world again. A second thread reads the line of the node beside it. The answer
/// is the line, as it was read at the end.
///
/// # Errors
///
/// `Memory` for want of memory, also where it was wanting for the line to be published.
pub(crate) fn watched<R: Threads + Wait + Sync>(
    rt: &R,
    alloc: Global,
    node: NodeId,
    world: &World,
) -> Result<Actions, Memory>
    requires node { node < nodes_of world.now }
    requires run { world.now.journal ≡ journal_of world.now.scenario }
    ensures { IfOk result (λ out. out.items ≡ map Enter (line_of world.now node)) }
{
    let mut beside = Actions::build(alloc, READ_ROOM)?;
    let (mut hall, mut readings) = Hall::build(rt, alloc, world.scenario())?;
    let reading = &mut readings[usize::from(node.get())];
    let line = watch_steps(
        rt,
        alloc,
        node,
        world.journal(),
        &mut beside,
        &mut hall,
        reading,
    );
    drop(hall.end(rt));
    line
}
