//! What no clause says: that a read finds what was published, and that reads are made beside steps.
//! The command is run by the program, on its scenarios.
ghost use Rattle.std.specs.Prelude.{◌≡◌, ◌<◌, ℕ, IfOk};
ghost use Rattle.cany_watch.specs.Halls.{publisher_at};
ghost use Rattle.cany_watch.specs.Lines.{nodes_of};
ghost use Rattle.cany_watch.specs.Publishers.{note_of};

use cany_base::{Actions, NodeId, Scenario, Step};
use cany_scenario::read_scenario;
use cany_watch::{Hall, Reading, Shown};
use cany_world::World;
use std::alloc::Global;
use std::sync::Wait;
use std::sync::atomic::{AtomicU64, Ordering};
use std::test::Fail;
use std::thread::{self, Threads, join_mut};

/// One EDCAN message of node 0 in a run of five slots.
const TEXT: &str = "format = 1
nodes = 3
slots = 5

[[send]]
slot = 0
node = 0
service = \"ed\"
data = \"01\"
";

/// How often a thread looks for the other's progress.
const MOST_LOOKS: u32 = 20_000_000;

/// How many rounds the writer makes, and how many reads the reader.
const ROUNDS: u64 = 20;

/// The scenario of the text.
fn scenario_of(alloc: Global) -> Result<Scenario, Fail> {
    let Ok(scenario) = read_scenario(alloc, TEXT.as_bytes()) else {
        return Err(Fail::from("no scenario"));
    };
    Ok(scenario)
}

/// A hall of the scenario, and the reading of node 2.
fn built<R: Wait>(rt: &R, alloc: Global, scenario: &Scenario) -> Result<(Hall, Reading), Fail>
    ensures nodes { IfOk result (λ t. 2 < nodes_of t.0.world) }
    ensures book { IfOk result (λ t. t.1.book ≡ (publisher_at t.0.publishers 2).book) }
{
    if scenario.params().nodes != 3 {
        return Err(Fail::from("other nodes"));
    }
    let (hall, mut readings) = Hall::build(rt, alloc, scenario)?;
    let reading = readings.swap_remove(2);
    Ok((hall, reading))
}

/// A hall of the text, and the reading of node 2. The scenario is let go here alone: that is cheap
/// to prove.
fn hall_of<R: Wait>(rt: &R, alloc: Global) -> Result<(Hall, Reading), Fail>
    ensures nodes { IfOk result (λ t. 2 < nodes_of t.0.world) }
    ensures book { IfOk result (λ t. t.1.book ≡ (publisher_at t.0.publishers 2).book) }
{
    let scenario = scenario_of(alloc)?;
    built(rt, alloc, &scenario)
}

/// How many entries the log of node 2 has, and 0 where there is no such node.
fn log_len(world: &World) -> usize {
    if 2 < world.scenario().params().nodes {
        return world.log(NodeId::of_index(2)).len();
    }
    0
}

/// Ends the hall, and answers the length of the log of node 2 in its world. The world is let go
/// here alone, as the scenario above.
fn log_len_at_end<R: Wait>(rt: &R, hall: Hall) -> usize {
    let world = hall.end(rt);
    log_len(&world)
}

/// Makes a step, and says whether all lines are published.
fn make_step<R: Wait>(rt: &R, hall: &mut Hall, step: Step) -> bool
    ensures nodes { nodes_of hall.new.world ≡ nodes_of hall.old.world }
    ensures books { (i : ℕ) → (publisher_at hall.new.publishers i).book ≡ (publisher_at hall.old.publishers i).book }
{
    matches!(hall.step(rt, step).1, Shown::All)
}

/// A slot, and a turn of each node.
fn make_round<R: Wait>(rt: &R, hall: &mut Hall) -> bool
    ensures nodes { nodes_of hall.new.world ≡ nodes_of hall.old.world }
    ensures books { (i : ℕ) → (publisher_at hall.new.publishers i).book ≡ (publisher_at hall.old.publishers i).book }
{
    make_step(rt, hall, Step::Slot);
    make_step(rt, hall, Step::Turn(NodeId::of_index(0)));
    make_step(rt, hall, Step::Turn(NodeId::of_index(1)));
    make_step(rt, hall, Step::Turn(NodeId::of_index(2)))
}

/// Looks until the count is above this number. Whether it was seen.
fn comes_above(count: &AtomicU64, number: u64) -> bool {
    for _ in 0..MOST_LOOKS {
        if count.load(Ordering::SeqCst) > number {
            return true;
        }
        thread::yield_now();
    }
    false
}

/// Makes a round after each read. How many it made.
fn write_after_reads<R: Wait>(rt: &R, hall: &mut Hall, reads: &AtomicU64, rounds: &AtomicU64) {
    for round in 0..ROUNDS {
        if comes_above(reads, round) {
            make_round(rt, hall);
            rounds.store(round + 1, Ordering::SeqCst);
        }
    }
}

/// Reads before each round, and ends after the last of them was published.
fn read_before_rounds<R: Wait>(
    rt: &R,
    out: &mut Actions,
    reading: &mut Reading,
    reads: &AtomicU64,
    rounds: &AtomicU64,
) {
    for read in 0..ROUNDS {
        reading.read(rt, 0, out);
        out.clear();
        reads.store(read + 1, Ordering::SeqCst);
        comes_above(rounds, read);
    }
    reading.read(rt, 0, out);
}

/// Makes two rounds after a first read, learns what is published, and reads twice more. Whether the
/// rounds were published, and what the three reads and the log at the end count.
fn read_after_learning<R: Wait>(
    rt: &R,
    alloc: Global,
    out: &mut Actions,
) -> Result<((bool, bool), [usize; 4]), Fail> {
    let (mut hall, mut reading) = hall_of(rt, alloc)?;
    let first = reading.read(rt, 0, out);
    let shown = (make_round(rt, &mut hall), make_round(rt, &mut hall));
    reading.learn(hall.tell(NodeId::of_index(2)));
    let second = reading.read(rt, 0, out);
    let third = reading.read(rt, 1, out);
    let line = log_len_at_end(rt, hall);
    Ok((shown, [first, second, third, line]))
}

/// Reads in one thread and makes rounds in the other. How many reads and rounds there were, and the
/// length of the log at the end.
fn read_beside<R: Threads + Wait + Sync>(
    rt: &R,
    alloc: Global,
    out: &mut Actions,
) -> Result<(u64, u64, usize), Fail> {
    let (mut hall, mut reading) = hall_of(rt, alloc)?;
    let reads = AtomicU64::new(0);
    let rounds = AtomicU64::new(0);
    join_mut(
        rt,
        &mut || read_before_rounds(rt, out, &mut reading, &reads, &rounds),
        &mut || write_after_reads(rt, &mut hall, &reads, &rounds),
    );
    let line = log_len_at_end(rt, hall);
    Ok((
        reads.load(Ordering::SeqCst),
        rounds.load(Ordering::SeqCst),
        line,
    ))
}

#[test]
fn a_read_after_learning_is_the_line(rt: HostRuntime) -> Result<(), Fail> {
    let mut out = Actions::build(rt.alloc(), 10)?;
    let (shown, counts) = read_after_learning(&rt, rt.alloc(), &mut out)?;
    assert_eq!(rt; (shown, counts, out.len()), ((true, true), [0, 1, 1, 1], 1));
    Ok(())
}

#[test]
fn reads_are_made_beside_steps(rt: HostRuntime) -> Result<(), Fail> {
    let mut out = Actions::build(rt.alloc(), 10)?;
    let counts = read_beside(&rt, rt.alloc(), &mut out)?;
    assert_eq!(rt; (counts, out.len()), ((ROUNDS, ROUNDS, 1), 1));
    Ok(())
}
