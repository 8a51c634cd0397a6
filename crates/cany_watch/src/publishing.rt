//! Publishes the lines of a world.
ghost use Rattle.std.specs.Prelude.{◌≡◌, ◌<◌, ℕ, length, true, Some, IfOk, IfSome};
ghost use mathlib.Core.List.{IsPrefix};
ghost use Rattle.cany_watch.specs.Halls.{AreFirst, ArePublishersOf, HasPublished, HasTaken, HasTakenUp, HavePublished, IsShownBut};
ghost use Rattle.cany_watch.specs.Lines.{line_of, nodes_of};

use crate::publisher::Publisher;
use crate::reading::Reading;
use cany_base::{LogEntry, Memory, NodeId};
use cany_world::World;
use std::alloc::Global;
use std::sync::Wait;

/// So many new publishers, and the readings of them.
pub(crate) fn publishers_of<R: Wait>(
    rt: &R,
    alloc: Global,
    nodes: usize,
) -> Result<(Vec<Publisher>, Vec<Reading>), Memory>
    ensures { IfOk result (λ t. AreFirst nodes t.0.items t.1.items) }
{
    let mut readings = Vec::with_capacity(alloc, nodes)?;
    let mut publishers = Vec::with_capacity(alloc, nodes)?;
    for _ in 0..nodes {
        match Publisher::build(rt, alloc) {
            Ok((publisher, reading)) => {
                publishers.push_reserved(publisher);
                readings.push_reserved(reading);
            }
            Err(memory) => {
                end_all(rt, publishers);
                return Err(memory);
            }
        }
    }
    Ok((publishers, readings))
}

/// Ends all publishers. It may wait for readers.
pub(crate) fn end_all<R: Wait>(rt: &R, publishers: Vec<Publisher>) {
    let mut publishers = publishers;
    while let Some(publisher) = publishers.pop() {
        publisher.end(rt);
    }
    publishers.destroy_empty();
}

/// Takes the entries, or the first of them.
fn take_all(publisher: &mut Publisher, entries: &[LogEntry]) -> bool
    ensures { HasTaken result entries.now publisher.old publisher.new }
{
    for entry in entries {
        if !publisher.append(entry) {
            return false;
        }
    }
    true
}

/// Takes the entries of the line of a node that were not taken yet, or the first of them.
fn take_line(world: &World, node: NodeId, publisher: &mut Publisher) -> bool
    requires node { node < nodes_of world.now }
    requires taken { IsPrefix publisher.old.taken (line_of world.now node) }
    ensures { HasTakenUp result (line_of world.now node) publisher.old publisher.new }
{
    // How many entries of this incarnation and of those after it were taken before.
    let mut known = publisher.len() as usize;
    for inc in 0..usize::from(world.incarnation(node)) + 1 {
        let log = world.log_of(node, inc as u8);
        let skipped = known.min(log.len());
        if !take_all(publisher, &log[skipped..]) {
            return false;
        }
        known -= skipped;
    }
    true
}

/// Publishes the line of a node, where there is memory. It may wait for readers.
fn publish_line<R: Wait>(rt: &R, world: &World, node: NodeId, publisher: &mut Publisher) -> bool
    requires node { node < nodes_of world.now }
    requires taken { IsPrefix publisher.old.taken (line_of world.now node) }
    requires shown { IsPrefix publisher.old.shown publisher.old.taken }
    ensures { HasPublished result (line_of world.now node) publisher.old publisher.new }
{
    if !take_line(world, node, publisher) {
        return false;
    }
    publisher.publish(rt)
}

/// Publishes the lines of all nodes.
fn publish_all<R: Wait>(rt: &R, world: &World, publishers: &mut [Publisher]) -> bool
    requires { ArePublishersOf world.now publishers.old }
    ensures { HavePublished result world.now (length publishers.old) publishers.old publishers.new }
{
    let mut is_all = true;
    for i in 0..usize::from(world.scenario().params().nodes) {
        let publisher = &mut publishers[i];
        if !publish_line(rt, world, NodeId::of_index(i), publisher) {
            is_all = false;
        }
    }
    is_all
}

/// Publishes the line of a node, where those of all others are published.
fn publish_one<R: Wait>(rt: &R, world: &World, node: NodeId, publishers: &mut [Publisher]) -> bool
    requires are { ArePublishersOf world.now publishers.old }
    requires node { node < nodes_of world.now }
    requires others { IsShownBut (Some node) world.now publishers.old }
    ensures { HavePublished result world.now (length publishers.old) publishers.old publishers.new }
{
    let i = usize::from(node.get());
    let publisher = &mut publishers[i];
    publish_line(rt, world, node, publisher)
}

/// Publishes the line of the node that was made longer. Where the other lines are not all published
/// it publishes the lines of all nodes.
pub(crate) fn publish_grown<R: Wait>(
    rt: &R,
    world: &World,
    grown: Option<NodeId>,
    is_all_else: bool,
    publishers: &mut Vec<Publisher>,
) -> bool
    requires are { ArePublishersOf world.now publishers.old.items }
    requires node { IfSome grown (λ node. node < nodes_of world.now) }
    requires others { is_all_else ≡ true → IsShownBut grown world.now publishers.old.items }
    ensures { HavePublished result world.now (length publishers.old.items) publishers.old.items publishers.new.items }
{
    if !is_all_else {
        return publish_all(rt, world, publishers.as_mut_slice());
    }
    match grown {
        Some(node) => publish_one(rt, world, node, publishers.as_mut_slice()),
        None => true,
    }
}
