//! Whether a node ran in a slot of a run, and whether it made its asks of the slot.
ghost use Rattle.std.specs.Prelude.{◌≡◌, ◌<◌, ◌≤◌, find, option_map, slice_get, IsSomeAnd};
ghost use Rattle.std.specs.List.{list_any};
ghost use Rattle.cany_model.specs.Bus.State.{EndedIncarnation, node_at};
ghost use Rattle.cany_model.specs.Runs.Incarnations.{incarnations};
ghost use Rattle.cany_world.specs.World.{state_of};
ghost use Rattle.cany_check.specs.Idle.Presence.{IsStay, did};
ghost use Rattle.cany_check.specs.Idle.Unused.{missed, ran_in, read_notice};

use crate::unused_entries::unused_entry::NoAsk;
use cany_base::{NodeId, Slot};
use cany_world::{Span, World};

/// An incarnation of a node: what became of it, and since when it takes part.
#[derive(Clone, Copy)]
struct Stay {
    span: Span,
    from: Slot,
}

/// What an incarnation may have done in a slot.
#[derive(Clone, Copy)]
enum Activity {
    Ran,
    MadeAsks,
}

impl Stay {
    ghost use Rattle.cany_check.specs.Idle.Unused.{made_asks_as, ran_as};

    /// Whether it has its first notice in the slot or before, and did not stop before it.
    fn ran_in(&self, slot: Slot) -> bool
        ensures { (e : EndedIncarnation) → IsStay self.now e → result ≡ ran_as slot e }
    {
        let ran_on = match self.span.stopped {
            None => true,
            Some(stop) => slot <= stop,
        };
        self.span.since <= slot && ran_on
    }

    /// Whether it read the notice of the slot.
    fn read_notice(&self, slot: Slot) -> bool
        ensures { (e : EndedIncarnation) → IsStay self.now e → result ≡ read_notice slot e }
    {
        self.span.since <= slot && slot - self.span.since < self.span.read
    }

    /// Whether it takes part in the slot, and read its notice.
    fn made_asks(&self, slot: Slot) -> bool
        ensures { (e : EndedIncarnation) → IsStay self.now e → result ≡ made_asks_as slot e }
    {
        self.from <= slot && self.read_notice(slot)
    }

    /// Whether it did this in the slot.
    fn did(&self, activity: Activity, slot: Slot) -> bool
        ensures { (e : EndedIncarnation) → IsStay self.now e → result ≡ did activity slot e }
    {
        match activity {
            Activity::Ran => self.ran_in(slot),
            Activity::MadeAsks => self.made_asks(slot),
        }
    }
}

/// The incarnation of a node that began so many before the present one.
fn stay_at(world: &World, node: NodeId, back: usize) -> Stay
    requires node { node < world.now.scenario.params.nodes }
    requires back { back ≤ (node_at (state_of world.now).nodes node).present.number }
    ensures { IsSomeAnd (slice_get (incarnations (state_of world.now) node) back) (IsStay result) }
{
    let inc = (usize::from(world.incarnation(node)) - back) as u8;
    Stay {
        span: world.span(node, inc),
        from: world.takes_part_since(node, inc),
    }
}

/// Whether an incarnation of the node did this in the slot.
fn any_did(world: &World, activity: Activity, slot: Slot, node: NodeId) -> bool
    requires { node < world.now.scenario.params.nodes }
    ensures { result ≡ list_any (did activity slot) (incarnations (state_of world.now) node) }
{
    for back in 0..usize::from(world.incarnation(node)) + 1 {
        if stay_at(world, node, back).did(activity, slot) {
            return true;
        }
    }
    false
}

/// Whether the node ran in the slot.
pub(crate) fn ran_in(world: &World, slot: Slot, node: NodeId) -> bool
    requires { node < world.now.scenario.params.nodes }
    ensures { result ≡ ran_in (state_of world.now) slot node }
{
    any_did(world, Activity::Ran, slot, node)
}

/// The slot since which the incarnation of the node that read the notice of a slot takes part, if
/// one read it.
fn reader_since(world: &World, slot: Slot, node: NodeId) -> Option<Slot>
    requires { node < world.now.scenario.params.nodes }
    ensures { result ≡ option_map (λ e. e.incarnation.from) (find (read_notice slot) (incarnations (state_of world.now) node)) }
{
    for back in 0..usize::from(world.incarnation(node)) + 1 {
        let stay = stay_at(world, node, back);
        if stay.read_notice(slot) {
            return Some(stay.from);
        }
    }
    None
}

/// Why the node did not make its asks of the slot, if so.
pub(crate) fn missed(world: &World, slot: Slot, node: NodeId) -> Option<NoAsk>
    requires { node < world.now.scenario.params.nodes }
    ensures { result ≡ missed (state_of world.now) slot node }
{
    if any_did(world, Activity::MadeAsks, slot, node) {
        return None;
    }
    match reader_since(world, slot, node) {
        Some(from) => Some(NoAsk::From(from)),
        None => Some(NoAsk::Stopped),
    }
}
