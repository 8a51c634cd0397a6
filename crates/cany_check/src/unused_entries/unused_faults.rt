//! The fault rules that did nothing, or of which a part did nothing.
ghost use Rattle.std.specs.Prelude.{◌≡◌, ◌++◌, ◌∷◌, ◌<◌, [], true, length, OnOk, Some};
ghost use Rattle.can_fault.specs.Identities.{named_identity};
ghost use Rattle.cany_base.specs.Nodes.{AllBelow};
ghost use Rattle.cany_base.specs.Scenario.{IsRuleOf, IsVerdictOf};
ghost use Rattle.cany_model.specs.Bus.Frames.{Identity};
ghost use Rattle.cany_model.specs.Bus.Slot.{is_clean};
ghost use Rattle.cany_model.specs.Runs.Run.{has_ended};
ghost use Rattle.cany_world.specs.World.{state_of};
ghost use Rattle.cany_check.specs.declared.unused_entries.unused_entry.UnusedEntry.TheVariants as entry;
ghost use Rattle.cany_check.specs.Idle.Attempts.{AreAttemptsOf, is_named, is_ruled};
ghost use Rattle.cany_check.specs.Idle.Unused.{as_list, attempt_slot, is_receiver, reject_set, some_node_of, unused_in, unused_of_frame, unused_rule, unused_stops, unused_verdict, with_places};

use crate::unused_entries::attempts::AttemptSlots;
use crate::unused_entries::finding::{as_fault, push_found};
use crate::unused_entries::presence::ran_in;
use crate::unused_entries::unused_entry::{NoFault, Unused};
use can_fault::{FrameIdentity, Script};
use cany_base::{Memory, NodeId, NodeSet, Place, Rule, Slot, SlotNote, Verdict};
use cany_world::World;
use std::alloc::Global;

/// What of a rule did nothing: its place or its verdict, and its stops.
#[derive(Clone, Copy)]
struct NoEffects {
    verdict: Option<NoFault>,
    stops: Option<NoFault>,
}

fn is_clean(verdict: &Verdict) -> bool
    ensures { result ≡ is_clean verdict.now }
{
    matches!(verdict, Verdict::Clean)
}

/// The set of a Partial or Silent verdict.
fn reject_set(verdict: &Verdict) -> NodeSet
    ensures { result ≡ reject_set verdict.now }
{
    match verdict {
        Verdict::Partial(reject) | Verdict::Silent(reject) => *reject,
        Verdict::Clean | Verdict::Lost => NodeSet::empty(),
    }
}

/// Whether the node was a receiver in the slot: it ran, and did not send.
fn is_receiver(world: &World, note: &SlotNote, node: NodeId) -> bool
    requires { node < world.now.scenario.params.nodes }
    ensures { result ≡ is_receiver (state_of world.now) note.now node }
{
    ran_in(world, note.slot, node) && !note.senders.has(node)
}

/// Whether a node of the set was a receiver in the slot.
fn has_receiver(world: &World, note: &SlotNote, nodes: NodeSet) -> bool
    requires { AllBelow world.now.scenario.params.nodes nodes }
    ensures { result ≡ some_node_of nodes (is_receiver (state_of world.now) note.now) }
{
    for i in 0..usize::from(world.scenario().params().nodes) {
        let node = NodeId::of_index(i);
        if nodes.has(node) && is_receiver(world, note, node) {
            return true;
        }
    }
    false
}

/// Why the verdict of a rule that acts in this slot had no effect, where it had none.
fn unused_verdict(world: &World, slot: Slot, verdict: &Verdict, note: &SlotNote) -> Option<NoFault>
    requires { IsVerdictOf world.now.scenario.params verdict.now }
    ensures { as_list result ≡ unused_verdict (state_of world.now) slot verdict.now (Some note.now) }
{
    if note.frame.is_none() {
        return if is_clean(verdict) {
            None
        } else {
            Some(NoFault::Idle(slot))
        };
    }
    let reject = reject_set(verdict);
    if reject.is_empty() || has_receiver(world, note, reject) {
        return None;
    }
    Some(NoFault::RejectsNobody(slot))
}

/// Why the stops of a rule that acts in this slot had no effect, where they had none.
fn unused_stops(slot: Slot, stop: NodeSet, note: &SlotNote) -> Option<NoFault>
    ensures { as_list result ≡ unused_stops slot stop (Some note.now) }
{
    if stop.is_empty() || !stop.meet(note.stops).is_empty() {
        return None;
    }
    Some(NoFault::StopsNobody(slot))
}

/// What of a rule that acts in this slot did nothing.
fn unused_in(world: &World, slot: Slot, rule: &Rule) -> NoEffects
    requires ran { slot < length (state_of world.now).trace }
    requires rule { IsRuleOf world.now.scenario.params rule.now }
    ensures { as_list result.verdict ++ as_list result.stops ≡ unused_in (state_of world.now) slot rule.now }
{
    let trace = world.trace();
    let note = &trace[slot as usize];
    NoEffects {
        verdict: unused_verdict(world, slot, &rule.verdict, note),
        stops: unused_stops(slot, rule.stop, note),
    }
}

/// What of a rule for an attempt to carry a frame did nothing.
fn unused_of_frame(
    world: &World,
    script: &Script,
    attempts: &AttemptSlots,
    identity: &FrameIdentity,
    nth: u64,
    rule: &Rule,
) -> NoEffects
    requires script { script.now ≡ world.now.scenario.rules }
    requires attempts { AreAttemptsOf world.now attempts.now }
    requires rule { IsRuleOf world.now.scenario.params rule.now }
    requires named { is_named world.now.scenario (named_identity identity.now) ≡ true }
    ensures { as_list result.verdict ++ as_list result.stops
        ≡ unused_of_frame world.now.scenario (state_of world.now) (named_identity identity.now) rule.now
        (attempt_slot (named_identity identity.now) nth (state_of world.now).trace) }
{
    let Some(slot) = attempts.slot(identity, nth) else {
        return NoEffects {
            verdict: Some(NoFault::Attempts(attempts.count(identity))),
            stops: None,
        };
    };
    if script.has_rule(slot) {
        return NoEffects {
            verdict: Some(NoFault::Ruled(slot)),
            stops: None,
        };
    }
    unused_in(world, slot, rule)
}

/// What of a rule did nothing.
fn unused_rule(world: &World, script: &Script, attempts: &AttemptSlots, rule: &Rule) -> NoEffects
    requires ended { has_ended world.now.scenario (state_of world.now) ≡ true }
    requires script { script.now ≡ world.now.scenario.rules }
    requires attempts { AreAttemptsOf world.now attempts.now }
    requires rule { IsRuleOf world.now.scenario.params rule.now }
    requires named { (x : Identity) → is_ruled (rule.now ∷ []) x ≡ true → is_named world.now.scenario x ≡ true }
    ensures { as_list result.verdict ++ as_list result.stops ≡ unused_rule world.now.scenario (state_of world.now) rule.now }
{
    match rule.place {
        Place::At { slot } => unused_in(world, slot, rule),
        Place::FrameNth {
            class,
            number,
            node,
            nth,
        } => {
            let identity = FrameIdentity::new(class, number, node);
            unused_of_frame(world, script, attempts, &identity, u64::from(nth), rule)
        }
    }
}

/// Appends the fault rules that did nothing, in file order, where the script is of them.
fn push_rules(
    world: &World,
    script: &Script,
    attempts: &AttemptSlots,
    found: &mut Vec<Unused>,
) -> Result<(), Memory>
    requires ended { has_ended world.now.scenario (state_of world.now) ≡ true }
    requires script { script.now ≡ world.now.scenario.rules }
    requires attempts { AreAttemptsOf world.now attempts.now }
    ensures { OnOk result (found.new.items ≡ found.old.items
        ++ with_places (unused_rule world.now.scenario (state_of world.now)) (λ why. entry.Fault why) 0 world.now.scenario.rules) }
{
    let scenario = world.scenario();
    // It is the contract of this call that says that the scenario is legal.
    let _legal = scenario.params();
    let rules = scenario.rules();
    for place in 0..rules.len() {
        let unused = unused_rule(world, script, attempts, &rules[place]);
        push_found(found, place, as_fault(unused.verdict))?;
        push_found(found, place, as_fault(unused.stops))?;
    }
    Ok(())
}

/// Appends the fault rules that did nothing, in file order.
pub(crate) fn push_faults(
    alloc: Global,
    world: &World,
    attempts: &AttemptSlots,
    found: &mut Vec<Unused>,
) -> Result<(), Memory>
    requires ended { has_ended world.now.scenario (state_of world.now) ≡ true }
    requires attempts { AreAttemptsOf world.now attempts.now }
    ensures { OnOk result (found.new.items ≡ found.old.items
        ++ with_places (unused_rule world.now.scenario (state_of world.now)) (λ why. entry.Fault why) 0 world.now.scenario.rules) }
{
    let script = Script::of_scenario(alloc, world.scenario())?;
    push_rules(world, &script, attempts, found)
}
