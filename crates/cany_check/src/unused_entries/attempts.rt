//! The attempts to carry the frames that entries of a scenario name.
ghost use Rattle.std.specs.Prelude.{◌≡◌, ◌∷◌, ◌||◌, ◌<◌, ◌+◌, ◌^◌, [], ℕ, Bool, true, List, All, IfOk, OnOk, length};
ghost use Rattle.can_fault.specs.Identities.{frame_identity};
ghost use Rattle.cany_base.specs.declared.slot_note.SlotNote.{SlotNote as AnyNote};
ghost use Rattle.cany_base.specs.Cycles.{cycle_of};
ghost use Rattle.cany_base.specs.Limits.{most_numbers};
ghost use Rattle.cany_model.specs.Bus.Frames.{Identity};
ghost use Rattle.cany_model.specs.Bus.Slot.{attempts};
ghost use Rattle.cany_check.specs.Idle.Attempts.{AreAttempts, AreAttemptsOf, AreZero, asked_frame, is_asked, is_named, is_ruled};
ghost use Rattle.cany_check.specs.Idle.Unused.{attempt_slot};

use can_fault::{Attempt, FrameIdentity};
use cany_base::cycle::cycle_of;
use cany_base::{Class, Memory, NodeAsk, Params, Place, Rule, Scenario, Slot, SlotNote};
use cany_world::World;
use std::alloc::Global;
use std::collections::BTreeMap;

/// How often each frame that a rule, a join or a leave of a scenario names was carried, and in
/// which slots.
#[derive(Drop)]
pub(crate) struct AttemptSlots {
    counts: BTreeMap<FrameIdentity, u64>,
    slots: BTreeMap<Attempt, Slot>,
}

impl AttemptSlots {
    /// The attempts in the slots of a run.
    pub(crate) fn of_run(alloc: Global, world: &World) -> Result<AttemptSlots, Memory>
        ensures { IfOk result (AreAttemptsOf world.now) }
    {
        let mut attempts = AttemptSlots {
            counts: named_counts(alloc, world.scenario())?,
            slots: BTreeMap::new(alloc),
        };
        let trace = world.trace();
        for i in 0..trace.len() {
            attempts.note(&trace[i])?;
        }
        Ok(attempts)
    }

    /// Notes one more slot.
    fn note(&mut self, note: &SlotNote) -> Result<(), Memory>
        ensures { (named : Identity → Bool) (trace : List AnyNote) → length trace + 1 < 2 ^ 64 → AreAttempts named trace self.old
            → OnOk result (AreAttempts named (note.now ∷ trace) self.new) }
    {
        let Some(frame) = note.frame else {
            return Ok(());
        };
        let identity = FrameIdentity::of(&frame);
        let Some(before) = self.counts.get(&identity).copied() else {
            return Ok(());
        };
        let nth = before.saturating_add(1);
        self.counts.insert(identity, nth)?;
        self.slots.insert(Attempt { identity, nth }, note.slot)?;
        Ok(())
    }

    /// How many attempts there were to carry a frame that is named.
    pub(crate) fn count(&self, identity: &FrameIdentity) -> u64
        ensures { (named : Identity → Bool) (trace : List AnyNote) (x : Identity) → AreAttempts named trace self.now → named x ≡ true
            → identity.now ≡ frame_identity x → result ≡ attempts x trace }
    {
        self.counts.get(identity).copied().unwrap_or(0)
    }

    /// The slot of an attempt to carry a frame that is named, if there was that attempt.
    pub(crate) fn slot(&self, identity: &FrameIdentity, nth: u64) -> Option<Slot>
        ensures { (named : Identity → Bool) (trace : List AnyNote) (x : Identity) → AreAttempts named trace self.now → named x ≡ true
            → identity.now ≡ frame_identity x → result ≡ attempt_slot x nth trace }
    {
        let identity = *identity;
        self.slots.get(&Attempt { identity, nth }).copied()
    }

    /// The slot of the last attempt to carry a frame that is named, if there was one.
    pub(crate) fn last(&self, identity: &FrameIdentity) -> Option<Slot>
        ensures { (named : Identity → Bool) (trace : List AnyNote) (x : Identity) → AreAttempts named trace self.now → named x ≡ true
            → identity.now ≡ frame_identity x → result ≡ attempt_slot x (attempts x trace) trace }
    {
        self.slot(identity, self.count(identity))
    }
}

/// The count 0 for each frame that a rule, a join or a leave names.
fn named_counts(alloc: Global, scenario: &Scenario) -> Result<BTreeMap<FrameIdentity, u64>, Memory>
    ensures { IfOk result (λ counts. AreZero (is_named scenario.now) counts.entries) }
{
    let params = scenario.params();
    let mut counts = BTreeMap::new(alloc);
    enter_rules(&mut counts, scenario.rules())?;
    enter_asks(&mut counts, params, Class::Join, scenario.joins())?;
    enter_asks(&mut counts, params, Class::Leave, scenario.leaves())?;
    Ok(counts)
}

/// Enters the frames that rules name.
fn enter_rules(counts: &mut BTreeMap<FrameIdentity, u64>, rules: &[Rule]) -> Result<(), Memory>
    ensures { (named : Identity → Bool) → AreZero named counts.old.entries
        → OnOk result (AreZero (λ x. named x || is_ruled rules.now x) counts.new.entries) }
{
    for i in 0..rules.len() {
        enter_rule(counts, &rules[i])?;
    }
    Ok(())
}

/// Enters the frame that a rule names, if it names one.
fn enter_rule(counts: &mut BTreeMap<FrameIdentity, u64>, rule: &Rule) -> Result<(), Memory>
    ensures { (named : Identity → Bool) → AreZero named counts.old.entries
        → OnOk result (AreZero (λ x. named x || is_ruled (rule.now ∷ []) x) counts.new.entries) }
{
    match rule.place {
        Place::At { .. } => Ok(()),
        Place::FrameNth {
            class,
            number,
            node,
            ..
        } => {
            counts.insert(FrameIdentity::new(class, number, node), 0)?;
            Ok(())
        }
    }
}

/// The frame by which a node asks to join or to leave.
pub(crate) fn asked_identity(params: &Params, class: Class, ask: &NodeAsk) -> FrameIdentity
    requires some { 0 < params.now.cycle }
    requires number { cycle_of params.now ask.now.slot < most_numbers }
    ensures { result ≡ frame_identity (asked_frame params.now class ask.now) }
{
    FrameIdentity::new(class, cycle_of(params, ask.slot), ask.node)
}

/// Enters the frames by which nodes ask to join or to leave.
fn enter_asks(
    counts: &mut BTreeMap<FrameIdentity, u64>,
    params: &Params,
    class: Class,
    asks: &[NodeAsk],
) -> Result<(), Memory>
    requires some { 0 < params.now.cycle }
    requires numbers { All (λ ask. cycle_of params.now ask.slot < most_numbers) asks.now }
    ensures { (named : Identity → Bool) → AreZero named counts.old.entries
        → OnOk result (AreZero (λ x. named x || is_asked params.now class asks.now x) counts.new.entries) }
{
    for i in 0..asks.len() {
        counts.insert(asked_identity(params, class, &asks[i]), 0)?;
    }
    Ok(())
}
