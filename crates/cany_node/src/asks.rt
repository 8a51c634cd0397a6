ghost use Rattle.std.specs.Prelude.{◌≡◌, ℕ, ◌+◌, ◌<◌, ◌≤◌, ◌++◌, ◌∷◌, true, false, length, filter, map, IfOk};
ghost use Rattle.std.specs.List.{flat_map};
ghost use Rattle.cany_base.specs.Scenario.{ScenarioParts};
ghost use Rattle.cany_model.specs.Rules.Actions.{actions_of};
ghost use Rattle.cany_model.specs.Rules.Membership.{asks_in};
ghost use Rattle.cany_node.specs.Asks.{AreAsksOf, AreAsksPassed, IsAskPlanOf, IsNextBefore, IsRisingFrom, asked_as, asks_of, is_at, is_of_node, slot_of};

use crate::membership::Membership;
use cany_base::{Actions, Memory, NodeAsk, NodeId, Slot};
use std::alloc::Global;
use std::marker::Model;

/// What a scripted ask is for: to join the view of the site, or to leave it.
#[derive(Clone, Copy)]
pub(crate) enum AskKind {
    Join,
    Leave,
}

/// The slots of the asks of one kind that a node's script makes, and that are still to come.
///
/// They are sorted once, as the scripted sends are.
#[derive(Drop)]
pub(crate) struct AskPlan {
    by_slot: Vec<Slot>,
    next: usize,
}

impl Model for AskPlan {
    ghost use Rattle.std.specs.Prelude.{ℕ, List, drop};

    ghost Value = { List ℕ };

    ghost view = { λ a. drop a.next a.by_slot.items };
}

/// The slots of those of the asks that the node makes, in file order.
fn slots_of(alloc: Global, node: NodeId, asks: &[NodeAsk]) -> Result<Vec<Slot>, Memory>
    ensures slots { IfOk result (λ slots. slots.items ≡ map slot_of (filter (is_of_node node) asks.now)) }
    ensures few { IfOk result (λ slots. length slots.items ≤ length asks.now) }
{
    let mut slots = Vec::new(alloc);
    for ask in asks {
        if ask.node.get() == node.get() {
            slots.push(ask.slot)?;
        }
    }
    Ok(slots)
}

impl AskPlan {
    /// Those of the asks that the node makes, all still to come.
    pub(crate) fn build(alloc: Global, node: NodeId, asks: &[NodeAsk]) -> Result<AskPlan, Memory>
        ensures { IfOk result (IsAskPlanOf node asks.now) }
    {
        let mut by_slot = slots_of(alloc, node, asks)?;
        by_slot.sort_by_key(|slot| *slot)?;
        Ok(AskPlan { by_slot, next: 0 })
    }

    /// Takes the next ask that is still to come, if it is one of this slot. Whether it is.
    pub(crate) fn take_due(&mut self, slot: Slot) -> bool
        ensures taken { result ≡ true → self.old ≡ slot ∷ self.new }
        ensures kept { result ≡ false → self.new ≡ self.old }
        ensures later { result ≡ false → IsRisingFrom slot self.old → IsRisingFrom (slot + 1) self.old }
    {
        if self.next >= self.by_slot.len() {
            return false;
        }
        if self.by_slot[self.next] != slot {
            return false;
        }
        self.next += 1;
        true
    }

    /// The slot of the next ask that is still to come, `Slot::MAX` where there is none.
    pub(crate) fn wake(&self) -> Slot
        ensures { (n : ℕ) → n < result → IsRisingFrom n self.now → IsRisingFrom (n + 1) self.now }
    {
        if self.next >= self.by_slot.len() {
            return Slot::MAX;
        }
        self.by_slot[self.next]
    }

    /// Passes over the asks of the slots before this one, which are not made.
    pub(crate) fn pass_before(&mut self, slot: Slot)
        ensures { AreAsksPassed slot self.old self.new }
    {
        while self.take_before(slot) {}
    }

    /// Takes the next ask that is still to come, if it is one of a slot before this one. Whether it
    /// is.
    fn take_before(&mut self, slot: Slot) -> bool
        ensures taken { result ≡ true → IsNextBefore slot self.old self.new }
        ensures kept { result ≡ false → self.new ≡ self.old }
        ensures late { result ≡ false → IsRisingFrom 0 self.old → IsRisingFrom slot self.old }
    {
        if self.next >= self.by_slot.len() {
            return false;
        }
        if self.by_slot[self.next] >= slot {
            return false;
        }
        self.next += 1;
        true
    }
}

/// Makes the scripted asks of a slot.
pub(crate) fn ask_due(
    kind: AskKind,
    slot: Slot,
    plan: &mut AskPlan,
    membership: &mut Membership,
    out: &mut Actions,
)
    requires slot { slot < membership.old.views.params.slots }
    requires room { length out.old.items + length plan.old ≤ out.old.room }
    ensures actions { (scenario : ScenarioParts) → AreAsksOf scenario membership.old.views.node slot (asks_of kind scenario) plan.old →
        out.new.items ≡ out.old.items ++ actions_of membership.old.views.params.format
        (flat_map (λ ask. asked_as kind membership.old.views.params 0 membership.old.views.node slot membership.old.views.members) (asks_in scenario membership.old.views.node slot (asks_of kind scenario))) }
    ensures plan { (scenario : ScenarioParts) → AreAsksOf scenario membership.old.views.node slot (asks_of kind scenario) plan.old →
        AreAsksOf scenario membership.old.views.node (slot + 1) (asks_of kind scenario) plan.new }
    ensures few { length out.new.items + length plan.new ≤ length out.old.items + length plan.old }
    ensures room { out.new.room ≡ out.old.room }
    ensures kept { membership.new ≡ membership.old }
{
    while plan.take_due(slot) {
        membership.ask(kind, slot, out);
    }
}
