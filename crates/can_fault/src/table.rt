ghost use Rattle.std.specs.Prelude.{◌≡◌, [], Option, Some, IfOk, OnOk, if◌then◌else◌};
ghost use Rattle.cany_base.specs.declared.rule.Place.{Place};
ghost use Rattle.cany_base.specs.declared.rule.Place.TheVariants.{At, FrameNth};

use crate::identity::{Attempt, FrameIdentity};
use cany_base::{Frame, Memory, Place, Rule, Slot};
use std::alloc::Global;
use std::collections::BTreeMap;

/// Rules by their places.
#[derive(Drop)]
pub(crate) struct RuleTable {
    by_slot: BTreeMap<Slot, Rule>,
    by_attempt: BTreeMap<Attempt, Rule>,
}

impl RuleTable {
    ghost use Rattle.cany_base.specs.Scenario.{same_place};
    ghost use Rattle.can_fault.specs.Table.{entry_at, IsTableOf};

    pub(crate) fn new(alloc: Global) -> RuleTable
        ensures { IsTableOf [] result }
    {
        RuleTable {
            by_slot: BTreeMap::new(alloc),
            by_attempt: BTreeMap::new(alloc),
        }
    }

    /// Enters a rule at its place, and gives the one that stood there.
    pub(crate) fn enter(&mut self, rule: &Rule) -> Result<Option<Rule>, Memory>
        ensures earlier { IfOk result (λ earlier. earlier ≡ entry_at self.old rule.now.place) }
        ensures entered { OnOk result ((place : Place) → entry_at self.new place ≡ (if same_place rule.now.place place then Some rule.now else entry_at self.old place)) }
    {
        match rule.place {
            Place::At { slot } => Ok(self.by_slot.insert(slot, *rule)?),
            Place::FrameNth {
                class,
                number,
                node,
                nth,
            } => {
                let identity = FrameIdentity::new(class, number, node);
                let nth = u64::from(nth);
                Ok(self.by_attempt.insert(Attempt { identity, nth }, *rule)?)
            }
        }
    }

    /// The rule for the slot.
    pub(crate) fn for_slot(&self, slot: Slot) -> Option<Rule>
        ensures { result ≡ entry_at self.now (At slot) }
    {
        self.by_slot.get(&slot).copied()
    }

    /// The rule for the attempt to carry the frame.
    pub(crate) fn for_attempt(&self, frame: &Frame, nth: u32) -> Option<Rule>
        ensures { result ≡ entry_at self.now (FrameNth frame.now.class frame.now.number frame.now.node nth) }
    {
        let identity = FrameIdentity::of(frame);
        let nth = u64::from(nth);
        self.by_attempt.get(&Attempt { identity, nth }).copied()
    }
}
