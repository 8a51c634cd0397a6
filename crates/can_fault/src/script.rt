ghost use Rattle.std.specs.Prelude.{◌≡◌, ◌↔◌, ℕ, true, List, [], length, Err, IfOk, OnOk, is_some, option_map};
ghost use Rattle.cany_base.specs.declared.slot_note.SlotNote.{SlotNote};
ghost use Rattle.cany_model.specs.Bus.Slot.{ruling_of, script, slot_rule};
ghost use Rattle.cany_base.specs.Scenario.{HaveDistinctPlaces};
ghost use Rattle.can_fault.specs.Rules.{IsFirstRepeated, rule_for, IsCounted};

use crate::table::RuleTable;
use cany_base::{Frame, Memory, NodeSet, Rule, Scenario, Slot, Verdict};
use std::alloc::{AllocError, Global};
use std::marker::Model;
use thiserror::Error;

/// Why rules make no script.
#[derive(Clone, Copy, Debug, PartialEq, Eq, Error)]
pub enum ScriptFault {
    /// The rule at `index`, counted from 0, has the place of an earlier one.
    #[error("rule {index} has the place of an earlier rule")]
    Repeated { index: usize },
    /// Out of memory, which no contract ties to a cause.
    #[error("out of memory")]
    Memory,
}

impl From<Memory> for ScriptFault {
    ghost use Rattle.can_fault.specs.declared.script.ScriptFault.TheVariants as fault;

    ghost from_gives = { λ _ e. e ≡ fault.Memory };

    fn from(_: Memory) -> Self {
        ScriptFault::Memory
    }
}

impl From<AllocError> for ScriptFault {
    ghost use Rattle.can_fault.specs.declared.script.ScriptFault.TheVariants as fault;

    ghost from_gives = { λ _ e. e ≡ fault.Memory };

    fn from(_: AllocError) -> Self {
        ScriptFault::Memory
    }
}

/// The fault rules of a scenario, each at a place of its own.
///
/// It tells the verdict on each slot. The rules are kept in ordered maps by their places.
#[derive(Drop)]
pub struct Script {
    rules: Vec<Rule>,
    table: RuleTable,
}

impl Model for Script {
    ghost use Rattle.std.specs.Prelude.{List};
    ghost use Rattle.cany_base.specs.declared.rule.Rule.{Rule};
    ghost use Rattle.can_fault.specs.Table.{IsTableOf};

    ghost Value = { List Rule };

    ghost view = { λ s. s.rules.items };

    ghost invariant = { λ s. IsTableOf s.rules.items s.table };
}

impl Script {
    /// The script of these rules.
    ///
    /// Promise: the script is the list of these rules, whose places are then distinct. `Repeated`
    /// names the first rule that has the place of an earlier one.
    ///
    /// Shown by: `sixteen_lost_slots`, `repeated_place_is_accepted`. No scenario meets a repeat,
    /// since the reader of texts finds it first.
    ///
    /// # Errors
    ///
    /// `Repeated` only where a rule has the place of an earlier one. `Memory`: out of memory.
    pub fn build(alloc: Global, rules: &[Rule]) -> Result<Script, ScriptFault>
        ensures ok { IfOk result (λ script. script ≡ rules.now) }
        ensures distinct { OnOk result (HaveDistinctPlaces rules.now) }
        ensures repeated { (index : ℕ) → result ≡ Err (ScriptFault.Repeated index) → IsFirstRepeated rules.now index }
    {
        let mut table = RuleTable::new(alloc);
        for (index, rule) in rules.iter().enumerate() {
            if table.enter(rule)?.is_some() {
                return Err(ScriptFault::Repeated { index });
            }
        }
        let rules = Vec::from_slice(alloc, rules)?;
        Ok(Script { rules, table })
    }

    /// The script of the scenario's rules, which have distinct places.
    ///
    /// Promise: the script is the list of the scenario's rules.
    ///
    /// Shown by: `sixteen_lost_slots`.
    ///
    /// # Errors
    ///
    /// `Memory`: out of memory.
    pub fn of_scenario(alloc: Global, scenario: &Scenario) -> Result<Script, Memory>
        ensures { IfOk result (λ script. script ≡ scenario.now.rules) }
    {
        // It is the contract of this call that says that the scenario is legal.
        let _legal = scenario.params();
        match Script::build(alloc, scenario.rules()) {
            Ok(script) => Ok(script),
            Err(ScriptFault::Memory) => Err(Memory),
            Err(ScriptFault::Repeated { .. }) => unreachable!(),
        }
    }

    pub(crate) fn rules(&self) -> &[Rule]
        ensures { result.now ≡ self.now }
    {
        self.rules.as_slice()
    }

    /// The verdict on a slot, and the nodes that stop at its end. `carried` is the frame that the
    /// slot carries, with the number of the attempt to carry it, counted from 1. For a frame that
    /// no rule names any number will do.
    ///
    /// Where there is a rule for the slot and one for the attempt, the first is used alone. This is
    /// the project's own rule.
    ///
    /// Promise: the verdict and the stops are those of the rule for the slot, and without one those
    /// of the rule for the attempt; without both, Clean and no stops. Given the number of slots
    /// that ran and that of the attempt, they are those of the definition (`script`).
    ///
    /// Shown by: `sixteen_lost_slots`, `frame_rule_before_slot_rule`.
    pub fn verdict(&self, slot: Slot, carried: Option<(Frame, u32)>) -> (Verdict, NodeSet)
        ensures ruling { record { verdict = result.0; stop = result.1 } ≡ ruling_of (rule_for self.now slot carried) }
        ensures script { (trace : List SlotNote) → slot ≡ length trace → IsCounted self.now trace carried
            → record { verdict = result.0; stop = result.1 } ≡ script self.now trace (option_map (λ c. c.0) carried) }
    {
        match self.rule(slot, carried) {
            Some(rule) => (rule.verdict, rule.stop),
            None => (Verdict::Clean, NodeSet::empty()),
        }
    }

    /// Whether there is no rule.
    ///
    /// Promise: whether the script has no rule.
    ///
    /// Answers: `true` exactly where there is no rule.
    ///
    /// Shown by: `.ci/stops.py`.
    pub fn is_empty(&self) -> bool
        ensures { (result ≡ true) ↔ (self.now ≡ []) }
    {
        self.rules.is_empty()
    }

    /// Whether there is a rule for the slot, whatever the slot carries.
    ///
    /// Promise: whether a rule names this slot by its number.
    ///
    /// Answers: `true` exactly where such a rule is there.
    ///
    /// Shown by: `.ci/stops.py`.
    pub fn has_rule(&self, slot: Slot) -> bool
        ensures { result ≡ is_some (slot_rule self.now slot) }
    {
        self.table.for_slot(slot).is_some()
    }

    fn rule(&self, slot: Slot, carried: Option<(Frame, u32)>) -> Option<Rule>
        ensures { result ≡ rule_for self.now slot carried }
    {
        if let Some(rule) = self.table.for_slot(slot) {
            return Some(rule);
        }
        let (frame, attempt) = carried?;
        self.table.for_attempt(&frame, attempt)
    }
}
