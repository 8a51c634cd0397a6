ghost use Rattle.std.specs.Prelude.{◌≡◌, ◌<◌, ◌≤◌, ◌++◌, ℕ, Err, length, filter, map, not, IfOk, OnOk, option_map};
ghost use Rattle.cany_base.specs.Limits.{most_rules};
ghost use Rattle.cany_media.specs.MediaRun.{blind_ruling, is_blind};
ghost use Rattle.cany_media.specs.Single.{blind_rule, blind_slots, is_replaced, single_bus, single_rules};

use crate::outcome::has_whole;
use crate::plan::MediaPlan;
use can_fault::Script;
use cany_base::limits::MOST_RULES;
use cany_base::{Memory, NodeSet, Params, Place, Rule, Scenario, Slot, Step, Verdict};
use std::alloc::{AllocError, Global};
use thiserror::Error;

/// Why a run over two media is no run of a scenario of one bus.
#[derive(Clone, Copy, Debug, Error)]
pub enum SingleFault {
    /// The scenario would have this number of fault rules, which is more than one can have.
    #[error("{rules} fault rules are more than a scenario can have")]
    TooMany { rules: u64 },
    /// There was no memory. No contract ties it to a cause.
    #[error("out of memory")]
    Memory,
}

impl From<Memory> for SingleFault {
    ghost use Rattle.cany_media.specs.declared.single_bus.SingleFault.TheVariants as fault;

    ghost from_gives = { λ _ e. e ≡ fault.Memory };

    fn from(_: Memory) -> Self {
        SingleFault::Memory
    }
}

impl From<AllocError> for SingleFault {
    ghost use Rattle.cany_media.specs.declared.single_bus.SingleFault.TheVariants as fault;

    ghost from_gives = { λ _ e. e ≡ fault.Memory };

    fn from(_: AllocError) -> Self {
        SingleFault::Memory
    }
}

/// Whether no line is whole in the slot, on a bus of so many nodes.
fn is_blind(plan: &MediaPlan, nodes: u8, slot: Slot) -> bool
    ensures { result ≡ is_blind nodes plan.now slot }
{
    !has_whole(plan.lines(slot), nodes)
}

/// The slots of the run that have no whole line.
fn blind_slots(alloc: Global, scenario: &Scenario, plan: &MediaPlan) -> Result<Vec<Slot>, Memory>
    ensures { IfOk result (λ slots. slots.items ≡ blind_slots scenario.now plan.now) }
{
    let nodes = scenario.params().nodes;
    let slots = 0..scenario.params().slots;
    Ok(
        slots
            .filter(|slot| is_blind(plan, nodes, *slot))
            .collect(alloc)?,
    )
}

fn is_replaced(plan: &MediaPlan, params: &Params, place: &Place) -> bool
    ensures { result ≡ is_replaced params.now plan.now place.now }
{
    match *place {
        Place::At { slot } => slot < params.slots && is_blind(plan, params.nodes, slot),
        Place::FrameNth { .. } => false,
    }
}

/// The rules of the scenario that stay.
fn kept_rules(alloc: Global, scenario: &Scenario, plan: &MediaPlan) -> Result<Vec<Rule>, Memory>
    ensures { IfOk result (λ rules. rules.items ≡ filter (λ rule. not (is_replaced scenario.now.params plan.now rule.place)) scenario.now.rules) }
{
    let params = scenario.params();
    let rules = scenario.rules();
    Ok(
        rules
            .iter()
            .filter(|rule| !is_replaced(plan, params, &rule.place))
            .copied()
            .collect(alloc)?,
    )
}

/// The nodes that the script stops at the end of a slot, whatever it carries.
fn stops_in(script: &Script, slot: Slot) -> NodeSet
    ensures { result ≡ (blind_ruling script.now slot).stop }
{
    let (_verdict, stops) = script.verdict(slot, None);
    stops
}

/// Appends the rules of the slots without a whole line: in each the frame is lost, and the nodes
/// stop that stopped there before.
fn add_blind_rules(rules: &mut Vec<Rule>, script: &Script, slots: &[Slot]) -> Result<(), Memory>
    ensures { OnOk result (rules.new.items ≡ rules.old.items ++ map (blind_rule script.now) slots.now) }
{
    for slot in slots {
        let rule = Rule {
            place: Place::At { slot: *slot },
            verdict: Verdict::Lost,
            stop: stops_in(script, *slot),
        };
        rules.push(rule)?;
    }
    Ok(())
}

/// The fault rules of the scenario of one bus.
fn single_rules(
    alloc: Global,
    scenario: &Scenario,
    plan: &MediaPlan,
) -> Result<Vec<Rule>, SingleFault>
    ensures ok { IfOk result (λ rules. rules.items ≡ single_rules scenario.now plan.now) }
    ensures few { OnOk result (length (single_rules scenario.now plan.now) ≤ most_rules) }
    ensures too_many { (rules : ℕ) → result ≡ Err (SingleFault.TooMany rules)
        → (rules ≡ length (single_rules scenario.now plan.now)) × (most_rules < rules) }
{
    let slots = blind_slots(alloc, scenario, plan)?;
    let mut rules = kept_rules(alloc, scenario, plan)?;
    let count = rules.len() as u64 + slots.len() as u64;
    if count > MOST_RULES as u64 {
        return Err(SingleFault::TooMany { rules: count });
    }
    let script = Script::of_scenario(alloc, scenario)?;
    add_blind_rules(&mut rules, &script, &slots)?;
    Ok(rules)
}

fn copied_journal(alloc: Global, scenario: &Scenario) -> Result<Option<Vec<Step>>, Memory>
    ensures { IfOk result (λ journal. option_map (λ steps. steps.items) journal ≡ scenario.now.journal) }
{
    match scenario.journal() {
        Some(steps) => Ok(Some(Vec::from_slice(alloc, steps)?)),
        None => Ok(None),
    }
}

/// The scenario of one bus whose run by any journal is the run over two media of this scenario
/// (`laws::one_bus`): in each slot without a whole line the frame is lost.
///
/// Promise: the scenario is exactly that of one bus, by the definition, and it has no more rules
/// than a scenario can have.
///
/// Shown by: `one_line_down`, `blind_slot`, `blind_slots_are_counted_once_too_often`,
/// `the_stops_of_a_replaced_rule_are_dropped`.
///
/// # Errors
///
/// `TooMany` exactly where that scenario would have more rules than a scenario can have, if there
/// is memory: their number. `Memory`: out of memory.
pub fn single(alloc: Global, scenario: &Scenario, plan: &MediaPlan) -> Result<Scenario, SingleFault>
    ensures ok { IfOk result (λ one. one ≡ single_bus scenario.now plan.now) }
    ensures few { OnOk result (length (single_rules scenario.now plan.now) ≤ most_rules) }
    ensures too_many { (rules : ℕ) → result ≡ Err (SingleFault.TooMany rules)
        → (rules ≡ length (single_rules scenario.now plan.now)) × (most_rules < rules) }
{
    let rules = single_rules(alloc, scenario, plan)?;
    let journal = copied_journal(alloc, scenario)?;
    let sends = Vec::from_slice(alloc, scenario.sends())?;
    let joins = Vec::from_slice(alloc, scenario.joins())?;
    let leaves = Vec::from_slice(alloc, scenario.leaves())?;
    let restarts = Vec::from_slice(alloc, scenario.restarts())?;
    let params = *scenario.params();
    Ok(Scenario::of_parts(
        params,
        scenario.members(),
        sends,
        rules,
        joins,
        leaves,
        restarts,
        journal,
    ))
}
