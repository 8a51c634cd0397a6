//! The scenario of a whole text.
ghost use Rattle.std.specs.Prelude.{◌≡◌, ◌≢◌, IfOk, IfErr, Ok, Err};
ghost use Rattle.cany_text.specs.declared.scenario_fault.ScenarioFault.TheVariants.{Memory};
ghost use Rattle.cany_text.specs.ScenarioText.{scenario_from, scenario_of};
ghost use Rattle.cany_scenario.specs.Entries.{entry_of};

use crate::array::entries_at;
use crate::asks::{NodeAsks, read_asks};
use crate::document::read_document;
use crate::entry::Entry;
use crate::journal::read_journal;
use crate::nodes::read_members;
use crate::params::read_params;
use crate::rules::read_rules;
use crate::sends::SENDS;
use cany_base::Scenario;
use cany_text::{KeyName, ScenarioFault};
use std::alloc::Global;

/// The keys that the top table can have.
const TOP_KEYS: [KeyName; 18] = [
    KeyName::Format,
    KeyName::Nodes,
    KeyName::Slots,
    KeyName::Lag,
    KeyName::Omit,
    KeyName::Errors,
    KeyName::Bound,
    KeyName::Cycle,
    KeyName::Life,
    KeyName::Silence,
    KeyName::Confirm,
    KeyName::Members,
    KeyName::Send,
    KeyName::Fault,
    KeyName::Join,
    KeyName::Leave,
    KeyName::Restart,
    KeyName::Journal,
];

/// The scenario that the bytes of a text stand for.
///
/// Promise: the scenario is exactly the one that the bytes stand for. It is legal, as each scenario
/// is.
///
/// Shown by: `three_services`, `forty_nodes`, `.ci/refusals.py`, `benches/changed_texts.py`,
/// `a_repeated_rule_is_named_by_its_first`, `an_unknown_key_is_passed_over`,
/// `a_slot_after_the_run_is_read`.
///
/// # Errors
///
/// The first fault of the text, exactly where the definition finds one. `Memory`: out of memory.
#[tactic(auto, unfolding(cany_text::specs::ScenarioText::scenario_of))]
pub fn read_scenario(alloc: Global, bytes: &[u8]) -> Result<Scenario, ScenarioFault>
    ensures ok { IfOk result (λ scenario. scenario_of bytes.now ≡ Ok scenario) }
    ensures fault { IfErr result (λ fault. fault ≢ Memory → scenario_of bytes.now ≡ Err fault) }
{
    let members = read_document(alloc, bytes)?;
    scenario_from(alloc, &Entry::top(&members))
}

#[tactic(auto, unfolding(cany_text::specs::ScenarioText::scenario_from))]
fn scenario_from(alloc: Global, top: &Entry) -> Result<Scenario, ScenarioFault>
    ensures ok { IfOk result (λ scenario. scenario_from (entry_of top.now) ≡ Ok scenario) }
    ensures fault { IfErr result (λ fault. fault ≢ Memory → scenario_from (entry_of top.now) ≡ Err fault) }
{
    top.only_keys(&TOP_KEYS)?;
    let params = read_params(top)?;
    let members = read_members(&params, top)?;
    let sends = entries_at(alloc, &params, top, SENDS)?;
    let rules = read_rules(alloc, &params, top)?;
    let NodeAsks {
        joins,
        leaves,
        restarts,
    } = read_asks(alloc, &params, top)?;
    let journal = read_journal(alloc, params.format, top)?;
    Ok(Scenario::of_parts(
        params, members, sends, rules, joins, leaves, restarts, journal,
    ))
}
