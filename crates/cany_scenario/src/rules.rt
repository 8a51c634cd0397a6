//! The fault rules of a scenario text.
ghost use Rattle.std.specs.Prelude.{◌≡◌, ◌≢◌, [], IfOk, IfErr, Ok, Err};
ghost use Rattle.cany_text.specs.declared.scenario_fault.ScenarioFault.TheVariants.{Memory};
ghost use Rattle.cany_text.specs.FaultsText.{repeats, rules_of};
ghost use Rattle.cany_text.specs.TomlKeys.{first_after};
ghost use Rattle.cany_scenario.specs.Entries.{entry_of};

use crate::array::{Array, entries_at};
use crate::entry::Entry;
use cany_base::limits::MOST_RULES;
use cany_base::{Params, Place, Rule};
use cany_text::{KeyName, ScenarioFault, TableName};
use std::alloc::Global;
use std::collections::HashSet;

/// The scripted fault rules.
const RULES: Array = Array {
    table: TableName::Fault,
    name: KeyName::Fault,
    most: MOST_RULES,
};

/// The rules that the text lists, in file order, of which no two are for one place.
#[tactic(auto, unfolding(cany_text::specs::FaultsText::rules_of))]
pub(crate) fn read_rules(
    alloc: Global,
    params: &Params,
    top: &Entry,
) -> Result<Vec<Rule>, ScenarioFault>
    ensures ok { IfOk result (λ rules. rules_of params.now (entry_of top.now) ≡ Ok rules.items) }
    ensures fault { IfErr result (λ fault. fault ≢ Memory → rules_of params.now (entry_of top.now) ≡ Err fault) }
{
    let rules: Vec<Rule> = entries_at(alloc, params, top, RULES)?;
    match first_repeated(alloc, &rules)? {
        Some(index) => Err(ScenarioFault::RepeatedRule { index }),
        None => Ok(rules),
    }
}

/// The index of the first rule that has the place of an earlier one.
fn first_repeated(alloc: Global, rules: &[Rule]) -> Result<Option<usize>, ScenarioFault>
    ensures ok { IfOk result (λ first. first ≡ first_after repeats [] rules.now) }
    ensures memory { IfErr result (λ fault. fault ≡ Memory) }
{
    let mut places: HashSet<Place> = HashSet::with_capacity(alloc, rules.len())?;
    for (index, rule) in rules.iter().enumerate() {
        if !places.insert(rule.place)? {
            return Ok(Some(index));
        }
    }
    Ok(None)
}
