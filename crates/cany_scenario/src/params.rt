//! The parameters of a scenario text.
ghost use Rattle.std.specs.Prelude.{◌≡◌, ◌≤◌, IfOk};
ghost use Rattle.cany_base.specs.Layout.{layout};
ghost use Rattle.cany_base.specs.Limits.{most_nodes};
ghost use Rattle.cany_text.specs.declared.scenario_fault.KeyName.TheVariants as key;
ghost use Rattle.cany_text.specs.ParamsText.{given_params, params_of};
ghost use Rattle.cany_text.specs.TomlKeys.{number_from, required};
ghost use Rattle.cany_scenario.specs.Entries.{entry_of};

use crate::entry::{Entry, number_from};
use crate::value::FromValue;
use cany_base::limits::{
    GREATEST_ERRORS, GREATEST_GIVEN, GREATEST_LAG, GREATEST_OMIT, greatest_slots,
};
use cany_base::{Format, Params};
use cany_text::{KeyName, Position, ScenarioFault};
use toml::Value;

/// The parameters that the top keys give, which meet the formulas.
#[tactic(auto, unfolding(cany_text::specs::ParamsText::params_of))]
pub(crate) fn read_params(top: &Entry) -> Result<Params, ScenarioFault>
    ensures { result ≡ params_of (entry_of top.now) }
{
    let params = given_params(top)?;
    params.check()?;
    Ok(params)
}

#[tactic(auto, unfolding(cany_text::specs::ParamsText::given_params))]
fn given_params(top: &Entry) -> Result<Params, ScenarioFault>
    ensures { result ≡ given_params (entry_of top.now) }
{
    let format = top.read(KeyName::Format)?;
    let nodes = read_nodes(format, top)?;
    let slots = top.number(KeyName::Slots, 1, greatest_slots(format))?;
    let lag = top.number_or(KeyName::Lag, 0, GREATEST_LAG, 0)?;
    let omit = top.number_or(KeyName::Omit, 0, GREATEST_OMIT, 1)?;
    let errors = top.number_or(KeyName::Errors, 0, GREATEST_ERRORS, 2)?;
    let least_bound = Params::least_bound(u64::from(nodes), lag, errors);
    let bound = top.number_or(KeyName::Bound, 1, GREATEST_GIVEN, least_bound)?;
    let least_cycle = Params::least_cycle(lag, bound);
    let cycle = top.number_or(KeyName::Cycle, 1, GREATEST_GIVEN, least_cycle)?;
    let least_life = Params::least_life(lag, bound);
    let life = top.number_or(KeyName::Life, 1, GREATEST_GIVEN, least_life)?;
    let least_silence = Params::least_silence(lag, bound, life);
    let silence = top.number_or(KeyName::Silence, 1, GREATEST_GIVEN, least_silence)?;
    let confirm = top.number_or(KeyName::Confirm, 1, cycle, 10)?;
    Ok(Params {
        format,
        nodes,
        lag: lag as u32,
        omit: omit as u32,
        errors: errors as u32,
        bound,
        cycle,
        life,
        silence,
        confirm,
        slots,
    })
}

/// How many nodes there are, at most as many as the format has.
#[tactic(auto, using(crate::proofs::FormatFacts::at_most_nodes))]
fn read_nodes(format: Format, top: &Entry) -> Result<u8, ScenarioFault>
    ensures value { result ≡ required (number_from 2 (layout format).nodes) key.Nodes (entry_of top.now) }
    ensures in_range { IfOk result (λ n. (2 ≤ n) × (n ≤ (layout format).nodes)) }
    ensures few { IfOk result (λ n. n ≤ most_nodes) }
{
    let nodes = top.number(KeyName::Nodes, 2, u64::from(format.nodes()))?;
    Ok(nodes as u8)
}

impl FromValue for Format {
    ghost use Rattle.cany_text.specs.ParamsText.{format_from};

    ghost meaning = { format_from };

    /// The format of the number.
    fn from_value(at: Position, value: &Value) -> Result<Format, ScenarioFault> {
        if number_from(at, value, 1, 2)? == 1 {
            Ok(Format::One)
        } else {
            Ok(Format::Two)
        }
    }
}
