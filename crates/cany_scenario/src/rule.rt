//! An entry of `fault` in a scenario text.
ghost use Rattle.std.specs.Prelude.{◌≡◌};
ghost use Rattle.cany_text.specs.FaultsText.{rejected_by};

use crate::array::FromEntry;
use crate::entry::Entry;
use crate::nodes::nodes_at;
use crate::rule_place::place_from;
use crate::value::FromValue;
use crate::word::{Named, one_of};
use cany_base::{NodeSet, Params, Rule, Verdict};
use cany_text::names::verdict_name;
use cany_text::{KeyName, Position, ScenarioFault};
use toml::Value;

impl FromEntry for Rule {
    ghost use Rattle.cany_text.specs.FaultsText.{rule_from};

    ghost meaning = { rule_from };

    #[tactic(auto, unfolding(cany_text::specs::FaultsText::rule_from))]
    fn from_entry(params: &Params, entry: &Entry) -> Result<Rule, ScenarioFault> {
        let place = place_from(params, entry)?;
        let verdict = entry.read_or(KeyName::Verdict, Verdict::Clean)?;
        let reject = nodes_at(params, entry, KeyName::Reject)?;
        let stop = nodes_at(params, entry, KeyName::Stop)?;
        Ok(Rule {
            place,
            verdict: rejected_by(reject, verdict),
            stop,
        })
    }
}

/// A verdict by which nobody rejects the frame as yet.
impl FromValue for Verdict {
    ghost use Rattle.cany_text.specs.FaultsText.{verdict_from};

    ghost meaning = { verdict_from };

    #[tactic(auto, unfolding(cany_text::specs::FaultsText::verdict_from, cany_base::specs::Nodes::those_where, cany_base::specs::Nodes::bits_where))]
    fn from_value(at: Position, value: &Value) -> Result<Verdict, ScenarioFault> {
        let nobody = NodeSet::empty();
        let verdicts = [
            Verdict::Clean,
            Verdict::Lost,
            Verdict::Partial(nobody),
            Verdict::Silent(nobody),
        ];
        one_of(&verdicts, at, value)
    }
}

/// The verdict by which these nodes reject the frame.
fn rejected_by(reject: NodeSet, verdict: Verdict) -> Verdict
    ensures { result ≡ rejected_by reject verdict }
{
    match verdict {
        Verdict::Clean => Verdict::Clean,
        Verdict::Lost => Verdict::Lost,
        Verdict::Partial(_) => Verdict::Partial(reject),
        Verdict::Silent(_) => Verdict::Silent(reject),
    }
}

impl Named for Verdict {
    ghost use Rattle.cany_text.specs.TextNames.{verdict_name};

    ghost word = { verdict_name };

    fn name(self) -> &'static str {
        verdict_name(self)
    }
}
