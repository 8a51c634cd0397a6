ghost use Rattle.std.specs.Prelude.{◌≡◌, ◌<◌, ◌≤◌, ◌↔◌, IsOk, IfErr};

use crate::format::Format;
use std::marker::Model;
use thiserror::Error;

/// The parameters of a scenario. Times are in slots.
#[derive(Clone, Copy, Debug)]
pub struct Params {
    pub format: Format,
    /// How many nodes there are: 2 to 32 in format one, 2 to 64 in format two.
    pub nodes: u8,
    /// How many unread notices a node may have when a slot runs: 0 to 8.
    pub lag: u32,
    /// How many Partial slots an identity may meet: 0 to 8.
    pub omit: u32,
    /// How many Lost or Partial slots there may be in a window of `bound + lag` slots: 0 to 1000.
    pub errors: u32,
    /// The bound: 1 to 4,000,000.
    pub bound: u64,
    /// The length of a membership cycle: 1 to 4,000,000.
    pub cycle: u64,
    /// The life interval: 1 to 4,000,000.
    pub life: u64,
    /// The silence limit: 1 to 4,000,000.
    pub silence: u64,
    /// The confirm timer of RELCAN: 1 to 4,000,000.
    pub confirm: u64,
    /// The length of the run: 1 to 100,000 in format one, 1 to 400,000 in format two.
    pub slots: u64,
}

impl Model for Params {
    ghost use Rattle.cany_base.specs.Params.{Parameters, IsInRange};

    ghost Value = { Parameters };

    ghost use Rattle.cany_base.specs.ParamsFields.{parameters_of, fields_of};

    ghost view = { parameters_of };

    ghost invariant = { λ p. IsInRange (parameters_of p) };

    ghost inverse = { fields_of };
}

/// A parameter that a formula bounds from below, or from above for `Confirm`.
#[derive(Clone, Copy, Debug, PartialEq, Eq)]
pub enum ParamName {
    Bound,
    Cycle,
    Life,
    Silence,
    Confirm,
}

/// The first formula that fails, by the parameter that it bounds. `needed` is the least value that
/// it allows, and for `Confirm` the greatest.
#[derive(Clone, Copy, Debug, PartialEq, Eq, Error)]
#[error("{which:?} needs {needed}")]
pub struct ParamFault {
    pub which: ParamName,
    pub needed: u64,
}

impl Params {
    ghost use Rattle.cany_base.specs.Limits as limit;
    ghost use Rattle.cany_base.specs.declared.format.Format.TheVariants.{One};
    ghost use Rattle.cany_base.specs.Layout.{layout};
    ghost use Rattle.cany_base.specs.Params.{IsInRange, MeetsFormulas, default_parameters, default_parameters_of, first_fault};

    /// The parameters that `with_defaults_of` gives in the first format.
    ///
    /// Promise: the parameters are those of the definition (`default_parameters`). They are in
    /// range and meet the formulas.
    ///
    /// Shown by: `seats_by_hand`. Nothing in the program runs it.
    pub fn with_defaults(nodes: u8, slots: u64) -> Params
        requires nodes { (2 ≤ nodes) × (nodes ≤ (layout One).nodes) }
        requires slots { (1 ≤ slots) × (slots ≤ limit.greatest_slots One) }
        ensures value { result ≡ default_parameters nodes slots }
        ensures ranges { IsInRange result }
        ensures formulas { MeetsFormulas result }
    {
        Params::with_defaults_of(Format::One, nodes, slots)
    }

    /// The parameters for these numbers of nodes and slots where a scenario text gives no others.
    /// They are `lag` 0, `omit` 1, `errors` 2, `confirm` 10, and the least legal `bound`, `cycle`,
    /// `life` and `silence`.
    ///
    /// Promise: the parameters are those of the definition (`default_parameters_of`). They are in
    /// range and meet the formulas.
    ///
    /// Shown by: `seats_by_hand`. Nothing in the program runs it.
    pub fn with_defaults_of(format: Format, nodes: u8, slots: u64) -> Params
        requires nodes { (2 ≤ nodes) × (nodes ≤ (layout format).nodes) }
        requires slots { (1 ≤ slots) × (slots ≤ limit.greatest_slots format) }
        ensures value { result ≡ default_parameters_of format nodes slots }
        ensures ranges { IsInRange result }
        ensures formulas { MeetsFormulas result }
    {
        let bound = Params::least_bound(u64::from(nodes), 0, 2);
        let life = Params::least_life(0, bound);
        Params {
            format,
            nodes,
            lag: 0,
            omit: 1,
            errors: 2,
            bound,
            cycle: Params::least_cycle(0, bound),
            life,
            silence: Params::least_silence(0, bound, life),
            confirm: 10,
            slots,
        }
    }

    /// Checks the formulas in their order: those of the bound, the cycle, the life interval, the
    /// silence limit and the confirm timer.
    ///
    /// Promise: the answer is `Ok` exactly where all formulas hold.
    ///
    /// Shown by: `.ci/refusals.py`, `bound_one_too_small`.
    ///
    /// # Errors
    ///
    /// `ParamFault` exactly where a formula fails. It names the first that fails, in this order,
    /// with the value that it needs.
    pub fn check(&self) -> Result<(), ParamFault>
        ensures first { result ≡ first_fault self.now }
        ensures ok { IsOk result ↔ MeetsFormulas self.now }
    {
        let nodes = u64::from(self.nodes);
        let lag = u64::from(self.lag);
        let errors = u64::from(self.errors);
        let bound = Params::least_bound(nodes, lag, errors);
        at_least(ParamName::Bound, self.bound, bound)?;
        let cycle = Params::least_cycle(lag, self.bound);
        at_least(ParamName::Cycle, self.cycle, cycle)?;
        let life = Params::least_life(lag, self.bound);
        at_least(ParamName::Life, self.life, life)?;
        let silence = Params::least_silence(lag, self.bound, self.life);
        at_least(ParamName::Silence, self.silence, silence)?;
        if self.confirm > self.cycle {
            return Err(ParamFault {
                which: ParamName::Confirm,
                needed: self.cycle,
            });
        }
        Ok(())
    }
}

fn at_least(which: ParamName, value: u64, needed: u64) -> Result<(), ParamFault>
    ensures ok { IsOk result ↔ (needed ≤ value) }
    ensures fault { IfErr result (λ fault. fault ≡ record { which = which; needed = needed }) }
{
    if value < needed {
        return Err(ParamFault { which, needed });
    }
    Ok(())
}
