//! The formulas of the parameters: the least value that each allows, from the values before it.

ghost use Rattle.std.specs.Prelude.{◌≡◌, ◌≤◌};
ghost use Rattle.cany_base.specs.Limits as limit;
ghost use Rattle.cany_base.specs.Params as formula;

use crate::params::Params;

impl Params {
    /// The least `bound`, in slots, for `nodes` nodes with this `lag` and these `errors`.
    ///
    /// Promise: the value of the formula (`least_bound`), which is at least 1 and at most
    /// 1,000,000.
    ///
    /// Shown by: `bound_one_too_small`, `check_forgets_the_lag`.
    pub fn least_bound(nodes: u64, lag: u64, errors: u64) -> u64
        requires nodes { nodes ≤ limit.most_nodes }
        requires lag { lag ≤ limit.greatest_lag }
        requires errors { errors ≤ limit.greatest_errors }
        ensures value { result ≡ formula.least_bound nodes lag errors }
        ensures in_range { (1 ≤ result) × (result ≤ limit.greatest_given) }
    {
        let top_frames = 3 * nodes * nodes + 2 * nodes;
        1 + top_frames + errors + lag * (top_frames + errors + nodes + 1)
    }

    /// The least `cycle`, in slots.
    ///
    /// Promise: twice the bound plus twice the lag.
    pub fn least_cycle(lag: u64, bound: u64) -> u64
        requires lag { lag ≤ limit.greatest_lag }
        requires bound { bound ≤ limit.greatest_default }
        ensures { result ≡ formula.least_cycle lag bound }
    {
        2 * bound + 2 * lag
    }

    /// The least `life`, in slots.
    ///
    /// Promise: the bound plus the lag.
    pub fn least_life(lag: u64, bound: u64) -> u64
        requires lag { lag ≤ limit.greatest_lag }
        requires bound { bound ≤ limit.greatest_default }
        ensures { result ≡ formula.least_life lag bound }
    {
        bound + lag
    }

    /// The least `silence`, in slots.
    ///
    /// Promise: the sum of `life`, `lag` and `bound`, and one more.
    pub fn least_silence(lag: u64, bound: u64, life: u64) -> u64
        requires lag { lag ≤ limit.greatest_lag }
        requires bound { bound ≤ limit.greatest_default }
        requires life { life ≤ limit.greatest_default }
        ensures { result ≡ formula.least_silence lag bound life }
    {
        life + lag + bound + 1
    }
}
