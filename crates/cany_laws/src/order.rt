//! The one order of TOTCAN, and the logs of all incarnations.
ghost use Rattle.std.specs.Prelude.{List};
ghost use Rattle.cany_base.specs.declared.step.Step.{Step};
ghost use Rattle.cany_base.specs.Scenario.{IsLegalScenario, ScenarioParts};
ghost use Rattle.cany_model.specs.Promises.Hypothesis.{IsWithin};
ghost use Rattle.cany_model.specs.Runs.Run.{run};
ghost use Rattle.cany_laws.specs.Order.{EachFollowsOrder};

/// One order for all logs: that of the messages which a running node has accepted by now, by the
/// slots in which their data frames were carried Clean. If a log has a message of it, it has each
/// one before it from the first slot in which it takes part.
///
/// A message that is not in the order stands in the log by the same rule: in the order of the
/// slots.
///
/// It does not say how much of the order a log has: a node that stopped may have delivered none of
/// it. Nor that the order only grows: when a node stops, the order loses what no other running node
/// has accepted. Where no node runs, it is empty.
///
/// Promise: take any incarnation of a run within the hypothesis of a legal scenario, and the order
/// from the first slot in which it takes part. What it has delivered by TOTCAN, less what is not in
/// the order, is a prefix of it. All of it is a prefix of the order that also has what this
/// incarnation has accepted (`EachFollowsOrder`).
///
/// Shown by: `a_stopped_log_is_a_prefix_of_the_order`; rows OrderRows of cany_law_rows.
pub fn one_order()
    ensures { (scenario : ScenarioParts) (journal : List Step) → IsLegalScenario scenario
        → IsWithin scenario.params (run scenario journal).trace → EachFollowsOrder scenario (run scenario journal) }
{}
