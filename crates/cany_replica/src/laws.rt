//! What is promised of tables, as a law about every run.
ghost use Rattle.cany_base.specs.declared.step.Step.{Step};
ghost use Rattle.cany_base.specs.Scenario.{IsLegalScenario, ScenarioParts};
ghost use Rattle.cany_model.specs.Promises.Hypothesis.{IsWithin};
ghost use Rattle.cany_model.specs.Runs.Run.{run};
ghost use Rattle.cany_replica.specs.Agreement.{HasOneTable};
ghost use Rattle.std.specs.Prelude.{List};

use cany_model::laws::safety;

/// One table: in every run within the fault hypothesis of a legal scenario the table of a correct
/// node, and its replies, are those that the first messages of the one order of TOTCAN make. So
/// nodes that take part from the start have equal tables once they applied equally many messages,
/// and a message that two of them applied has one reply.
///
/// Promise: in every run within the hypothesis of a legal scenario each correct node has the table
/// and the replies of the first messages of the one order, from its first slot on. Nodes that take
/// part since slot 0 and applied equally many messages have equal tables and replies. A message
/// that two of them applied has one reply.
///
/// Shown by: `a_table_is_folded_by_origin`.
pub fn one_table()
    ensures { (scenario : ScenarioParts) (journal : List Step) → IsLegalScenario scenario
        → IsWithin scenario.params (run scenario journal).trace → HasOneTable scenario (run scenario journal) }
{
    safety();
}
