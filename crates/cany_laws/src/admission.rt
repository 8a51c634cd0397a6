//! Laws of nodes that ask to join the view.
ghost use Rattle.std.specs.Prelude.{◌<◌, ℕ, List};
ghost use Rattle.cany_base.specs.declared.step.Step.{Step};
ghost use Rattle.cany_base.specs.Scenario.{IsLegalScenario, ScenarioParts};
ghost use Rattle.cany_model.specs.Bus.State.{EndedIncarnation};
ghost use Rattle.cany_model.specs.Promises.Hypothesis.{IsWithin};
ghost use Rattle.cany_model.specs.Runs.Run.{run};
ghost use Rattle.cany_laws.specs.Admission.{IsOutsideAtEach, IsAdmittedByEach, JoinIsCarried, KnowsItOutside};

/// Admission with restarts. It is said of the node that asked too, in whatever incarnation.
///
/// It does not say that the incarnation that asked becomes a member by itself. Where it takes part
/// only since after the start of the cycle before, the vector that has the node may be one that it
/// does not install.
///
/// Promise: in a run within the hypothesis of a legal scenario, let a JOIN be carried Clean after
/// the start of cycle k − 1 and by that of k, its asker outside the views (`IsOutsideAtEach`). An
/// incarnation that takes part since the first start and installs a vector in cycle k has the asker
/// in it or, for k > 1, in its vector of cycle k − 1. One that takes part only since later has it
/// too or, for k > 1, some incarnation had it in cycle k − 1 (`IsAdmittedByEach`).
///
/// Shown by: rows AdmissionRows of cany_law_rows.
pub fn admission()
    ensures { (scenario : ScenarioParts) (journal : List Step) → IsLegalScenario scenario
        → IsWithin scenario.params (run scenario journal).trace → (r k slot : ℕ) → r < scenario.params.nodes
        → JoinIsCarried scenario (run scenario journal) r k slot → IsOutsideAtEach scenario (run scenario journal) r k slot
        → IsAdmittedByEach scenario (run scenario journal) r k }
{}

/// Admission where one incarnation, of whatever node, knows that the asker is outside. This may be
/// the incarnation that asked, which so knows from what it has read itself that its JOIN counts.
///
/// A node that started again knows it once a cycle that began since it takes part has ended with a
/// vector without it. A JOIN that comes earlier may have no effect, since the others may still have
/// the node in their views.
///
/// Promise: as `admission`, where one incarnation in place of all has the asker outside its view
/// before its turn of the slot of the JOIN. It has read all slots before that one, and is of the
/// opening or has installed a vector in a cycle that ended before (`KnowsItOutside`).
///
/// Shown by: rows AdmissionRows of cany_law_rows.
pub fn known_admission()
    ensures { (scenario : ScenarioParts) (journal : List Step) → IsLegalScenario scenario
        → IsWithin scenario.params (run scenario journal).trace → (r k slot j : ℕ) (f : EndedIncarnation) → r < scenario.params.nodes
        → JoinIsCarried scenario (run scenario journal) r k slot → KnowsItOutside scenario (run scenario journal) r slot j f
        → IsAdmittedByEach scenario (run scenario journal) r k }
{}
