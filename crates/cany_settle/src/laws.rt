//! What holds of every run that is long enough: each law is the contract of a function that does
//! nothing.
ghost use Rattle.std.specs.Prelude.{◌≡◌, ◌+◌, ◌≤◌, ℕ, List};
ghost use Rattle.cany_base.specs.declared.step.Step.{Step};
ghost use Rattle.cany_base.specs.Scenario.{IsLegalScenario, ScenarioParts};
ghost use Rattle.cany_model.specs.Promises.Hypothesis.{IsWithin};
ghost use Rattle.cany_model.specs.Runs.Run.{IsWhole, run};
ghost use Rattle.cany_settle.specs.LongEnough.{AllSettled, IsLongEnough, last_load, short_tail};

/// Settling: in every whole run within the fault hypothesis of a legal scenario whose last event
/// lies two membership cycles or more before the end, every message is settled.
///
/// It holds of every journal, in whatever order the nodes take their turns and however far they
/// lag, with restarts too. The scenario is one that all nodes of the opening follow from slot 0 on
/// (`from`), as every scenario that is read. The law does not say that a run ever comes to such an
/// end.
///
/// Promise: in a whole run within the hypothesis of a legal scenario whose `from` is 0, as that of
/// every scenario that is read, every message is settled if the last event lies two membership
/// cycles or more before the end. The journal may be any.
///
/// Shown by: rows Rows of cany_settle.
pub fn settling()
    ensures { (scenario : ScenarioParts) (journal : List Step) → IsLegalScenario scenario → scenario.from ≡ 0
        → IsWithin scenario.params (run scenario journal).trace → IsWhole scenario journal
        → IsLongEnough scenario (run scenario journal) → AllSettled scenario (run scenario journal) }
{}

/// Settling sooner: in such a run it is enough that the last load lies `short_tail` slots before
/// the end. The last load is the last scripted send, or the last slot that carried a frame of
/// another class than those that win over all others. Stops, errors and scripted joins and leaves
/// may come as late as they do.
///
/// Promise: in a whole run within the hypothesis of a legal scenario whose `from` is 0, every
/// message is settled if the last load lies `short_tail` slots or more before the end. It asks for
/// no restriction on stops, errors, joins or leaves, but that the run is within the hypothesis.
pub fn settling_soon()
    ensures { (scenario : ScenarioParts) (journal : List Step) → IsLegalScenario scenario → scenario.from ≡ 0
        → IsWithin scenario.params (run scenario journal).trace → IsWhole scenario journal
        → last_load scenario (run scenario journal) + short_tail scenario.params ≤ scenario.params.slots
        → AllSettled scenario (run scenario journal) }
{}
