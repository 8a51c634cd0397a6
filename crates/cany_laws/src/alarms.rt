//! Laws of wrong signs: when a log may tell that a node has failed, and which nodes are never taken
//! for failed and stay in the views.
ghost use Rattle.std.specs.Prelude.{◌≡◌, ℕ, List};
ghost use Rattle.cany_base.specs.declared.step.Step.{Step};
ghost use Rattle.cany_base.specs.Scenario.{IsLegalScenario, ScenarioParts};
ghost use Rattle.cany_model.specs.Bus.State.{EndedIncarnation, node_at};
ghost use Rattle.cany_model.specs.Promises.Detector.{AsksNoLeave};
ghost use Rattle.cany_model.specs.Promises.Hypothesis.{IsWithin};
ghost use Rattle.cany_model.specs.Promises.Settled.{IsCorrect};
ghost use Rattle.cany_model.specs.Runs.Run.{run};
ghost use Rattle.cany_laws.specs.Alarms.{HadInView, IsTakenForFailedNowhere, NoLeaveWasCarried, RaisesNoFalseAlarm, StandsInEachVector};

/// No false alarm in any log. A greater `silence` makes the number of slots in it greater.
///
/// At least one stop of the node is older than this number. The node may have started again since,
/// and run as a member, and it may have stopped again later.
///
/// Promise: in a run within the hypothesis of a legal scenario, let the log of any incarnation tell
/// in slot u that a node failed. An incarnation of this node stopped in a slot t with
/// t + (`silence` - `life` - `lag` - `bound`) < u (`RaisesNoFalseAlarm`).
///
/// Shown by: `the_bound_does_not_count`; rows AlarmRows of cany_law_rows.
pub fn no_false_alarm()
    ensures { (scenario : ScenarioParts) (journal : List Step) → IsLegalScenario scenario
        → IsWithin scenario.params (run scenario journal).trace → RaisesNoFalseAlarm scenario (run scenario journal) }
{}

/// Accuracy where others start again. It holds whether the node is in a view or not, and whichever
/// other nodes stop or start again.
///
/// Promise: in a run within the hypothesis of a legal scenario, take a running node in its first
/// incarnation. It has failed at no incarnation of any node after any of its turns, and no log
/// tells that it has (`IsTakenForFailedNowhere`).
///
/// Shown by: rows AlarmRows of cany_law_rows.
pub fn accuracy()
    ensures { (scenario : ScenarioParts) (journal : List Step) → IsLegalScenario scenario
        → IsWithin scenario.params (run scenario journal).trace → (r : ℕ) → IsCorrect scenario (run scenario journal) r
        → (node_at (run scenario journal).nodes r).present.number ≡ 0 → IsTakenForFailedNowhere scenario (run scenario journal) r }
{}

/// Staying where others start again. It is said of all incarnations, those that started again and
/// those that stopped later too, and asks nothing of who else is in the views. It says nothing of a
/// node that started again.
///
/// Promise: in a run within the hypothesis of a legal scenario, take a running node in its first
/// incarnation that some incarnation had in its view after its turn of slot t. Let no slot have
/// carried a LEAVE of it (`uncarried`), or let it have asked for none (`unasked`). It stands in
/// each vector that any incarnation installs in a cycle that ends after slot t
/// (`StandsInEachVector`).
///
/// Shown by: rows AlarmRows of cany_law_rows.
pub fn members_stay()
    ensures uncarried { (scenario : ScenarioParts) (journal : List Step) → IsLegalScenario scenario
        → IsWithin scenario.params (run scenario journal).trace → (r : ℕ) → IsCorrect scenario (run scenario journal) r
        → (node_at (run scenario journal).nodes r).present.number ≡ 0 → NoLeaveWasCarried (run scenario journal) r
        → (i t : ℕ) (e : EndedIncarnation) → HadInView scenario (run scenario journal) r t i e
        → StandsInEachVector scenario (run scenario journal) r t }
    ensures unasked { (scenario : ScenarioParts) (journal : List Step) → IsLegalScenario scenario
        → IsWithin scenario.params (run scenario journal).trace → (r : ℕ) → IsCorrect scenario (run scenario journal) r
        → (node_at (run scenario journal).nodes r).present.number ≡ 0 → AsksNoLeave scenario (run scenario journal) r
        → (i t : ℕ) (e : EndedIncarnation) → HadInView scenario (run scenario journal) r t i e
        → StandsInEachVector scenario (run scenario journal) r t }
{}
