//! Laws of failures and views: which nodes are found to have failed, and which are left out.
ghost use Rattle.std.specs.Prelude.{◌+◌, ◌≤◌, ℕ, List};
ghost use Rattle.cany_base.specs.declared.step.Step.{Step};
ghost use Rattle.cany_base.specs.Scenario.{IsLegalScenario, ScenarioParts};
ghost use Rattle.cany_model.specs.Bus.State.{EndedIncarnation};
ghost use Rattle.cany_model.specs.Promises.Hypothesis.{IsWithin};
ghost use Rattle.cany_model.specs.Runs.Run.{run};
ghost use Rattle.cany_laws.specs.Detection.{FailedAtStart, HearsNothingOf, IsDetected, IsLeftOut, WasSilentAtStart};

/// Detection of a node that is not heard. It holds of every journal, with restarts, and under any
/// faults.
///
/// A sign counts once in a cycle. So a node that was found, admitted again and lost in one cycle is
/// found only when the next one starts. That takes a cycle longer than the silence.
///
/// Promise: in a run of a legal scenario, let an incarnation have another node in its view from t
/// until u, hear no life of it after t up to u ≥ t + `silence`, and have read u. After its turn of
/// u the node has failed there, unless the incarnation knew the sign of the cycle of u by its turn
/// of t. If a cycle starts after t and not after u, it has failed in any case (`IsDetected`).
///
/// Shown by: rows SilenceRows of cany_law_rows.
pub fn silence_is_detected()
    ensures { (scenario : ScenarioParts) (journal : List Step) → IsLegalScenario scenario
        → (i r t u : ℕ) (e : EndedIncarnation) → HearsNothingOf scenario (run scenario journal) i e r t u
        → t + scenario.params.silence ≤ u → IsDetected scenario (run scenario journal) i e r t u }
{}

/// Out at the next start. A member that stops before it has read the end does not count: what it
/// found may stop with it, and the others install a vector with the node.
///
/// Promise: in a run within the hypothesis of a legal scenario, let a node have failed at one
/// incarnation in its own view, with the node in that view, when a cycle starts. If this
/// incarnation has read the cycle to its end, no incarnation of any node installs a vector with the
/// node in it (`IsLeftOut`).
///
/// Shown by: rows SilenceRows of cany_law_rows.
pub fn failed_are_left_out()
    ensures { (scenario : ScenarioParts) (journal : List Step) → IsLegalScenario scenario
        → IsWithin scenario.params (run scenario journal).trace → (i r k : ℕ) (e : EndedIncarnation)
        → FailedAtStart scenario (run scenario journal) r k i e → IsLeftOut scenario (run scenario journal) r k }
{}

/// Removal by silence. It asks for nothing of the silent node: whether it stopped, runs, or started
/// again. It says nothing of a node that is in the view for a shorter time, however long it was
/// silent.
///
/// Promise: in a run within the hypothesis of a legal scenario, let one incarnation in its own view
/// have another node in it in each of the `silence` slots before a cycle starts. Let it hear no
/// life of the node in them after the first, nor in the starting slot (`WasSilentAtStart`). If it
/// has read the cycle to its end, no incarnation installs a vector with the node in it
/// (`IsLeftOut`).
///
/// Shown by: rows SilenceRows of cany_law_rows.
pub fn silent_are_left_out()
    ensures { (scenario : ScenarioParts) (journal : List Step) → IsLegalScenario scenario
        → IsWithin scenario.params (run scenario journal).trace → (i r k : ℕ) (e : EndedIncarnation)
        → WasSilentAtStart scenario (run scenario journal) r k i e → IsLeftOut scenario (run scenario journal) r k }
{}
