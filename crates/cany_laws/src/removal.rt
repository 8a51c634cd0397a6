//! Laws of nodes that are heard no more.
ghost use Rattle.std.specs.Prelude.{◌≡◌, ◌*◌, ◌<◌, ℕ, List, Some};
ghost use Rattle.cany_base.specs.declared.step.Step.{Step};
ghost use Rattle.cany_base.specs.Scenario.{IsLegalScenario, ScenarioParts};
ghost use Rattle.cany_model.specs.Bus.State.{EndedIncarnation, node_at};
ghost use Rattle.cany_model.specs.Promises.Hypothesis.{IsWithin};
ghost use Rattle.cany_model.specs.Runs.Run.{run};
ghost use Rattle.cany_laws.specs.Detection.{IsLeftOut};
ghost use Rattle.cany_laws.specs.Removal.{HadItLongBefore, HearsNoLifeOf, NobodyGotJoin};

/// Removal with restarts. It asks for nothing of the node that is heard no more: whether it
/// stopped, runs, or started again. The node need not stay in the view until the cycle starts: if
/// it leaves before, it does not come back.
///
/// A JOIN from before slot t counts for `cycle` + `bound` slots, since an incarnation that began
/// lately may have kept it while the others had the node in their views.
///
/// Promise: in a run within the hypothesis of a legal scenario, let an incarnation have another
/// node in its view after its turn of t, `silence` slots or more before cycle k starts
/// (`HadItLongBefore`). Let it hear no life of the node from then up to the start, stand in its own
/// view before it, and have read the cycle's end. If nobody got a JOIN of the node after
/// t − `cycle` − `bound` and up to the start, no incarnation installs a vector with it in cycle k
/// (`IsLeftOut`).
///
/// Shown by: `removed_one_slot_earlier`; rows RemovalRows of cany_law_rows.
pub fn removal()
    ensures { (scenario : ScenarioParts) (journal : List Step) → IsLegalScenario scenario
        → IsWithin scenario.params (run scenario journal).trace → (i r t k : ℕ) (e : EndedIncarnation) → r < scenario.params.nodes
        → HadItLongBefore scenario (run scenario journal) r t k i e
        → HearsNoLifeOf scenario (run scenario journal) r t (k * scenario.params.cycle) i e
        → NobodyGotJoin scenario (run scenario journal) r t (k * scenario.params.cycle) → IsLeftOut scenario (run scenario journal) r k }
{}

/// Removal of a stopped node, while other nodes may start again. It sends nothing after its stop,
/// so only its earlier JOINs count.
///
/// Promise: as `removal`, of a node that stopped in slot t and has not started again: no premise on
/// its life is needed. It is enough that no node got a JOIN of it in a slot after
/// t − `cycle` − `bound` and not after t.
///
/// Shown by: rows RemovalRows of cany_law_rows.
pub fn stopped_removal()
    ensures { (scenario : ScenarioParts) (journal : List Step) → IsLegalScenario scenario
        → IsWithin scenario.params (run scenario journal).trace → (i r t k : ℕ) (e : EndedIncarnation) → r < scenario.params.nodes
        → (node_at (run scenario journal).nodes r).stopped ≡ Some t → HadItLongBefore scenario (run scenario journal) r t k i e
        → NobodyGotJoin scenario (run scenario journal) r t t → IsLeftOut scenario (run scenario journal) r k }
{}
