//! What holds of every run over two media: each law is the contract of a function that does
//! nothing.
ghost use Rattle.std.specs.Prelude.{◌≡◌, ◌<◌, ◌≤◌, ℕ, Bool, true, List};
ghost use Rattle.cany_base.specs.declared.step.Step.{Step};
ghost use Rattle.cany_base.specs.Limits.{most_nodes};
ghost use Rattle.cany_base.specs.Scenario.{ScenarioParts};
ghost use Rattle.cany_model.specs.Runs.Run.{run};
ghost use Rattle.cany_media.specs.declared.line.Line.{Line};
ghost use Rattle.cany_media.specs.Lines.{bus_level, has_whole, level_at};
ghost use Rattle.cany_media.specs.MediaRun.{media_run};
ghost use Rattle.cany_media.specs.Plan.{FaultParts, lines_at};
ghost use Rattle.cany_media.specs.Single.{single_bus};

/// The single bus: the run over two media is the run of the scenario of one bus, by every journal.
///
/// It asks for nothing of the scenario, of the plan or of the journal. So what is promised of runs
/// is promised of runs over two media.
///
/// Promise: the run over two lines, by every journal of every scenario and for all faults, is the
/// run of the scenario of one bus by that journal.
pub fn one_bus()
    ensures { (scenario : ScenarioParts) (plan : List FaultParts) (journal : List Step)
        → media_run scenario plan journal ≡ run (single_bus scenario plan) journal }
{}

/// One whole line: in a slot that has one, whatever the nodes send at a bit, each of them reads the
/// level of one bus.
///
/// Promise: on a bus of at most 64 nodes, in a slot with a whole line, each node reads the level of
/// one bus at a bit, whatever the nodes send.
pub fn one_level()
    ensures { (nodes : ℕ) (lines : Line × Line) (sent : ℕ → Bool) (i : ℕ) → nodes ≤ most_nodes → i < nodes
        → has_whole nodes lines ≡ true → level_at lines nodes sent i ≡ bus_level nodes sent }
{}

/// Failures of one line at a time change nothing: where each slot has a whole line, the run over
/// two media is the run of the scenario itself.
///
/// Promise: where each slot of the run has a whole line, the run over two lines is the run of the
/// scenario itself.
pub fn one_line_is_enough()
    ensures { (scenario : ScenarioParts) (plan : List FaultParts) (journal : List Step)
        → ((slot : ℕ) → slot < scenario.params.slots → has_whole scenario.params.nodes (lines_at plan slot) ≡ true)
        → media_run scenario plan journal ≡ run scenario journal }
{}
