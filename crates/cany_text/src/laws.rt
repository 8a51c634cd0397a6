//! What holds of every report: each law is the contract of a function that does nothing.
ghost use Rattle.std.specs.Prelude.{◌≡◌, ◌<◌, ◌≤◌, ◌+◌, ◌↔◌, List, ◌∷◌, Option, []};
ghost use Rattle.cany_base.specs.declared.class.Class.TheVariants as class;
ghost use Rattle.cany_base.specs.declared.message.Service.TheVariants as service;
ghost use Rattle.cany_base.specs.declared.step.Step.{Step};
ghost use Rattle.cany_base.specs.Scenario.{IsLegalScenario, ScenarioParts};
ghost use Rattle.cany_model.specs.Runs.Run.{IsLegal, IsWhole, run};
ghost use Rattle.cany_model.specs.Bus.State.{runs};
ghost use Rattle.cany_text.specs.Replayed.{GivesReportAgain, with_journal};
ghost use Rattle.cany_text.specs.ReadOff.{AgreeOnWhatIsTold};
ghost use Rattle.cany_text.specs.Report.{report};

/// A report's journal, given to the scenario as its own, gives the same report again. So a report
/// can be checked by a second run.
///
/// Promise: no run depends on the journal that the scenario brings (`same_run`). A legal and whole
/// journal, put in the place of the own one of a legal scenario, leaves the scenario legal, is the
/// one that it follows, and has no fault. The report is then the same (`GivesReportAgain`).
pub fn replayed_reports()
    ensures same_run { (given : Option (List Step)) (scenario : ScenarioParts) (journal : List Step)
        → run (with_journal given scenario) journal ≡ run scenario journal }
    ensures again { (scenario : ScenarioParts) (journal : List Step) → IsLegalScenario scenario → IsLegal scenario journal
        → IsWhole scenario journal → GivesReportAgain scenario journal }
{}

/// What can be read off a report: every delivery, failure sign and view. Two runs of one scenario
/// with equal reports are one run, since their journals are equal.
///
/// Promise: let two legal runs of legal scenarios have equal reports. Then their parameters, their
/// journals and the incarnations of each node are equal. So are the logs of each incarnation, where
/// the payloads of the sends are bytes (`AgreeOnWhatIsTold`).
///
/// Shown by: `a_report_tells_of_the_last_incarnation_alone`, `two_nodes_share_a_letter`.
pub fn what_a_report_tells()
    ensures { (a b : ScenarioParts) (j k : List Step) → IsLegalScenario a → IsLegalScenario b → IsLegal a j → IsLegal b k
        → report a j ≡ report b k → AgreeOnWhatIsTold a j b k }
{}
