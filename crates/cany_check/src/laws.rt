//! That the verdicts on the account of a run are those of the promise: laws of the definitions,
//! each a function without a body whose clauses say it.
ghost use Rattle.std.specs.Prelude.{◌≡◌, ◌↔◌, ℕ, false, None, List, [], Contains};
ghost use Rattle.cany_base.specs.declared.log_entry.LogEntry.TheVariants.{Failed};
ghost use Rattle.cany_base.specs.declared.step.Step.{Step};
ghost use Rattle.cany_base.specs.Scenario.{ScenarioParts, IsLegalScenario};
ghost use Rattle.cany_model.specs.Promises.Hypothesis.{IsWithin};
ghost use Rattle.cany_model.specs.Promises.OneView.{HasOneView};
ghost use Rattle.cany_model.specs.Promises.Order.{HasOneOrder};
ghost use Rattle.cany_model.specs.Promises.Safe.{IsAgreedOn, IsSignAgreedOn};
ghost use Rattle.cany_model.specs.Promises.Settled.{IsCorrect, IsCorrectFrom, is_settled};
ghost use Rattle.cany_model.specs.Rules.Knowledge.{FailureSign};
ghost use Rattle.cany_model.specs.Rules.Log.{log};
ghost use Rattle.cany_model.specs.Rules.Messages.{Message};
ghost use Rattle.cany_model.specs.Runs.Run.{IsWhole, run};
ghost use Rattle.cany_check.specs.declared.deciders.findings.Fate.TheVariants.{Apart, Open};
ghost use Rattle.cany_check.specs.declared.deciders.findings.Judgement.TheVariants.{Broken};
ghost use Rattle.cany_check.specs.declared.deciders.findings.Part.{Part};
ghost use Rattle.cany_check.specs.declared.deciders.findings.Part.TheVariants.{Accuracy};
ghost use Rattle.cany_check.specs.Accounts.Account.{AccountParts, account_of, logs_of, message_record, sign_record, signs_told};
ghost use Rattle.cany_check.specs.Deciding.Accuracy.{accusations};
ghost use Rattle.cany_check.specs.Deciding.Fates.{message_fate, sign_fate};
ghost use Rattle.cany_check.specs.Deciding.Integrity.{wrong_entry};
ghost use Rattle.cany_check.specs.Deciding.OneOrder.{NobodyParts, parting};
ghost use Rattle.cany_check.specs.Promise.{IsOpen, KeepsPromise};
ghost use Rattle.cany_check.specs.Deciding.Verdict.{judgement, status};
ghost use Rattle.cany_check.specs.Deciding.Views.{view_partings};

/// In the account of a run no entry is wrong, as every run has integrity.
///
/// Promise: in every run of a legal scenario, by any journal, no entry of the account is wrong.
///
/// Shown by: rows IntegrityRows of cany_check.
pub fn no_entry_is_wrong()
    ensures { (scenario : ScenarioParts) (journal : List Step) → IsLegalScenario scenario → wrong_entry (account_of scenario (run scenario journal)) ≡ None }
{}

/// The fate of a message in the account of a run: it is open exactly where the message is not
/// settled, and apart exactly where the run does not agree on it.
///
/// Promise: in a whole run of a legal scenario a message is open exactly where it is not settled.
/// It is apart exactly where the run does not agree on it.
///
/// Shown by: rows Rows of cany_check.
pub fn message_fates_are_promised()
    ensures open { (scenario : ScenarioParts) (journal : List Step) → IsLegalScenario scenario → IsWhole scenario journal → let s = run scenario journal in
        (m : Message) → (message_fate (account_of scenario s) (message_record scenario s m) ≡ Open) ↔ (is_settled scenario s m ≡ false) }
    ensures apart { (scenario : ScenarioParts) (journal : List Step) → IsLegalScenario scenario → IsWhole scenario journal → let s = run scenario journal in
        (m : Message) → (message_fate (account_of scenario s) (message_record scenario s m) ≡ Apart) ↔ (IsAgreedOn scenario s m → ⊥) }
{}

/// The fate of a failure sign in the account of a run: it is apart exactly where the run does not
/// agree on it. On each sign that the account does not list the run agrees.
///
/// Promise: in a whole run of a legal scenario a sign is apart exactly where the run does not agree
/// on it. On a sign that the account does not list the run agrees.
///
/// Shown by: rows Rows of cany_check.
pub fn sign_fates_are_promised()
    ensures apart { (scenario : ScenarioParts) (journal : List Step) → IsLegalScenario scenario → IsWhole scenario journal → let s = run scenario journal in
        (sign : FailureSign) → (sign_fate (account_of scenario s) (sign_record s sign) ≡ Apart) ↔ (IsSignAgreedOn scenario s sign → ⊥) }
    ensures unlisted { (scenario : ScenarioParts) (journal : List Step) → IsLegalScenario scenario → IsWhole scenario journal → let s = run scenario journal in
        (sign : FailureSign) → (Contains (signs_told (logs_of scenario s)) sign → ⊥) → IsSignAgreedOn scenario s sign }
{}

/// Where correct nodes follow the one order of TOTCAN, no two of them part in the account of the
/// run.
///
/// The converse is false. The order has what was carried Clean. Outside the fault hypothesis nodes
/// may deliver something else, and not differ from one another.
///
/// Promise: in a run of a legal scenario in which the correct nodes follow the one order, no two of
/// them part.
pub fn one_order_has_no_parting()
    ensures { (scenario : ScenarioParts) (journal : List Step) → IsLegalScenario scenario → let s = run scenario journal in
        HasOneOrder scenario s → parting (account_of scenario s) ≡ None }
{}

/// The witness of an account against one order is found exactly where two correct nodes part.
///
/// Promise: of every account: there is a witness exactly where two correct nodes part.
///
/// Shown by: rows Rows of cany_check.
pub fn a_parting_is_found()
    ensures { (a : AccountParts) → (parting a ≡ None) ↔ NobodyParts a }
{}

/// No number is apart in the account of a run exactly where correct nodes hold one view of each
/// number.
///
/// Promise: in every run no number is apart exactly where correct nodes have one view of each
/// number.
///
/// Shown by: rows Rows of cany_check.
pub fn views_are_promised()
    ensures { (scenario : ScenarioParts) (journal : List Step) → let s = run scenario journal in
        (view_partings (account_of scenario s) ≡ []) ↔ HasOneView scenario s }
{}

/// Of a run within the fault hypothesis no part of the promise is judged broken, but for accuracy.
///
/// Promise: in a whole run within the hypothesis of a legal scenario no part but accuracy is judged
/// `Broken`.
pub fn within_only_accuracy_breaks()
    ensures { (scenario : ScenarioParts) (journal : List Step) → IsLegalScenario scenario → IsWhole scenario journal → let s = run scenario journal in
        IsWithin scenario.params s.trace → (part : Part) → judgement (account_of scenario s) part ≡ Broken → part ≡ Accuracy }
{}

/// Nobody is accused in the account of a run exactly where no log of a correct node has a failure
/// entry of a correct node that takes part since slot 0.
///
/// Promise: in every run nobody is accused exactly where no correct node's log has a failure of a
/// correct node that takes part since slot 0.
///
/// Shown by: rows Rows of cany_check.
pub fn accuracy_is_promised()
    ensures { (scenario : ScenarioParts) (journal : List Step) → let s = run scenario journal in
        (accusations (account_of scenario s) ≡ []) ↔ ((r : ℕ) → IsCorrectFrom scenario s 0 r → (i : ℕ) → IsCorrect scenario s i
        → (slot cycle : ℕ) → Contains (log scenario s i) (Failed slot r cycle) → ⊥) }
{}

/// In a run within the fault hypothesis of a scenario without restart entries no log of a running
/// node has a failure entry of a node that runs.
///
/// This says more than that no node that runs counts as failed at the end: an entry stays where a
/// node was admitted again.
///
/// Promise: in a run within the hypothesis of a legal scenario without restart entries, no log of a
/// running node has a failure of a node that runs.
pub fn nobody_is_accused()
    ensures { (scenario : ScenarioParts) (journal : List Step) → IsLegalScenario scenario → scenario.restarts ≡ [] → let s = run scenario journal in
        IsWithin scenario.params s.trace → (r : ℕ) → IsCorrect scenario s r → (i : ℕ) → IsCorrect scenario s i
        → (slot cycle : ℕ) → Contains (log scenario s i) (Failed slot r cycle) → ⊥ }
{}

/// So of such a run, if it is whole, nothing is judged broken.
///
/// Promise: in a whole run within the hypothesis of a legal scenario without restart entries, no
/// part is judged `Broken`.
pub fn within_nothing_breaks()
    ensures { (scenario : ScenarioParts) (journal : List Step) → IsLegalScenario scenario → IsWhole scenario journal → scenario.restarts ≡ []
        → let s = run scenario journal in IsWithin scenario.params s.trace → (part : Part) → judgement (account_of scenario s) part ≡ Broken → ⊥ }
{}

/// The status of the verdict on a run is 9 exactly where the promise is not kept.
///
/// Promise: in a whole run of a legal scenario the status is 9 exactly where the promise is not
/// kept (`KeepsPromise`).
///
/// Shown by: rows Rows of cany_check.
pub fn nine_is_not_kept()
    ensures { (scenario : ScenarioParts) (journal : List Step) → IsLegalScenario scenario → IsWhole scenario journal → let s = run scenario journal in
        (status (account_of scenario s) ≡ 9) ↔ (KeepsPromise scenario s → ⊥) }
{}

/// It is 10 exactly where the promise is kept, and more may come of a message or of a sign.
///
/// Promise: in a whole run of a legal scenario the status is 10 exactly where the promise is kept
/// and a message or a sign is open (`IsOpen`).
///
/// Shown by: rows Rows of cany_check.
pub fn ten_is_open()
    ensures { (scenario : ScenarioParts) (journal : List Step) → IsLegalScenario scenario → IsWhole scenario journal → let s = run scenario journal in
        (status (account_of scenario s) ≡ 10) ↔ (KeepsPromise scenario s × IsOpen scenario s) }
{}
