//! What holds of every run: each law is the contract of a function that does nothing.
ghost use Rattle.std.specs.Prelude.{◌≡◌, ◌<◌, ◌≤◌, ◌+◌, ◌↔◌, ℕ, true, List, ◌∷◌, Some, None, Contains, count_by, []};
ghost use Rattle.cany_base.specs.Limits.{most_nodes};
ghost use Rattle.cany_base.specs.declared.class.Class.TheVariants as class;
ghost use Rattle.cany_base.specs.declared.message.Service.TheVariants as service;
ghost use Rattle.cany_base.specs.declared.slot_note.SlotNote.{SlotNote};
ghost use Rattle.cany_base.specs.declared.step.Step.{Step};
ghost use Rattle.cany_base.specs.Params.{MeetsFormulas, Parameters};
ghost use Rattle.cany_base.specs.Scenario.{IsLegalScenario, ScenarioParts};
ghost use Rattle.cany_model.specs.Runs.Follow.{journal_fault};
ghost use Rattle.cany_model.specs.Bus.Frames.{same_class};
ghost use Rattle.cany_model.specs.Promises.Detector.{AsksNoLeave, HasNotFailed, IsAdmitted, IsRemoved, JoinWasCarried, StandsAfter, StaysInViews};
ghost use Rattle.cany_model.specs.Promises.Hypothesis.{IsWithin, first_break};
ghost use Rattle.cany_model.specs.Promises.Settled.{IsCorrect};
ghost use Rattle.cany_model.specs.Rules.Messages.{Message, messages_of};
ghost use Rattle.cany_model.specs.Runs.RoundRobin.{round_robin};
ghost use Rattle.cany_model.specs.Runs.Run.{IsLegal, IsWhole, run};
ghost use Rattle.cany_model.specs.Bus.State.{node_at, runs};
ghost use Rattle.cany_model.specs.Promises.Safe.{IsAgreedOn, IsIntegral, IsSafe, IsSignAgreedOn};
ghost use Rattle.cany_model.specs.Rules.Knowledge.{FailureSign};
ghost use Rattle.cany_model.specs.declared.breaks.Break.{Break};
ghost use Rattle.cany_base.specs.declared.message.MsgKey.{MsgKey};
ghost use Rattle.cany_base.specs.Nodes.{AllBelow};
ghost use Rattle.cany_model.specs.Promises.Acceptance.{IsAcceptedByAllOrNone, WasCarriedClean};
ghost use Rattle.cany_model.specs.Promises.OneView.{HasOneView, InstallsOneVector};
ghost use Rattle.cany_model.specs.Promises.Order.{HasOneOrder};
ghost use Rattle.cany_model.specs.Promises.Quiet.{HasFewAskingSlots, HasQuietSlots};
ghost use Rattle.cany_model.specs.Promises.Windows.{HasFewAccepts, HasFewLifeSigns, HasFewTotFrames, HasFewVectors};

/// Integrity: no message twice or unsent. It holds of every journal, legal or not, at any lag and
/// under any fault script.
///
/// Promise: let the scenario have at most 64 nodes. The log of a running node has no message twice,
/// and each message in it is one of the scenario, with its service and payload, which its origin
/// had sent by then. Each failure in it is of a node of the bus, in a cycle begun by then, and each
/// view has the number of the cycle of its slot (`IsIntegral`).
pub fn integrity()
    ensures { (scenario : ScenarioParts) (journal : List Step) → scenario.params.nodes ≤ most_nodes → IsIntegral scenario (run scenario journal) }
{}

/// Agreement of EDCAN: a settled message at all correct nodes or at none. It holds for every
/// journal, legal or not, in whatever order the nodes take their turns, and at every lag.
///
/// It uses no timing. Of the scenario it asks only that its nodes have places in a set of nodes:
/// one past the greatest number never accepts a frame, so the law is false with more of them.
///
/// Promise: take a settled EDCAN message of a run within the hypothesis, with at most 64 nodes. If
/// a correct node that takes part since its data frame was first carried is its origin or delivered
/// it, each such node delivered it. Where the frame was never carried, no correct node delivered it
/// (`IsAgreedOn`).
pub fn edcan_agreement()
    ensures { (scenario : ScenarioParts) (journal : List Step) → scenario.params.nodes ≤ most_nodes
        → IsWithin scenario.params (run scenario journal).trace
        → (m : Message) → Contains (messages_of scenario.sends) m → m.service ≡ service.Ed
        → IsAgreedOn scenario (run scenario journal) m }
{}

/// Agreement of RELCAN: a settled message at all correct nodes or at none. It holds for every
/// journal, at every lag, and for every length of the timer.
///
/// The argument is that of EDCAN: a node that got the message read its confirmation, so that its
/// origin had seen success, or fell back to sending it. A message is not settled while a running
/// node has something of it ahead.
///
/// Promise: take a settled RELCAN message of a run within the hypothesis, with at most 64 nodes. If
/// a correct node that takes part since its data frame was first carried is its origin or delivered
/// it, each such node delivered it. Where the frame was never carried, no correct node delivered it
/// (`IsAgreedOn`).
///
/// Shown by: rows RelcanRows, VerdictRows of cany_rows.
pub fn relcan_agreement()
    ensures { (scenario : ScenarioParts) (journal : List Step) → scenario.params.nodes ≤ most_nodes
        → IsWithin scenario.params (run scenario journal).trace
        → (m : Message) → Contains (messages_of scenario.sends) m → m.service ≡ service.Rel
        → IsAgreedOn scenario (run scenario journal) m }
{}

/// Agreement of failure signs: a sign at all correct nodes or at none. It holds for every journal,
/// at every lag, and for every length of the intervals.
///
/// The argument is that of EDCAN: a node that knows a sign, by a copy or by silence, has asked for
/// its frame. It uses no timing, so it does not say that a failed node is found.
///
/// Promise: take a run within the hypothesis, with at most 64 nodes, where nobody waits with the
/// frame of a sign and all is read. Of the correct nodes that take part since the frame was first
/// carried, all have the sign in their logs, or none. Where it was never carried, no correct node
/// has it (`IsSignAgreedOn`).
///
/// Shown by: `signs_agree_while_a_frame_waits`; rows PromiseRows of cany_rows.
pub fn failure_sign_agreement()
    ensures { (scenario : ScenarioParts) (journal : List Step) → scenario.params.nodes ≤ most_nodes
        → IsWithin scenario.params (run scenario journal).trace
        → (sign : FailureSign) → IsSignAgreedOn scenario (run scenario journal) sign }
{}

/// The first break names the slot at which a run leaves the hypothesis. So it is enough to look, at
/// each slot, at the newest frame and at the window that ends there.
///
/// Promise: a trace has no first break exactly where it is within the fault hypothesis. A break
/// stays the first as slots are added, and a new one has the number of the newest slot.
///
/// Shown by: `one_omission_more_is_within`; rows HypothesisRows of cany_rows.
pub fn first_break_is_exact()
    ensures exact { (p : Parameters) (trace : List SlotNote) → (first_break p trace ≡ None) ↔ IsWithin p trace }
    ensures stays { (p : Parameters) (note : SlotNote) (before : List SlotNote) (b : Break) → first_break p before ≡ Some b
        → first_break p (note ∷ before) ≡ Some b }
    ensures named { (p : Parameters) (note : SlotNote) (before : List SlotNote) (b : Break) → first_break p before ≡ None
        → first_break p (note ∷ before) ≡ Some b → b.slot ≡ note.slot }
{}

/// How far a node lags. A slot runs only where no running node has more unread notices than `lag`,
/// and gives each one more. It holds of every journal, legal or not, and asks for nothing of the
/// scenario.
///
/// Promise: in every run a running node has at most `lag` + 1 unread notices.
pub fn unread_notices()
    ensures { (scenario : ScenarioParts) (journal : List Step) (i : ℕ) → runs (node_at (run scenario journal).nodes i) ≡ true
        → (node_at (run scenario journal).nodes i).unread ≤ scenario.params.lag + 1 }
{}

/// How many life signs wait. Two asks of a node lie more than a life interval apart, so when it
/// asks, it has read each sign that was sent before its last ask.
///
/// It holds of every journal, legal or not, and under any fault script: also where no sign comes
/// through, since the node then asks for the same one again.
///
/// Promise: where `lag` is less than `life`, at most two life signs wait at a running node in every
/// run.
pub fn few_life_signs()
    ensures { (scenario : ScenarioParts) (journal : List Step) → scenario.params.lag < scenario.params.life → (i : ℕ)
        → runs (node_at (run scenario journal).nodes i) ≡ true
        → count_by (λ f. same_class f.class class.Els) (node_at (run scenario journal).nodes i).waiting ≤ 2 }
{}

/// Few frames that accept. It holds of every journal, legal or not, and asks for no formula of the
/// parameters.
///
/// Promise: in every run within the hypothesis of N nodes, at most 64, any window of
/// `bound` + `lag` consecutive slots has at most 2N² Clean frames that accept (`HasFewAccepts`).
///
/// Shown by: rows QuietRows of cany_rows.
pub fn few_accept_frames()
    ensures { (scenario : ScenarioParts) (journal : List Step) → scenario.params.nodes ≤ most_nodes
        → IsWithin scenario.params (run scenario journal).trace → HasFewAccepts scenario.params (run scenario journal).trace }
{}

/// Few data frames of TOTCAN: one of each origin.
///
/// Promise: in every run within the hypothesis of N nodes, at most 64, any window of
/// `bound` + `lag` consecutive slots has at most N Clean data frames of TOTCAN (`HasFewTotFrames`).
///
/// Shown by: rows QuietRows of cany_rows.
pub fn few_tot_frames()
    ensures { (scenario : ScenarioParts) (journal : List Step) → scenario.params.nodes ≤ most_nodes
        → IsWithin scenario.params (run scenario journal).trace → HasFewTotFrames scenario.params (run scenario journal).trace }
{}

/// Few vectors: of each node one more than there are nodes. It needs nothing of the fault
/// hypothesis.
///
/// Promise: let the parameters meet the formulas, and the members be nodes of the scenario, of
/// which there are N, at most 64. In every run any window of `bound` + `lag` consecutive slots has
/// at most N² + N Clean vectors (`HasFewVectors`).
///
/// Shown by: rows QuietRows of cany_rows.
pub fn few_vector_frames()
    ensures { (scenario : ScenarioParts) (journal : List Step) → scenario.params.nodes ≤ most_nodes → MeetsFormulas scenario.params
        → AllBelow scenario.params.nodes scenario.members → HasFewVectors scenario.params (run scenario journal).trace }
{}

/// Few life signs are carried: one of each node. It rests on the counts of accepting frames and of
/// vectors: since those are few, a life sign that waits behind them is asked for again only after
/// it was carried.
///
/// Promise: let the parameters meet the formulas, and the members be nodes of the scenario, of
/// which there are N, at most 64. In every run within the hypothesis any window of `bound` + `lag`
/// consecutive slots has at most N Clean life signs (`HasFewLifeSigns`).
///
/// Shown by: rows QuietRows of cany_rows.
pub fn few_life_sign_frames()
    ensures { (scenario : ScenarioParts) (journal : List Step) → scenario.params.nodes ≤ most_nodes → MeetsFormulas scenario.params
        → AllBelow scenario.params.nodes scenario.members → IsWithin scenario.params (run scenario journal).trace
        → HasFewLifeSigns scenario.params (run scenario journal).trace }
{}

/// Few slots make a node ask for a frame that accepts or for a vector. Each node counts, running or
/// stopped, with each of its incarnations.
///
/// Promise: let the parameters meet the formulas, and the members be nodes of the scenario, of
/// which there are N, at most 64. In a run within the hypothesis at most 3N² + 3N + `errors` + 1
/// slots of a window of `bound` + `lag` leave a notice that makes a node ask so
/// (`HasFewAskingSlots`).
///
/// Shown by: rows QuietRows of cany_rows.
pub fn few_asking_slots()
    ensures { (scenario : ScenarioParts) (journal : List Step) → scenario.params.nodes ≤ most_nodes → MeetsFormulas scenario.params
        → AllBelow scenario.params.nodes scenario.members → IsWithin scenario.params (run scenario journal).trace
        → HasFewAskingSlots scenario (run scenario journal) }
{}

/// The quiet slot. What is to be agreed on by frames that accept, or by vectors, was sent before
/// it. The formula for `bound` is made for this law.
///
/// Promise: let the parameters meet the formulas, and the members be nodes of the scenario, of
/// which there are at most 64. Of any `bound` consecutive slots that ran in a run within the
/// hypothesis, one was run in a quiet state (`HasQuietSlots`).
///
/// Shown by: rows QuietRows of cany_rows.
pub fn quiet_slots()
    ensures { (scenario : ScenarioParts) (journal : List Step) → scenario.params.nodes ≤ most_nodes → MeetsFormulas scenario.params
        → AllBelow scenario.params.nodes scenario.members → IsWithin scenario.params (run scenario journal).trace
        → HasQuietSlots scenario journal }
{}

/// A TOTCAN message is accepted in time by all or by none.
///
/// Promise: let a scenario of at most 64 nodes, with members among them, meet the formulas, and a
/// run within the hypothesis carry the data frame of a TOTCAN message Clean in slot c. The correct
/// nodes that take part since c and have read slot c + `bound` accepted it by then, all or none. If
/// any running node has accepted it, they all did (`IsAcceptedByAllOrNone`).
///
/// Shown by: rows OrderRows of cany_rows.
pub fn acceptance()
    ensures { (scenario : ScenarioParts) (journal : List Step) → scenario.params.nodes ≤ most_nodes → MeetsFormulas scenario.params
        → AllBelow scenario.params.nodes scenario.members → IsWithin scenario.params (run scenario journal).trace
        → (key : MsgKey) (c : ℕ) → WasCarriedClean (run scenario journal).trace key c
        → IsAcceptedByAllOrNone scenario (run scenario journal) key c }
{}

/// Total order of TOTCAN: the accepted messages in the order of the slots in which their data
/// frames were carried Clean.
///
/// Promise: let a scenario of at most 64 nodes, with members among them, meet the formulas. In a
/// run within the hypothesis each correct node has delivered a prefix of this order, from the first
/// slot in which it takes part, and each settled message of it (`HasOneOrder`).
///
/// Shown by: rows OrderRows, PromiseRows of cany_rows.
pub fn total_order()
    ensures { (scenario : ScenarioParts) (journal : List Step) → scenario.params.nodes ≤ most_nodes → MeetsFormulas scenario.params
        → AllBelow scenario.params.nodes scenario.members → IsWithin scenario.params (run scenario journal).trace
        → HasOneOrder scenario (run scenario journal) }
{}

/// Agreement of TOTCAN: a settled message at all correct nodes or at none.
///
/// Promise: let a scenario of at most 64 nodes, with members among them, meet the formulas, and
/// take a settled TOTCAN message of a run within the hypothesis. If a correct node that takes part
/// since its data frame was first carried is its origin or delivered it, each such node delivered
/// it. Where the frame was never carried, no correct node delivered it (`IsAgreedOn`).
pub fn totcan_agreement()
    ensures { (scenario : ScenarioParts) (journal : List Step) → scenario.params.nodes ≤ most_nodes → MeetsFormulas scenario.params
        → AllBelow scenario.params.nodes scenario.members → IsWithin scenario.params (run scenario journal).trace
        → (m : Message) → Contains (messages_of scenario.sends) m → m.service ≡ service.Tot
        → IsAgreedOn scenario (run scenario journal) m }
{}

/// One vector in each membership cycle.
///
/// Promise: take a run within the hypothesis of a legal scenario. The correct nodes that take part
/// since a cycle starts and have read its end install one vector there, or none has one. A correct
/// node that takes part only since later has none (`InstallsOneVector`).
pub fn vector_agreement()
    ensures { (scenario : ScenarioParts) (journal : List Step) → IsLegalScenario scenario
        → IsWithin scenario.params (run scenario journal).trace → (k : ℕ) → InstallsOneVector scenario (run scenario journal) k }
{}

/// One view of each number.
///
/// Promise: in a run within the hypothesis of a legal scenario, correct nodes whose logs have a
/// view of one number have equal members in it (`HasOneView`).
///
/// Shown by: rows PromiseRows of cany_rows.
pub fn view_agreement()
    ensures { (scenario : ScenarioParts) (journal : List Step) → IsLegalScenario scenario
        → IsWithin scenario.params (run scenario journal).trace → HasOneView scenario (run scenario journal) }
{}

/// The whole promise. It holds of every journal, in whatever order the nodes take their turns and
/// however far they lag, with restarts too.
///
/// Promise: every run within the hypothesis of a legal scenario is safe (`IsSafe`): integrity,
/// agreement, one order, one view, and agreement on failure signs.
///
/// Shown by: rows PromiseRows of cany_rows.
pub fn safety()
    ensures { (scenario : ScenarioParts) (journal : List Step) → IsLegalScenario scenario
        → IsWithin scenario.params (run scenario journal).trace → IsSafe scenario (run scenario journal) }
{}

/// Accuracy of the failure detector. It rests on no view: a node that asked for a leave, or that is
/// no member, is not taken for failed either.
///
/// Promise: in a run within the hypothesis of a legal scenario without restart entries a running
/// node has failed at no correct node (`HasNotFailed`).
///
/// Shown by: rows DetectorRows of cany_rows.
pub fn detector_accuracy()
    ensures { (scenario : ScenarioParts) (journal : List Step) → IsLegalScenario scenario → scenario.restarts ≡ []
        → IsWithin scenario.params (run scenario journal).trace → (r : ℕ) → IsCorrect scenario (run scenario journal) r
        → HasNotFailed scenario (run scenario journal) r }
{}

/// A member that runs stays a member.
///
/// Promise: take a run within the hypothesis of a legal scenario without restart entries. Let a
/// running node have asked for no leave. Let each correct node, after its own turn of a slot, have
/// it in its view. It stands in each of their logged views of a cycle that ends later
/// (`StaysInViews`).
///
/// Shown by: rows DetectorRows of cany_rows.
pub fn members_stay()
    ensures { (scenario : ScenarioParts) (journal : List Step) → IsLegalScenario scenario → scenario.restarts ≡ []
        → IsWithin scenario.params (run scenario journal).trace → (r t : ℕ) → IsCorrect scenario (run scenario journal) r
        → AsksNoLeave scenario (run scenario journal) r → StandsAfter scenario (run scenario journal) r t → StaysInViews scenario (run scenario journal) r t }
{}

/// A member that stopped is removed.
///
/// Promise: take a run within the hypothesis of a legal scenario without restart entries. Let a
/// node have stopped in a slot after which each correct node has it in its view. It is in no logged
/// view of a correct node of a cycle that starts more than `silence` slots later (`IsRemoved`).
///
/// Shown by: rows DetectorRows of cany_rows.
pub fn removal()
    ensures { (scenario : ScenarioParts) (journal : List Step) → IsLegalScenario scenario → scenario.restarts ≡ []
        → IsWithin scenario.params (run scenario journal).trace → (r t : ℕ) → r < scenario.params.nodes
        → (node_at (run scenario journal).nodes r).stopped ≡ Some t → StandsAfter scenario (run scenario journal) r t
        → IsRemoved scenario (run scenario journal) r t }
{}

/// A node whose ask to join gets through is admitted.
///
/// Promise: take a run within the hypothesis of a legal scenario without restart entries. Let a
/// JOIN be carried Clean after the start of one cycle and by that of the next, its asker in no
/// correct node's view (`JoinWasCarried`). A correct node that installs a vector in the next has
/// the asker in it or, unless this is cycle 1, in the one that it installed in the cycle before
/// (`IsAdmitted`).
///
/// Shown by: rows DetectorAdmissionRows of cany_rows.
pub fn admission()
    ensures { (scenario : ScenarioParts) (journal : List Step) → IsLegalScenario scenario → scenario.restarts ≡ []
        → IsWithin scenario.params (run scenario journal).trace → (r k : ℕ) → r < scenario.params.nodes
        → JoinWasCarried scenario (run scenario journal) r k → IsAdmitted scenario (run scenario journal) r k }
{}

/// The round robin journal can always be made to its end. It needs nothing of the scenario: it
/// holds at every lag, under every fault script and for every number of nodes.
///
/// Promise: in every scenario each step of its round robin journal is done, and at the end all
/// slots ran and every running node has read every notice.
pub fn round_robin_is_whole()
    ensures { (scenario : ScenarioParts) → IsLegal scenario (round_robin scenario) × IsWhole scenario (round_robin scenario) }
{}

/// A program that follows a journal and finds no fault has made a run that is legal and whole. One
/// that finds a fault refuses a journal that is not.
///
/// Promise: of every scenario and journal, the journal has no fault exactly where it is legal and
/// whole: each step is done, all slots ran, and every running node has read every notice.
///
/// Shown by: rows FollowRows of cany_rows.
pub fn followed_journals()
    ensures { (scenario : ScenarioParts) (journal : List Step) → (journal_fault scenario journal ≡ None) ↔ (IsLegal scenario journal × IsWhole scenario journal) }
{}
