//! Laws of all incarnations of all nodes, present or ended, running or stopped.
ghost use Rattle.std.specs.Prelude.{◌≡◌, ◌≤◌, ℕ, List, Contains};
ghost use Rattle.cany_base.specs.Limits.{most_nodes};
ghost use Rattle.cany_base.specs.declared.message.MsgKey.{MsgKey};
ghost use Rattle.cany_base.specs.declared.message.Service.TheVariants.{Tot};
ghost use Rattle.cany_base.specs.declared.step.Step.{Step};
ghost use Rattle.cany_base.specs.Scenario.{IsLegalScenario, ScenarioParts};
ghost use Rattle.cany_model.specs.Promises.Acceptance.{WasCarriedClean};
ghost use Rattle.cany_model.specs.Promises.Hypothesis.{IsWithin};
ghost use Rattle.cany_model.specs.Rules.Messages.{Message, message_key, messages_of};
ghost use Rattle.cany_model.specs.Runs.Run.{run};
ghost use Rattle.cany_laws.specs.Acceptance.{IsAcceptedByEachOrNone, IsDeliveredByEachOrNone, IsDeliveredInTime};
ghost use Rattle.cany_laws.specs.Logs.{EachLogIsIntegral};
ghost use Rattle.cany_laws.specs.Membership.{HasOneMembership};
ghost use Rattle.cany_laws.specs.Sequence.{HasOneSequence};
ghost use Rattle.cany_laws.specs.Views.{EachHasOneView, EachInstallsOneVector};

/// Integrity of every incarnation, ended or present, running or stopped. It holds of every journal,
/// legal or not, at any lag and under any fault script.
///
/// That a message is delivered once is said of one incarnation: two incarnations of a node may both
/// deliver it.
///
/// Promise: let the scenario have at most 64 nodes. The log of an incarnation has no message twice,
/// and each message in it is one of the scenario, with its service and payload, which its origin
/// had sent by then. Each failure in it is of a node of the bus, in a cycle begun by then, and each
/// view has the number of the cycle of its slot (`EachLogIsIntegral`).
///
/// Shown by: rows RestartRows of cany_law_rows.
pub fn integrity()
    ensures { (scenario : ScenarioParts) (journal : List Step) → scenario.params.nodes ≤ most_nodes
        → EachLogIsIntegral scenario (run scenario journal) }
{}

/// One vector for all incarnations, ended or present, running or stopped.
///
/// Promise: take a run within the hypothesis of a legal scenario. The incarnations that take part
/// since a cycle starts and have read its end install one vector there, or none has one. One that
/// takes part only since later has none (`EachInstallsOneVector`).
pub fn vector_agreement()
    ensures { (scenario : ScenarioParts) (journal : List Step) → IsLegalScenario scenario
        → IsWithin scenario.params (run scenario journal).trace
        → (k : ℕ) → EachInstallsOneVector scenario (run scenario journal) k }
{}

/// One view for all incarnations. So a view in the log of a node that stopped is the one that the
/// others hold.
///
/// Promise: in a run within the hypothesis of a legal scenario any two logs, of whatever
/// incarnations, that have a view of one number have equal members in it (`EachHasOneView`).
pub fn view_agreement()
    ensures { (scenario : ScenarioParts) (journal : List Step) → IsLegalScenario scenario
        → IsWithin scenario.params (run scenario journal).trace → EachHasOneView scenario (run scenario journal) }
{}

/// Acceptance by all incarnations or by none. It is said of those that lived to read the slot. A
/// node that stopped before may have accepted, and delivered, what nobody else does.
///
/// Promise: in a run within the hypothesis of a legal scenario, let the data frame of a TOTCAN
/// message be carried Clean in slot c. The incarnations that take part since c and have read slot
/// c + `bound` had accepted it by then, all or none (`IsAcceptedByEachOrNone`).
///
/// Shown by: `who_read_less_counts`; rows StopRows of cany_law_rows.
pub fn acceptance()
    ensures { (scenario : ScenarioParts) (journal : List Step) → IsLegalScenario scenario
        → IsWithin scenario.params (run scenario journal).trace → (key : MsgKey) (c : ℕ)
        → WasCarriedClean (run scenario journal).trace key c → IsAcceptedByEachOrNone scenario (run scenario journal) key c }
{}

/// One membership, slot by slot. A node that started again knows, from the end of its first cycle
/// with a vector on, what those others think of it that take part since that cycle started.
///
/// Promise: take two incarnations of a run within the hypothesis of a legal scenario, and a cycle
/// since whose start both take part, in which one of them installed a vector. From the end of this
/// cycle on they have equal views after each slot that both have read. Two of the opening have them
/// from slot 0 on (`HasOneMembership`).
///
/// Shown by: `equal_from_the_start_of_the_cycle`; rows RestartRows of cany_law_rows.
pub fn one_membership()
    ensures { (scenario : ScenarioParts) (journal : List Step) → IsLegalScenario scenario
        → IsWithin scenario.params (run scenario journal).trace → HasOneMembership scenario (run scenario journal) }
{}

/// One sequence for all logs, so that no two logs contradict each other in the order of two
/// messages. It is that of the slots in which the data frames were carried Clean.
///
/// A node that stopped may have delivered a message of the sequence that nobody else delivers, and
/// after it one that all deliver. The law does not say which messages of the sequence a log lacks
/// between two that it has.
///
/// Promise: in a run within the hypothesis of a legal scenario no TOTCAN message stands twice in
/// this sequence. What any incarnation has delivered by TOTCAN is part of it, from the first slot
/// on in which the incarnation takes part (`HasOneSequence`).
///
/// Shown by: rows SequenceRows of cany_law_rows.
pub fn one_sequence()
    ensures { (scenario : ScenarioParts) (journal : List Step) → IsLegalScenario scenario
        → IsWithin scenario.params (run scenario journal).trace → HasOneSequence scenario (run scenario journal) }
{}

/// Delivery in time of a TOTCAN message, at most `bound` slots after its data frame was carried.
///
/// Promise: in a run within the hypothesis of a legal scenario, let the data frame of a TOTCAN
/// message be carried Clean in slot c. An incarnation that takes part since c, has read slot
/// c + `bound` and had accepted by then has delivered it from c to c + `bound`. So has each correct
/// node that takes part since c and has read that slot, if any running node has accepted
/// (`IsDeliveredInTime`).
///
/// Shown by: `delivered_after_its_slot`; rows StopRows of cany_law_rows.
pub fn delivery_in_time()
    ensures { (scenario : ScenarioParts) (journal : List Step) → IsLegalScenario scenario
        → IsWithin scenario.params (run scenario journal).trace
        → (m : Message) → Contains (messages_of scenario.sends) m → m.service ≡ Tot → (c : ℕ)
        → WasCarriedClean (run scenario journal).trace (message_key m) c → IsDeliveredInTime scenario (run scenario journal) m c }
{}

/// Delivery by all or none. What a node has delivered that stopped after it read slot c + `bound`,
/// each has delivered that read this slot too.
///
/// Promise: in a run within the hypothesis of a legal scenario, let the data frame of a TOTCAN
/// message be carried Clean in slot c. Take the incarnations that take part since c and have read
/// slot c + `bound`. If the log of one has the message, each has delivered it from c to c + `bound`
/// (`IsDeliveredByEachOrNone`).
///
/// Shown by: rows StopRows of cany_law_rows.
pub fn delivery_agreement()
    ensures { (scenario : ScenarioParts) (journal : List Step) → IsLegalScenario scenario
        → IsWithin scenario.params (run scenario journal).trace
        → (m : Message) → Contains (messages_of scenario.sends) m → m.service ≡ Tot → (c : ℕ)
        → WasCarriedClean (run scenario journal).trace (message_key m) c
        → IsDeliveredByEachOrNone scenario (run scenario journal) m c }
{}
