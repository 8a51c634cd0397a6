//! How often the bus carries the data frame of a message, the frames that accept and confirm one,
//! that of a failure sign, and those that ask to join and to leave.
ghost use Rattle.std.specs.Prelude.{◌≡◌, ◌≤◌, ℕ, List, Contains};
ghost use Rattle.cany_base.specs.Limits.{most_nodes};
ghost use Rattle.cany_base.specs.declared.message.MsgKey.{MsgKey};
ghost use Rattle.cany_base.specs.declared.message.Service.TheVariants.{Ed, Rel};
ghost use Rattle.cany_base.specs.declared.step.Step.{Step};
ghost use Rattle.cany_base.specs.Scenario.{ScenarioParts};
ghost use Rattle.cany_model.specs.Rules.Knowledge.{FailureSign};
ghost use Rattle.cany_model.specs.Rules.Messages.{Message, confirm_of_key, data_id, messages_of};
ghost use Rattle.cany_model.specs.Runs.Run.{run};
ghost use Rattle.cany_laws.specs.Carried.{CarriesFewOf, CarriesFewOfSign, HasNoSilentSlot, incarnations_of_first, times_clean};
ghost use Rattle.cany_laws.specs.Requests.{CarriesFewRequests};

/// How often the frames of a TOTCAN message are carried. Nodes that wait with one frame send it in
/// one slot. It counts Clean slots alone: with errors or omissions the bus carries a frame more
/// often.
///
/// It holds of every journal, with restarts too, whatever the other omissions and the errors, and
/// asks for no formula of the parameters.
///
/// Promise: let a run of at most 64 nodes have no Silent slot that carried a frame. The data frame
/// of a TOTCAN message is carried Clean at most once. The frame that accepts it is carried so at
/// most as often as there are nodes, and at most `lag` + 2 times; where `omit` is 0, at most once
/// (`CarriesFewOf`).
///
/// Shown by: `lag_and_one_frames_accept_a_message`; rows CarriedRows of cany_law_rows.
pub fn few_frames_of_a_message()
    ensures { (scenario : ScenarioParts) (journal : List Step) → scenario.params.nodes ≤ most_nodes
        → HasNoSilentSlot (run scenario journal).trace → (key : MsgKey) → CarriesFewOf scenario (run scenario journal) key }
{}

/// How often the frame of a failure sign is carried. A sign is of one node and of the cycle in
/// which it was found to have failed. Nodes that find one failure in two cycles tell of two signs.
///
/// Promise: let a run of at most 64 nodes have no Silent slot that carried a frame. The frame of a
/// failure sign is carried Clean at most as often as the nodes have had incarnations. Without
/// restart entries that is at most once for each node, and it is at most `lag` + 2 times
/// (`CarriesFewOfSign`).
///
/// Shown by: rows CarriedRows of cany_law_rows.
pub fn few_frames_of_a_sign()
    ensures { (scenario : ScenarioParts) (journal : List Step) → scenario.params.nodes ≤ most_nodes
        → HasNoSilentSlot (run scenario journal).trace → (sign : FailureSign) → CarriesFewOfSign scenario (run scenario journal) sign }
{}

/// How often a message of EDCAN or RELCAN is carried. It holds of every journal, at any lag and
/// under any faults, within the hypothesis or not. Of a message of TOTCAN `few_frames_of_a_message`
/// says it.
///
/// Promise: in a run of at most 64 nodes the data frame of a message of EDCAN or RELCAN is carried
/// Clean at most once for each incarnation of the nodes, ended or present.
///
/// Shown by: rows WaitRows of cany_law_rows.
pub fn few_data_frames()
    ensures edcan { (scenario : ScenarioParts) (journal : List Step) → scenario.params.nodes ≤ most_nodes
        → (m : Message) → Contains (messages_of scenario.sends) m → m.service ≡ Ed
        → times_clean (data_id m) (run scenario journal).trace ≤ incarnations_of_first (run scenario journal) scenario.params.nodes }
    ensures relcan { (scenario : ScenarioParts) (journal : List Step) → scenario.params.nodes ≤ most_nodes
        → (m : Message) → Contains (messages_of scenario.sends) m → m.service ≡ Rel
        → times_clean (data_id m) (run scenario journal).trace ≤ incarnations_of_first (run scenario journal) scenario.params.nodes }
{}

/// A message is confirmed once. The origin alone sends the frame, for its own transmission of the
/// data frame, whatever incarnations it has.
///
/// It holds of every journal, at any lag and under any faults, within the hypothesis or not.
/// `few_data_frames` says how often the data frame is carried.
///
/// Promise: in a run of at most 64 nodes the frame that confirms a RELCAN message is carried Clean
/// at most once.
///
/// Shown by: rows RequestRows of cany_law_rows.
pub fn confirmed_once()
    ensures { (scenario : ScenarioParts) (journal : List Step) → scenario.params.nodes ≤ most_nodes
        → (key : MsgKey) → times_clean (confirm_of_key key) (run scenario journal).trace ≤ 1 }
{}

/// How often the frames that ask to join and to leave are carried. No other node sends these
/// frames, and a node that starts again asks anew by a further entry alone.
///
/// One frame stands for the asks of one node in one cycle: entries that are made while the frame
/// still waits make one frame. It holds of every journal, at any lag and under any faults, within
/// the hypothesis or not.
///
/// Promise: in a run of at most 64 nodes a node's frame that asks in a cycle to join is carried
/// Clean at most once for each of its join entries in the cycle. So is its frame that asks to
/// leave, for its leave entries (`CarriesFewRequests`).
///
/// Shown by: rows RequestRows of cany_law_rows.
pub fn few_requests()
    ensures { (scenario : ScenarioParts) (journal : List Step) → scenario.params.nodes ≤ most_nodes
        → (node cycle : ℕ) → CarriesFewRequests scenario (run scenario journal) node cycle }
{}
