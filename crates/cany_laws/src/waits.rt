//! Laws of waiting: by when a frame that waits is carried, and by when a message is delivered.
ghost use Rattle.std.specs.Prelude.{◌≡◌, ◌+◌, ◌*◌, ◌<◌, ◌≤◌, ℕ, true, List, Contains};
ghost use Rattle.cany_base.specs.Limits.{most_nodes};
ghost use Rattle.cany_base.specs.declared.step.Step.{Step};
ghost use Rattle.cany_base.specs.Scenario.{IsLegalScenario, ScenarioParts};
ghost use Rattle.cany_model.specs.Bus.Frames.{Identity};
ghost use Rattle.cany_model.specs.Bus.State.{reads, slots_run};
ghost use Rattle.cany_model.specs.Promises.Hypothesis.{IsWithin};
ghost use Rattle.cany_model.specs.Promises.Settled.{IsCorrect, IsCorrectFrom, origin_has_asked};
ghost use Rattle.cany_model.specs.Rules.Messages.{Message, data_id, messages_of};
ghost use Rattle.cany_model.specs.Rules.Sends.{is_sent_at_once};
ghost use Rattle.cany_model.specs.Runs.Run.{run};
ghost use Rattle.cany_laws.specs.Waits.{HasAskedBy, HasDeliveredBy, IsAwaitedThrough, IsAwaitedUntilCarried, WasCarriedIn, least_left, most_taken, interference, waits_since, window};

/// How long a frame waits. At most `most_taken` slots of a window of `bound` + `lag` slots are Lost
/// or Partial, or carry Clean an ACCEPT, RHA or ELS. With N nodes that is 3N² + 2N + `errors`.
///
/// It says something from n = w times `most_taken` + 1 slots on: below that the second number alone
/// is n or more. Where a window has just one slot more than `most_taken`, as with the least `bound`
/// and no lag, that is one whole window, two windows less a slot, three less two.
///
/// No slot is idle while a frame waits. The node that waits need not be the same in each slot.
///
/// Promise: in a run within the hypothesis of a legal scenario, let running nodes wait with a frame
/// of one identity in n consecutive slots that do not carry it Clean. Let some number of windows
/// have n slots or more. Then n is at most `most_taken` times this number, plus how many of these
/// slots carry Clean a frame that wins over it, of the classes FDA to ED.
///
/// Shown by: `errors_take_no_slot`; rows WaitRows of cany_law_rows.
pub fn few_slots_of_waiting()
    ensures { (scenario : ScenarioParts) (journal : List Step) → IsLegalScenario scenario
        → IsWithin scenario.params (run scenario journal).trace → (x : Identity) (first n windows : ℕ)
        → first + n ≤ slots_run (run scenario journal) → IsAwaitedThrough scenario journal x first n
        → (WasCarriedIn (run scenario journal).trace x first n → ⊥) → n ≤ windows * window scenario.params
        → n ≤ interference x (run scenario journal) first n + windows * most_taken scenario.params }
{}

/// A frame that waits is carried. `least_left` is `bound` + `lag` less `most_taken`, and in a legal
/// scenario at least 1. Against an ACCEPT, RHA or ELS no slot is counted, so one window is enough.
///
/// It speaks of a frame that is asked for once, carried and gone: nobody need wait with it after
/// that. It does not speak of one that is withdrawn before it was carried Clean.
///
/// Promise: in a run within the hypothesis of a legal scenario, let running nodes wait with a frame
/// of one identity in the first slot of w windows of `bound` + `lag` slots, and in each later one
/// up to the first that carries it Clean. Let fewer than w times `least_left` of these slots carry
/// Clean a frame that wins over it, of the classes FDA to ED. Then one of these slots carried it
/// Clean.
///
/// Shown by: rows WaitRows of cany_law_rows.
pub fn carried_in_windows()
    ensures some_left { (scenario : ScenarioParts) → IsLegalScenario scenario → 0 < least_left scenario.params }
    ensures carried { (scenario : ScenarioParts) (journal : List Step) → IsLegalScenario scenario
        → IsWithin scenario.params (run scenario journal).trace → (x : Identity) (first windows : ℕ)
        → first + windows * window scenario.params ≤ slots_run (run scenario journal)
        → IsAwaitedUntilCarried scenario journal x first (windows * window scenario.params)
        → interference x (run scenario journal) first (windows * window scenario.params) < windows * least_left scenario.params
        → WasCarriedIn (run scenario journal).trace x first (windows * window scenario.params) }
{}

/// By when a message is carried, of all three protocols. A window has `bound` + `lag` slots. For
/// EDCAN and RELCAN t may be the scripted slot: an origin that has asked had asked by its turn of
/// it (`asked`).
///
/// A message of TOTCAN is asked for only when the origin has read its own transmission of each one
/// before it in the backlog. By then `bound` + `lag` slots must have passed since the last of them.
/// The law does not say when that is.
///
/// Promise: in a run within the hypothesis of a legal scenario, let the origin run, and have asked
/// for the data frame by its turn of slot t. Let w windows run from slot t + `lag` + 1 on, of which
/// fewer than w times `least_left` slots carry Clean a frame of FDA to ED that wins over it. Then
/// the frame was carried Clean by slot t + `lag` + w · (`bound` + `lag`), perhaps before the first
/// window.
///
/// Shown by: rows WaitRows of cany_law_rows.
pub fn message_is_carried()
    ensures asked { (scenario : ScenarioParts) (journal : List Step) (m : Message) → Contains (messages_of scenario.sends) m
        → is_sent_at_once m.service ≡ true → IsCorrect scenario (run scenario journal) m.origin
        → origin_has_asked scenario (run scenario journal) m ≡ true → HasAskedBy scenario (run scenario journal) m m.slot }
    ensures carried { (scenario : ScenarioParts) (journal : List Step) → IsLegalScenario scenario
        → IsWithin scenario.params (run scenario journal).trace → (m : Message) (t windows : ℕ)
        → HasAskedBy scenario (run scenario journal) m t
        → waits_since scenario.params t + windows * window scenario.params ≤ slots_run (run scenario journal)
        → interference (data_id m) (run scenario journal) (waits_since scenario.params t) (windows * window scenario.params)
        < windows * least_left scenario.params
        → WasCarriedIn (run scenario journal).trace (data_id m) 0 (waits_since scenario.params t + windows * window scenario.params) }
{}

/// Delivery at the latest with the Clean slot. If a node takes part since slot 0, and
/// `message_is_carried` says by when the frame is carried, the node delivers the message by then,
/// once it has read that far.
///
/// Of a node that takes part only since later one must know that it does so since c. The law holds
/// of every journal, at any lag and under any faults, within the hypothesis or not. When a message
/// of TOTCAN is delivered `incarnations::delivery_in_time` says.
///
/// Promise: in a run of at most 64 nodes, let the data frame of a message of EDCAN or RELCAN be
/// carried Clean in slot c. Each correct node that takes part since c and has read slot c has
/// delivered the message in slot c or an earlier one.
///
/// Shown by: rows WaitRows of cany_law_rows.
pub fn delivered_when_carried()
    ensures { (scenario : ScenarioParts) (journal : List Step) → scenario.params.nodes ≤ most_nodes
        → (m : Message) → Contains (messages_of scenario.sends) m → is_sent_at_once m.service ≡ true → (c i : ℕ)
        → WasCarriedIn (run scenario journal).trace (data_id m) c 1 → IsCorrectFrom scenario (run scenario journal) c i
        → c < reads (run scenario journal) i → HasDeliveredBy scenario (run scenario journal) m c i }
{}
