ghost use Rattle.std.specs.Prelude.{◌≡◌, ◌+◌, ◌<◌, ◌≤◌, ◌↔◌, ℕ, [], ◌∷◌, ◌++◌, None, Some, true, false, if◌then◌else◌, length, reverse, slice_get, IfOk, IsSomeAnd};
ghost use Rattle.cany_base.specs.declared.step.Step.TheVariants.{Turn};
ghost use Rattle.cany_base.specs.Nodes.{nobody};
ghost use Rattle.cany_model.specs.Runs.Follow as following;
ghost use Rattle.cany_model.specs.Runs.Incarnations.{log_of, span_of};
ghost use Rattle.cany_model.specs.Bus.Restart.{restarted_in};
ghost use Rattle.cany_model.specs.Promises.Detector.{KeepsMembers};
ghost use Rattle.cany_model.specs.Promises.Hypothesis.{IsWithin, first_break};
ghost use Rattle.cany_model.specs.Rules.Log as model;
ghost use Rattle.cany_model.specs.Rules.Knowledge.{fda_of};
ghost use Rattle.cany_model.specs.Rules.Messages.{frames_of, message_key, messages_of};
ghost use Rattle.cany_model.specs.Runs.RoundRobin.{round_robin, rounds};
ghost use Rattle.cany_model.specs.Runs.Run.{IsLegal, after_step, has_ended, is_done, reply};
ghost use Rattle.cany_model.specs.Promises.Safe.{IsIntegral, IsSafe};
ghost use Rattle.cany_model.specs.Promises.Settled.{is_ahead, is_awaited, is_settled, nobody_waits_with_sign};
ghost use Rattle.cany_model.specs.Bus.State.{node_at, reads, slots_run};
ghost use Rattle.cany_world.specs.Kept.{IsKeptAs, IsKeptAt};
ghost use Rattle.cany_world.specs.Incarnations.{takes_part_since};
ghost use Rattle.cany_world.specs.Journal.{Repeats};
ghost use Rattle.cany_world.specs.Replies.{has_turned, step_reply};
ghost use Rattle.cany_world.specs.Settled.{IsFinished, is_queued, nodes_ahead, waiting_nodes};

use crate::began::began_nodes;
use crate::finished::{FinishedServices, finished_services};
use crate::incarnations::Incarnations;
use crate::journal::{Journal, push_rounds};
use crate::opening::{ControllersAndLists, build_bus, build_nodes};
use crate::resting::rest;
use crate::settled::{is_asked, is_settled};
use crate::slot::run_next_slot;
use crate::step::make;
use crate::stretch::{Stretch, next_stretch};
use crate::turn::take_turn;
use crate::unread::{all_read, first_lagging};
use crate::unsettled::{nodes_ahead, nodes_waiting_with_sign, waiting_nodes};
use can_bus::Bus;
use can_controller::Controller;
use can_fault::Script;
use cany_base::{
    Actions, LogEntry, Memory, MsgKey, NodeId, NodeSet, Scenario, Slot, SlotNote, Step,
};
use cany_model::{Break, Span, StepReply};
use cany_node::TurnReply;
use std::alloc::Global;
use std::marker::Model;

/// A run of a scenario: the steps that were made so far, and what they led to.
///
/// A world is at every moment the run of its scenario by its journal, in whatever order the steps
/// were asked for. All memory is taken by `build`.
pub struct World {
    scenario: Scenario,
    script: Script,
    bus: Bus,
    controllers: Vec<Controller>,
    nodes: Vec<Incarnations>,
    actions: Actions,
    journal: Journal,
    keys: Vec<MsgKey>,
}

/// By hand, so that it is proved here once: what a derived `Drop` lets go is proved again, part by
/// part, in each crate that lets a world go.
impl Drop for World {
    fn drop(self) {
        let World {
            scenario,
            script,
            bus,
            controllers,
            nodes,
            actions,
            journal,
            keys,
        } = self;
        drop(scenario);
        drop(script);
        drop(bus);
        drop(controllers);
        drop(nodes);
        drop(actions);
        drop(journal);
        drop(keys);
    }
}

impl Model for World {
    ghost use Rattle.cany_world.specs.World.{WorldParts};
    ghost use Rattle.cany_world.specs.WorldFields.{world_parts, IsRun};

    ghost Value = { WorldParts };

    ghost view = { world_parts };

    ghost invariant = { IsRun };
}

impl World {
    ghost use Rattle.cany_world.specs.World.{WorldParts, state_of};

    /// The world of the scenario before its first step, with room for every run of it.
    ///
    /// Promise: the world has the scenario, and no step was made.
    ///
    /// Shown by: `seats_by_hand`, `threads_replay`.
    ///
    /// # Errors
    ///
    /// `Memory`: out of memory.
    pub fn build(alloc: Global, scenario: &Scenario) -> Result<World, Memory>
        ensures { IfOk result (λ world. world ≡ record { scenario = scenario.now; journal = [] }) }
    {
        // The call says that the scenario is legal and that of the opening.
        let _legal = scenario.params();
        // The journal, which a run fills, comes first, then the nodes, which fill most of their
        // room, and last the controllers, which fill little of theirs: so the memory which the
        // reading of the text gave back is used again.
        let bus = build_bus(alloc, scenario)?;
        let nodes = build_nodes(alloc, scenario)?;
        let ControllersAndLists { controllers, lists } = nodes.others;
        Ok(World {
            scenario: lists.scenario,
            script: bus.script,
            bus: bus.noted.bus,
            controllers,
            nodes: nodes.nodes,
            actions: lists.actions,
            journal: bus.noted.journal,
            keys: lists.keys,
        })
    }

    /// Makes the step, if it can be made, and then appends it to the journal. A step that is
    /// refused changes nothing.
    ///
    /// A slot runs where slots are left and no running node lags. A turn reads the oldest unread
    /// notice of a node that runs. How far a node may lag is a parameter of the scenario.
    ///
    /// Promise: the reply is exactly that of the definition. A step that is done is appended to the
    /// journal, and the run is the one after that step. Any other reply leaves the world as it was.
    ///
    /// Answers: `Done` exactly where the step can be made. For a slot: else `Over` exactly where
    /// all slots ran, else `Lagging` with the least running node that lags. For a turn: else
    /// `NoNode` exactly where there is no such node, else `Stopped` exactly where it stopped, else
    /// `NothingYet`.
    ///
    /// Shown by: `.ci/refusals.py`, `a_stopped_node_takes_no_turn`,
    /// `the_first_node_is_named_as_lagging`, `step_always_lagging`, `step_always_nothing_yet`,
    /// `every_step_is_noted_as_a_slot`.
    pub fn step(&mut self, step: Step) -> StepReply
        ensures reply { result ≡ reply self.old.scenario (state_of self.old) step }
        ensures new { self.new ≡ (if is_done result then record self.old { journal = self.old.journal ++ step ∷ [] } else self.old) }
        ensures run { result ≡ StepReply.Done → state_of self.new ≡ after_step self.old.scenario (state_of self.old) step }
    {
        let reply = make(
            &self.scenario,
            &self.script,
            &mut self.bus,
            self.controllers.as_mut_slice(),
            self.nodes.as_mut_slice(),
            &mut self.actions,
            step,
        );
        match reply {
            StepReply::Done => {
                self.journal.push_copy(&step);
                StepReply::Done
            }
            refusal => refusal,
        }
    }

    /// Makes the next slot, which is known to be one that can be made, as the step of it does.
    pub(crate) fn make_slot(&mut self)
        requires { reply self.old.scenario (state_of self.old) Step.Slot ≡ StepReply.Done }
        ensures { self.new ≡ record self.old { journal = self.old.journal ++ Step.Slot ∷ [] } }
    {
        run_next_slot(
            &self.scenario,
            &self.script,
            &mut self.bus,
            self.controllers.as_mut_slice(),
            self.nodes.as_mut_slice(),
        );
        self.journal.push_copy(&Step::Slot);
    }

    /// Makes the turn of the node, if it runs and has something to read, as the step of this turn
    /// does. The answer is the node's: it names the slot whose notice was read.
    ///
    /// Promise: the answer is the reply to the step of this turn. A turn that is made is appended
    /// to the journal, and the run is the one after that step. Any other answer leaves the world as
    /// it was.
    ///
    /// Answers: `Turned` exactly where the step can be made, with the slot that the node had to
    /// read next. Else `Stopped` or `NothingYet`, as the reply to the step.
    ///
    /// Shown by: `seats_by_hand`, `one_message_no_fault`, `threads_replay`.
    pub fn make_turn(&mut self, node: NodeId) -> TurnReply
        requires { node < self.old.scenario.params.nodes }
        ensures reply { step_reply result ≡ reply self.old.scenario (state_of self.old) (Turn node) }
        ensures slot { (slot : ℕ) → result ≡ TurnReply.Turned slot → slot ≡ reads (state_of self.old) node }
        ensures new { self.new ≡ (if has_turned result then record self.old { journal = self.old.journal ++ Turn node ∷ [] } else self.old) }
        ensures run { has_turned result ≡ true → state_of self.new ≡ after_step self.old.scenario (state_of self.old) (Turn node) }
    {
        let reply = take_turn(
            node,
            self.nodes.as_mut_slice(),
            self.controllers.as_mut_slice(),
            &mut self.actions,
        );
        match reply {
            TurnReply::Turned { slot } => {
                self.journal.push_copy(&Step::Turn(node));
                TurnReply::Turned { slot }
            }
            answer => answer,
        }
    }

    /// Makes rounds of the next slots in bulk where they are known to be idle, at most so many:
    /// each slot, and the turns of all running nodes. Only in the last slot some of them may find
    /// something to do, and only these take their turns one by one. How many rounds it made, which
    /// may be none.
    pub(crate) fn rest(&mut self, most: u64) -> u64
        requires { slots_run (state_of self.old) + most ≤ self.old.scenario.params.slots }
        ensures few { result ≤ most }
        ensures rounds { self.new ≡ record self.old { journal = self.old.journal ++ rounds self.old.scenario result (state_of self.old) } }
        ensures ran { slots_run (state_of self.new) ≡ slots_run (state_of self.old) + result }
    {
        let next = self.bus.trace().len() as u64;
        let controllers = self.controllers.as_slice();
        let Stretch { slots, due } = next_stretch(
            next,
            most,
            &self.script,
            self.scenario.restarts(),
            controllers,
            self.nodes.as_slice(),
        );
        if slots > 0 {
            push_rounds(&mut self.journal, controllers, slots);
            rest(
                slots,
                due,
                &mut self.bus,
                self.controllers.as_mut_slice(),
                self.nodes.as_mut_slice(),
                &mut self.actions,
            );
        }
        slots
    }

    /// Notes that the journal repeats itself, where the run is that of round robin and each of its
    /// rounds is whole: then it is full.
    pub(crate) fn note_rounds(&mut self)
        requires { self.old.journal ≡ round_robin self.old.scenario }
        ensures { self.new ≡ self.old }
    {
        let round = usize::from(self.scenario.params().nodes) + 1;
        if self.journal.spare() == 0 {
            self.journal.note_period(round);
        }
    }

    /// Whether all slots ran and every running node has read every notice.
    ///
    /// Promise: the answer is exactly that of the definition.
    ///
    /// Answers: true exactly where all slots ran and every running node has read every notice.
    ///
    /// Shown by: `threads_replay`, `.ci/refusals.py`.
    pub fn ended(&self) -> bool
        ensures { result ≡ has_ended self.now.scenario (state_of self.now) }
    {
        self.scenario.params().slots <= self.bus.trace().len() as u64
            && all_read(self.controllers.as_slice())
    }

    /// The log of the present incarnation of a node, oldest entry first.
    ///
    /// Promise: the log of the node in the run.
    ///
    /// Shown by: `table_order_decides`, `a_read_after_learning_is_the_line`.
    pub fn log(&self, node: NodeId) -> &[LogEntry]
        requires { node < self.now.scenario.params.nodes }
        ensures { result.now ≡ model.log self.now.scenario (state_of self.now) node }
    {
        self.incarnations(node).node().log()
    }

    /// The log of an incarnation of a node, oldest entry first. An incarnation that has ended keeps
    /// its log.
    ///
    /// Promise: the log of the incarnation in the run.
    ///
    /// Shown by: `watch_two_incarnations`, `delivered_in_both_logs`,
    /// `every_log_is_that_of_the_opening`.
    pub fn log_of(&self, node: NodeId, inc: u8) -> &[LogEntry]
        requires node { node < self.now.scenario.params.nodes }
        requires inc { inc ≤ (node_at (state_of self.now).nodes node).present.number }
        ensures { result.now ≡ log_of self.now.scenario (state_of self.now) node inc }
    {
        self.incarnations(node).log_of(inc)
    }

    /// From when to when an incarnation of a node ran, and how many notices it read.
    ///
    /// Promise: the span of the incarnation in the run.
    ///
    /// Shown by: `restart_hears_again`, `fifteen_restarts`.
    pub fn span(&self, node: NodeId, inc: u8) -> Span
        requires node { node < self.now.scenario.params.nodes }
        requires inc { inc ≤ (node_at (state_of self.now).nodes node).present.number }
        ensures { Some result ≡ span_of (state_of self.now) node inc }
    {
        self.incarnations(node).span_of(inc, self.controller(node))
    }

    /// The number of the present incarnation of a node: 0 at the opening, and one more with each
    /// restart.
    ///
    /// Promise: the number of the present incarnation in the run.
    ///
    /// Shown by: `restart_hears_again`, `fifteen_restarts`.
    pub fn incarnation(&self, node: NodeId) -> u8
        requires { node < self.now.scenario.params.nodes }
        ensures { result ≡ (node_at (state_of self.now).nodes node).present.number }
    {
        self.incarnations(node).incarnation()
    }

    /// The nodes that started again at the end of the slot.
    ///
    /// Promise: exactly the nodes that started again at the end of the slot.
    ///
    /// Shown by: `restarts_at_the_edges`, `verdict_entries_that_did_nothing`.
    pub fn restarted(&self, slot: Slot) -> NodeSet
        ensures { result ≡ restarted_in (state_of self.now) slot }
    {
        if self.scenario.restarts().is_empty() {
            return NodeSet::empty();
        }
        began_nodes(slot, self.nodes.as_slice())
    }

    /// The next slot that a node has to read. Of a node that has never started again, it is the
    /// number of notices that the node has read.
    ///
    /// Promise: the next slot that the node has to read in the run.
    ///
    /// Shown by: `threads_replay`, `gates_overlap_and_one_refuses`.
    pub fn read(&self, node: NodeId) -> u64
        requires { node < self.now.scenario.params.nodes }
        ensures { result ≡ reads (state_of self.now) node }
    {
        self.controller(node).read()
    }

    /// The slot in which the present incarnation of a node stopped. A node that runs has none.
    ///
    /// Promise: the stop of the present incarnation in the run.
    ///
    /// Answers: `None` exactly where the present incarnation runs, else the slot in which it
    /// stopped.
    ///
    /// Shown by: `edcan_sender_stops_after_partial`, `restart_hears_again`.
    pub fn stopped(&self, node: NodeId) -> Option<Slot>
        requires { node < self.now.scenario.params.nodes }
        ensures { result ≡ (node_at (state_of self.now).nodes node).stopped }
    {
        self.controller(node).stopped()
    }

    /// The steps that were made, each of them done.
    ///
    /// Promise: the steps that were made, and each of them could be made.
    ///
    /// Shown by: `seats_by_hand`, `threads_replay`, `journal_lines_of_63_steps`.
    pub fn journal(&self) -> &[Step]
        ensures journal { result.now ≡ self.now.journal }
        ensures legal { IsLegal self.now.scenario self.now.journal }
    {
        self.journal.as_slice()
    }

    /// After how many steps the journal repeats itself up to its end, as far as the world knows. It
    /// is 0 where it knows of none: after 0 steps each journal repeats itself.
    ///
    /// Promise: from this many steps on the journal repeats its beginning, up to its end. No clause
    /// says that the number is more than 0.
    ///
    /// Shown by: `a_long_journal_repeats`.
    pub fn period(&self) -> usize
        ensures { Repeats result self.now.journal }
    {
        self.journal.period()
    }

    /// The notes of the slots that ran, oldest first.
    ///
    /// Promise: the notes of the run, oldest first.
    ///
    /// Shown by: `three_services`, `sixteen_lost_slots`.
    pub fn trace(&self) -> &[SlotNote]
        ensures oldest_first { result.now ≡ reverse (state_of self.now).trace }
        ensures newest_first { reverse result.now ≡ (state_of self.now).trace }
    {
        self.bus.trace()
    }

    /// The scenario that the world runs: a copy of the one that it was built with.
    ///
    /// Promise: the scenario of the world.
    ///
    /// Shown by: `three_services`, `commands_give_their_answers`.
    pub fn scenario(&self) -> &Scenario
        ensures { result.now ≡ self.now.scenario }
    {
        &self.scenario
    }

    /// The key of the message of a scripted send, by its place in the file.
    ///
    /// Promise: the key of the message at this place.
    ///
    /// Shown by: `four_messages`, `verdict_messages_are_open`.
    pub fn key(&self, index: usize) -> MsgKey
        requires { index < length self.now.scenario.sends }
        ensures { IsSomeAnd (slice_get (messages_of self.now.scenario.sends) index) (λ m. result ≡ message_key m) }
    {
        let keys = self.keys.as_slice();
        keys[index]
    }

    /// Whether the message of a scripted send, by its place in the file, is settled: nothing more
    /// is to come of it.
    ///
    /// Promise: the answer is exactly that of the definition.
    ///
    /// Answers: true exactly where all is read, the origin has asked, stopped or came too late, no
    /// running node waits with a frame of the message, and none has anything of it ahead.
    ///
    /// Shown by: `backlog_first_is_open`, `relcan_timer_is_ahead`,
    /// `a_send_counts_as_one_of_the_first_slot`.
    pub fn settled(&self, index: usize) -> bool
        requires { index < length self.now.scenario.sends }
        ensures { IsSomeAnd (slice_get (messages_of self.now.scenario.sends) index) (λ m. result ≡ is_settled self.now.scenario (state_of self.now) m) }
    {
        let format = self.scenario.params().format;
        let sends = self.scenario.sends();
        let controllers = self.controllers.as_slice();
        let nodes = self.nodes.as_slice();
        is_settled(format, &sends[index], &self.key(index), controllers, nodes)
    }

    /// The services whose messages are settled once they were asked for.
    ///
    /// Promise: a message by one of these services is settled exactly where its origin has asked
    /// for it, has stopped or came too late. No clause says that a service is among them as soon as
    /// it can be.
    ///
    /// Shown by: `one_message_no_fault`, `backlog_first_is_open`.
    pub fn finished_services(&self) -> FinishedServices
        ensures { IsFinished self.now.scenario (state_of self.now) result }
    {
        finished_services(self.controllers.as_slice(), self.nodes.as_slice())
    }

    /// What `settled` answers. It is found sooner where the message is by one of the finished
    /// services.
    ///
    /// Promise: the answer is exactly that of `settled`.
    ///
    /// Answers: true exactly where the message is settled.
    ///
    /// Shown by: `.ci/stops.py`, `backlog_first_is_open`, `backlog_first_closes`, `tail_enough`.
    pub fn settled_by(&self, index: usize, finished: &FinishedServices) -> bool
        requires index { index < length self.now.scenario.sends }
        requires finished { IsFinished self.now.scenario (state_of self.now) finished.now }
        ensures { IsSomeAnd (slice_get (messages_of self.now.scenario.sends) index) (λ m. result ≡ is_settled self.now.scenario (state_of self.now) m) }
    {
        let sends = self.scenario.sends();
        if finished.has(sends[index].service) {
            !self.queued(index)
        } else {
            self.settled(index)
        }
    }

    /// Whether the message of a scripted send, by its place in the file, is to be asked for yet:
    /// its origin runs, takes part since the scripted slot, and has not asked for it.
    ///
    /// Where all is read, a message is settled if it is not queued, nobody waits with a frame of it
    /// and nobody has anything of it ahead.
    ///
    /// Promise: the answer is exactly that of the definition.
    ///
    /// Answers: true exactly where the origin runs, takes part since the scripted slot or earlier,
    /// and has not asked for the message.
    ///
    /// Shown by: `an_account_is_judged`, `verdict_messages_are_open`.
    pub fn queued(&self, index: usize) -> bool
        requires { index < length self.now.scenario.sends }
        ensures { IsSomeAnd (slice_get (messages_of self.now.scenario.sends) index) (λ m. result ≡ is_queued self.now.scenario (state_of self.now) m) }
    {
        let sends = self.scenario.sends();
        let controllers = self.controllers.as_slice();
        let nodes = self.nodes.as_slice();
        !is_asked(&self.key(index), sends[index].slot, controllers, nodes)
    }

    /// The running nodes that wait with the data frame of the message of a scripted send, by its
    /// place in the file, or with a frame that confirms or accepts it.
    ///
    /// Promise: exactly the running nodes that wait with one of these frames. The set is empty
    /// exactly where the definition of a settled message has nobody that waits.
    ///
    /// Shown by: `an_account_is_judged`, `verdict_messages_are_open`.
    pub fn waiting(&self, index: usize) -> NodeSet
        requires { index < length self.now.scenario.sends }
        ensures set { IsSomeAnd (slice_get (messages_of self.now.scenario.sends) index) (λ m. result ≡ waiting_nodes (frames_of m) (state_of self.now)) }
        ensures nobody { IsSomeAnd (slice_get (messages_of self.now.scenario.sends) index)
            (λ m. (result ≡ nobody) ↔ (is_awaited (frames_of m) (state_of self.now) ≡ false)) }
    {
        let format = self.scenario.params().format;
        let sends = self.scenario.sends();
        let controllers = self.controllers.as_slice();
        waiting_nodes(format, sends[index].service, &self.key(index), controllers)
    }

    /// The running nodes that have a timer or a closing of the message of a scripted send, by its
    /// place in the file, ahead.
    ///
    /// Promise: exactly the running nodes that have something of the message ahead. The set is
    /// empty exactly where the definition of a settled message has nothing ahead.
    ///
    /// Shown by: `an_account_is_judged`, `verdict_messages_are_open`.
    pub fn ahead(&self, index: usize) -> NodeSet
        requires { index < length self.now.scenario.sends }
        ensures set { IsSomeAnd (slice_get (messages_of self.now.scenario.sends) index)
            (λ m. result ≡ nodes_ahead self.now.scenario (state_of self.now) m) }
        ensures nobody { IsSomeAnd (slice_get (messages_of self.now.scenario.sends) index)
            (λ m. (result ≡ nobody) ↔ (is_ahead self.now.scenario (state_of self.now) m ≡ false)) }
    {
        let controllers = self.controllers.as_slice();
        let nodes = self.nodes.as_slice();
        let sends = self.scenario.sends();
        nodes_ahead(sends[index].service, &self.key(index), controllers, nodes)
    }

    /// The running nodes that wait with the frame of the sign that the node failed, as it was found
    /// out in a membership cycle.
    ///
    /// Promise: exactly the running nodes that wait with the frame of the sign. The set is empty
    /// exactly where nobody waits with it.
    ///
    /// Shown by: `verdict_sign_is_open`, `verdict_sign_at_one_node`.
    pub fn waiting_sign(&self, node: NodeId, cycle: u16) -> NodeSet
        requires { node < self.now.scenario.params.nodes }
        ensures set { result ≡ waiting_nodes (fda_of (record { node = node; cycle = cycle }) ∷ []) (state_of self.now) }
        ensures nobody { (result ≡ nobody) ↔ (nobody_waits_with_sign (state_of self.now) (record { node = node; cycle = cycle }) ≡ true) }
    {
        let format = self.scenario.params().format;
        nodes_waiting_with_sign(format, node, cycle, self.controllers.as_slice())
    }

    /// The first slot in which an incarnation of a node takes part.
    ///
    /// Promise: the first slot in which the incarnation takes part in the run.
    ///
    /// Shown by: `verdict_order_since_a_restart`, `verdict_all_held`.
    pub fn takes_part_since(&self, node: NodeId, inc: u8) -> Slot
        requires node { node < self.now.scenario.params.nodes }
        requires inc { inc ≤ (node_at (state_of self.now).nodes node).present.number }
        ensures { Some result ≡ takes_part_since (state_of self.now) node inc }
    {
        self.incarnations(node).takes_part_since(inc)
    }

    /// The first slot at which the run leaves the fault hypothesis, and how.
    ///
    /// More holds where there is none and the scenario has no restart entry. A running node counts
    /// as failed at no running node. Let all running nodes have a node in their views after a slot.
    /// If the node runs and has asked for no leave, it stays in their logged views of the cycles
    /// that end later. If it stopped in that slot, it is in no logged view of a cycle that starts
    /// more than `silence` slots later.
    ///
    /// Let a JOIN of a node be carried Clean after the start of cycle k − 1 and not after that of
    /// cycle k, and let each running node have the asker outside its view before its own turn of
    /// that slot. Each running node that installs a vector in cycle k has the asker in it or, for
    /// k > 1, in its vector before.
    ///
    /// Promise: the answer is exactly the first break of the definition. In any case the run has
    /// integrity; where there is no break, it is safe. Where the scenario has no restart entry
    /// either, the run keeps accuracy, staying, removal and admission (`KeepsMembers`).
    ///
    /// Answers: `None` exactly where the run is within the hypothesis.
    ///
    /// Shown by: `.ci/stops.py`, `hypothesis_always_outside`, `silent_omission_is_outside`,
    /// `sixteen_lost_slots`.
    pub fn hypothesis(&self) -> Option<Break>
        ensures first { result ≡ first_break self.now.scenario.params (state_of self.now).trace }
        ensures within { (result ≡ None) ↔ IsWithin self.now.scenario.params (state_of self.now).trace }
        ensures integrity { IsIntegral self.now.scenario (state_of self.now) }
        ensures safe { result ≡ None → IsSafe self.now.scenario (state_of self.now) }
        ensures members { result ≡ None → self.now.scenario.restarts ≡ [] → KeepsMembers self.now.scenario (state_of self.now) }
    {
        self.bus.first_break()
    }

    /// The controller of a node.
    fn controller(&self, node: NodeId) -> &Controller
        requires { node < self.now.scenario.params.nodes }
        ensures { let s = state_of self.now in IsKeptAs self.now.scenario s.trace node (node_at s.nodes node) result.now }
    {
        let controllers = self.controllers.as_slice();
        &controllers[usize::from(node.get())]
    }

    /// The incarnations of a node.
    fn incarnations(&self, node: NodeId) -> &Incarnations
        requires { node < self.now.scenario.params.nodes }
        ensures { let s = state_of self.now in IsKeptAt self.now.scenario s.trace node (node_at s.nodes node) result.now }
    {
        let nodes = self.nodes.as_slice();
        &nodes[usize::from(node.get())]
    }

    /// How many slots ran.
    pub(crate) fn ran(&self) -> u64
        ensures { result ≡ slots_run (state_of self.now) }
    {
        self.bus.trace().len() as u64
    }

    /// The least running node with an unread notice.
    pub(crate) fn first_unread(&self) -> Option<NodeId>
        ensures { result ≡ following.first_unread (state_of self.now) }
    {
        match first_lagging(0, self.controllers.as_slice()) {
            Some((node, _)) => Some(node),
            None => None,
        }
    }
}
