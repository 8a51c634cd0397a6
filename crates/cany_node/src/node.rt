ghost use Rattle.std.specs.Prelude.{◌≡◌, ◌≢◌, ℕ, ◌+◌, ◌^◌, ◌<◌, ◌≤◌, ◌++◌, [], ◌∷◌, length, replicate, List, true, false, Contains, IfOk};
ghost use Rattle.cany_base.specs.declared.notice.Notice.{Notice};
ghost use Rattle.cany_base.specs.declared.notice.NoticeKind.{NoticeKind};
ghost use Rattle.cany_base.specs.declared.notice.NoticeKind.TheVariants.{Idle};
ghost use Rattle.cany_base.specs.Limits.{most_restarts_of_node};
ghost use Rattle.cany_base.specs.Scenario.{ScenarioParts};
ghost use Rattle.cany_model.specs.Bus.Restart.{first_cycle};
ghost use Rattle.cany_model.specs.Bus.State.{Incarnation};
ghost use Rattle.cany_model.specs.Rules.Messages.{Message, messages_of, message_key};
ghost use Rattle.cany_model.specs.Rules.Turn.{has_asked, is_ahead_at, scenario_for, turn_effects};
ghost use Rattle.cany_model.specs.Rules.Actions.{actions_of};
ghost use Rattle.cany_model.specs.Rules.Effect.{waiting_after};
ghost use Rattle.cany_model.specs.Rules.Notices.{IsNextNotice};
ghost use Rattle.cany_model.specs.Rules.Totcan.{totcan_effects};
ghost use Rattle.cany_totcan.specs.Rests.{Rests};
ghost use Rattle.cany_totcan.specs.Totcan.{CanRead, IsTotcanOf};
ghost use Rattle.cany_node.specs.Node.{IsNodeOf, IsWaiting, CanBegin, CanTurn, CanAct, Reads, IsTurnOf, IsRefused, heard_by, reply_of};
ghost use Rattle.cany_node.specs.Asks.{AreAsksPassed, IsRisingFrom};
ghost use Rattle.cany_node.specs.Agenda.{ArePassed, IsRising};
ghost use Rattle.cany_node.specs.Resting.{IsIdleUntil, RelcanRestsUntil, RestsUntil, TotcanRestsUntil, brings_totcan_or_life, is_for_edcan, is_for_relays};
ghost use Rattle.cany_node.specs.FirstParts.{first_parts};
ghost use Rattle.cany_node.specs.Membership.{IsNextOf};
ghost use Rattle.cany_node.specs.Turning.{CanHearNext, CanScript, HasHeard, HasScripted, IsActed, heard_effects, heard_room, script_effects, script_room};

use crate::agenda::Agenda;
use crate::apply::{apply_all, apply_called};
use crate::asks::{AskKind, AskPlan, ask_due};
use crate::membership::Membership;
use crate::notices::{
    brings_totcan_or_life, is_early, is_error, is_for_edcan, is_for_relays, is_life_sign,
};
use crate::plan::{PlanAndLog, build_plan_and_log};
use crate::protocols::{AllButEdcan, MembershipAndRelcan, Protocols, build_protocols};
use crate::reply::TurnReply;
use crate::sending::send_due;
use can_controller::Controller;
use cany_base::{
    Actions, BoundedVec, LogEntry, Memory, MsgKey, NodeId, Notice, NoticeKind, Params, Scenario,
    Service, Slot,
};
use cany_edcan::{Edcan, rests};
use cany_relcan::Relcan;
use cany_totcan::Totcan;
use std::alloc::Global;
use std::marker::Model;

/// A node, or one incarnation of it: the protocols that it runs, the scripted sends that it is to
/// make, and its log.
///
/// All memory is taken by `build`. An incarnation of a restarted node is built at the opening of
/// the run too, and waits.
#[derive(Drop)]
pub struct Node {
    node: NodeId,
    /// The number of the incarnation, 0 at the opening.
    inc: u8,
    params: Params,
    /// The first slot in which the incarnation takes part: of an earlier one it hears nothing, and
    /// makes none of its scripted sends and asks.
    from: Slot,
    /// The first membership cycle in which it takes part: of the vectors of an earlier one it hears
    /// nothing.
    cycle: u64,
    read: Slot,
    edcan: Edcan,
    relcan: Relcan,
    totcan: Totcan,
    membership: Membership,
    agenda: Agenda,
    joins: AskPlan,
    leaves: AskPlan,
    log: BoundedVec<LogEntry>,
    /// A slot before which an idle notice leads to nothing but what RELCAN does. It is no part of
    /// what the value stands for.
    idle_until: Slot,
}

impl Model for Node {
    ghost use Rattle.cany_node.specs.Node.{NodeParts};
    ghost use Rattle.cany_node.specs.NodeFields.{parts_of, IsSound};

    ghost Value = { NodeParts };

    ghost view = { parts_of };

    ghost invariant = { IsSound };
}

impl Node {
    /// An incarnation of a node of the scenario that has read nothing. That of the opening may
    /// read; a later one waits.
    ///
    /// Promise: the incarnation has the given node and number, and waits for a run of the scenario.
    /// The one of number 0 stands for a node of the scenario that has read nothing.
    ///
    /// Shown by: `seats_by_hand`, `restart_joins`.
    ///
    /// # Errors
    ///
    /// `Memory`: out of memory.
    pub fn build(alloc: Global, node: NodeId, inc: u8, scenario: &Scenario) -> Result<Node, Memory>
        requires node { node < scenario.now.params.nodes }
        requires inc { inc ≤ most_restarts_of_node }
        ensures node { IfOk result (λ built. built.node ≡ node) }
        ensures inc { IfOk result (λ built. built.inc ≡ inc) }
        ensures stands { IfOk result (λ built. inc ≡ 0 → IsNodeOf scenario.now [] built) }
        ensures waits { IfOk result (IsWaiting scenario.now) }
    {
        let params = *scenario.params();
        // The protocols come last, so that they are not let go where the memory of the rest is
        // wanting: that would be proved table by table.
        let own = build_plan_and_log(alloc, node, scenario)?;
        let protocols = build_protocols(alloc, node, scenario)?;
        Ok(Node::of_parts(node, inc, params, protocols, own))
    }

    /// The incarnation of these parts, which has read nothing.
    fn of_parts(
        node: NodeId,
        inc: u8,
        params: Params,
        protocols: Protocols,
        own: PlanAndLog,
    ) -> Node
        requires { inc ≤ most_restarts_of_node }
        ensures { result ≡ first_parts node inc params protocols own }
    {
        let Protocols { edcan, others } = protocols;
        let AllButEdcan { totcan, others } = others;
        let MembershipAndRelcan { membership, relcan } = others;
        let PlanAndLog { plan, log } = own;
        Node {
            node,
            inc,
            params,
            from: 0,
            cycle: 0,
            read: 0,
            edcan,
            relcan,
            totcan,
            membership,
            agenda: plan.agenda,
            joins: plan.joins,
            leaves: plan.leaves,
            log,
            idle_until: 0,
        }
    }

    /// The incarnation begins, after a restart at the end of this slot. It has heard nothing in the
    /// slots so far, is no member, and takes part only `bound + lag` slots later, in vectors from
    /// the first membership cycle on that does not start before.
    ///
    /// Promise: the incarnation stands for a history of idle slots up to and with that of the
    /// restart, in the scenario as it follows it. It keeps its numbers, and takes part in the
    /// vectors of the first cycle that starts in its first slot or later.
    ///
    /// Shown by: `restart_joins`, `restart_hears_again`, `fifteen_restarts`,
    /// `a_restart_between_two_copies`.
    pub fn begin(&mut self, restart: Slot)
        requires { CanBegin self.old restart }
        ensures stands { (scenario : ScenarioParts) (inc : Incarnation) → inc.number ≡ self.old.inc →
            inc.from ≡ restart + 1 + (scenario.params.bound + scenario.params.lag) → IsWaiting scenario self.old →
            IsNodeOf (scenario_for scenario inc) (replicate (restart + 1) Idle) self.new }
        ensures cycle { (scenario : ScenarioParts) → IsWaiting scenario self.old →
            self.new.cycle ≡ first_cycle scenario.params (restart + 1 + (scenario.params.bound + scenario.params.lag)) }
        ensures node { self.new.node ≡ self.old.node }
        ensures inc { self.new.inc ≡ self.old.inc }
    {
        forget_idle(&mut self.idle_until);
        self.read = restart + 1;
        self.from = self.read + (self.params.bound + Slot::from(self.params.lag));
        self.cycle = (self.from + (self.params.cycle - 1)) / self.params.cycle;
        self.membership.begin_outside();
        self.pass_before(self.from);
    }

    /// Passes over the scripted sends and asks of the slots before this one.
    fn pass_before(&mut self, slot: Slot)
        ensures agenda { ArePassed slot self.old.agenda self.new.agenda }
        ensures joins { AreAsksPassed slot self.old.joins self.new.joins }
        ensures leaves { AreAsksPassed slot self.old.leaves self.new.leaves }
        ensures state { self.new ≡ record self.old { agenda = self.new.agenda; joins = self.new.joins; leaves = self.new.leaves } }
    {
        forget_idle(&mut self.idle_until);
        self.agenda.pass_before(slot);
        self.joins.pass_before(slot);
        self.leaves.pass_before(slot);
    }

    /// Reads the oldest unread notice of the controller and does what the rules say of what it
    /// hears. They speak in this order: EDCAN, RELCAN, TOTCAN, and what the notice tells of the
    /// site. Then come the scripted sends, joins and leaves of the slot, and the next message of
    /// the backlog. `out` is where the actions of the turn are kept while they are done.
    ///
    /// Promise: the turn reads the oldest unread notice, as the incarnation hears it. The log and
    /// the waiting frames are then those that the rules of a turn make. A node that stopped, or has
    /// nothing to read, stays as it is, and so does its controller.
    ///
    /// Answers: `Stopped` exactly where the controller stopped, with the slot. Else `NothingYet`
    /// exactly where all was read, with the next slot to read. Else `Turned`, with the slot whose
    /// notice was read.
    ///
    /// Shown by: `seats_by_hand`, `a_stopped_node_takes_no_turn`,
    /// `turn_skips_or_reads_two_reading`, `turn_skips_or_reads_two_skipping`,
    /// `a_due_send_waits_for_an_edcan_frame`, `the_incarnation_is_not_stamped`.
    pub fn turn(&mut self, ctl: &mut Controller, out: &mut Actions) -> TurnReply
        requires { CanTurn self.old ctl.old out.old }
        ensures reply { result ≡ reply_of ctl.old }
        ensures refused { IsRefused result self.old self.new ctl.old ctl.new }
        ensures turn { (scenario : ScenarioParts) (past : List NoticeKind) (notice : Notice) → Reads scenario past notice self.old ctl.old →
            IsTurnOf scenario past notice self.old self.new ctl.old ctl.new }
        ensures node { self.new.node ≡ self.old.node }
        ensures inc { self.new.inc ≡ self.old.inc }
        ensures cycle { self.new.cycle ≡ self.old.cycle }
        ensures out { out.new ≡ out.old }
    {
        if let Some(slot) = ctl.stopped() {
            return TurnReply::Stopped { slot };
        }
        let Some(mut notice) = ctl.next_notice() else {
            return TurnReply::NothingYet { now: ctl.read() };
        };
        let slot = notice.slot;
        self.heard(&mut notice);
        self.act(&notice, ctl, out);
        TurnReply::Turned { slot }
    }

    /// The notice becomes what the incarnation hears of it.
    fn heard(&self, notice: &mut Notice)
        ensures { notice.new ≡ heard_by self.now notice.old }
    {
        let is_hidden = self.inc != 0
            && (notice.slot < self.from || is_early(self.cycle, &notice.kind));
        if is_hidden || is_error(&notice.kind) {
            notice.kind = NoticeKind::Idle;
        }
    }

    /// Does what the rules say of a notice, as it is heard. Before `idle_until` a frame leads to no
    /// more than what those do who hear it, but that a timer of RELCAN may be due.
    fn act(&mut self, notice: &Notice, ctl: &mut Controller, out: &mut Actions)
        requires { CanAct self.old notice.now ctl.old out.old }
        ensures { IsActed notice.now self.old self.new ctl.old ctl.new out.old out.new }
    {
        if notice.slot >= self.idle_until {
            self.follow_rules(notice, ctl, out);
        } else if is_for_edcan(&notice.kind) {
            self.follow_edcan(notice, ctl, out);
        } else if is_for_relays(&notice.kind) {
            self.follow_relcan(notice, ctl, out);
        } else if brings_totcan_or_life(&notice.kind) && notice.slot < self.relcan.wake() {
            self.follow_totcan_and_life(notice, ctl, out);
        } else {
            self.follow_rules(notice, ctl, out);
        }
    }

    /// Does what EDCAN and RELCAN do at a frame of EDCAN, in a slot for which nothing else is due.
    /// Before its next timer is due it is nothing to RELCAN.
    fn follow_edcan(&mut self, notice: &Notice, ctl: &mut Controller, out: &mut Actions)
        requires acts { CanAct self.old notice.now ctl.old out.old }
        requires brings { is_for_edcan notice.now.kind ≡ true }
        requires idle { IsIdleUntil (notice.now.slot + 1) self.old }
        ensures { IsActed notice.now self.old self.new ctl.old ctl.new out.old out.new }
    {
        if notice.slot >= self.relcan.wake() {
            self.follow_both(notice, ctl, out);
        } else {
            let calls = self.edcan.hear(notice);
            apply_called(Service::Ed, &calls, notice, self.inc, ctl, &mut self.log);
            self.read = notice.slot + 1;
        }
    }

    /// Does what RELCAN does at a notice that none but EDCAN and RELCAN hear, and that is none of
    /// EDCAN, in such a slot.
    fn follow_relcan(&mut self, notice: &Notice, ctl: &mut Controller, out: &mut Actions)
        requires acts { CanAct self.old notice.now ctl.old out.old }
        requires brings { is_for_relays notice.now.kind ≡ true }
        requires other { is_for_edcan notice.now.kind ≡ false }
        requires idle { IsIdleUntil (notice.now.slot + 1) self.old }
        ensures { IsActed notice.now self.old self.new ctl.old ctl.new out.old out.new }
    {
        let heard = self.relcan.hear(notice, out);
        apply_called(Service::Rel, &heard, notice, self.inc, ctl, &mut self.log);
        apply_all(out, self.inc, ctl, &mut self.log);
        out.clear();
        self.read = notice.slot + 1;
    }

    /// Does what both do at such a notice, where a timer of RELCAN is due at a frame of EDCAN.
    #[inline(never)]
    fn follow_both(&mut self, notice: &Notice, ctl: &mut Controller, out: &mut Actions)
        requires acts { CanAct self.old notice.now ctl.old out.old }
        requires brings { is_for_relays notice.now.kind ≡ true }
        requires idle { IsIdleUntil (notice.now.slot + 1) self.old }
        ensures { IsActed notice.now self.old self.new ctl.old ctl.new out.old out.new }
    {
        let calls = self.edcan.hear(notice);
        let heard = self.relcan.hear(notice, out);
        apply_called(Service::Ed, &calls, notice, self.inc, ctl, &mut self.log);
        apply_called(Service::Rel, &heard, notice, self.inc, ctl, &mut self.log);
        apply_all(out, self.inc, ctl, &mut self.log);
        out.clear();
        self.read = notice.slot + 1;
    }

    /// Does what TOTCAN does at a frame of its own or at a life sign, and what is done for the
    /// site, in a slot for which nothing is due. The script says nothing then, and the backlog asks
    /// for nothing: what is read can only move the place of its last message, for which it waits.
    // Out of line, as `follow_rules`.
    #[inline(never)]
    fn follow_totcan_and_life(&mut self, notice: &Notice, ctl: &mut Controller, out: &mut Actions)
        requires acts { CanAct self.old notice.now ctl.old out.old }
        requires brings { brings_totcan_or_life notice.now.kind ≡ true }
        requires idle { IsIdleUntil (notice.now.slot + 1) self.old }
        requires relcan { RelcanRestsUntil (notice.now.slot + 1) self.old.relcan }
        ensures { IsActed notice.now self.old self.new ctl.old ctl.new out.old out.new }
    {
        let totcan = follow_totcan(&mut self.totcan, notice, self.idle_until, out);
        let site = self.membership.see(notice, self.idle_until);
        apply_all(out, self.inc, ctl, &mut self.log);
        out.clear();
        self.read = notice.slot + 1;
        self.idle_until = totcan.min(site);
    }

    /// Does what the rules say of a notice, rule by rule.
    // Out of line, so that a turn in which it is not called stays small.
    #[inline(never)]
    fn follow_rules(&mut self, notice: &Notice, ctl: &mut Controller, out: &mut Actions)
        requires { CanAct self.old notice.now ctl.old out.old }
        ensures { IsActed notice.now self.old self.new ctl.old ctl.new out.old out.new }
    {
        self.hear(notice, out);
        self.plan(notice.slot, out);
        forget_idle(&mut self.idle_until);
        self.totcan.next(notice.slot, out);
        apply_all(out, self.inc, ctl, &mut self.log);
        out.clear();
        self.read = notice.slot + 1;
        self.idle_until = self.next_due();
    }

    /// What the protocols do at a notice.
    fn hear(&mut self, notice: &Notice, out: &mut Actions)
        requires hears { CanHearNext self.old notice.now }
        requires room { length out.old.items + heard_room self.old ≤ out.old.room }
        ensures actions { (scenario : ScenarioParts) (past : List NoticeKind) → IsNodeOf scenario past self.old → IsNextOf scenario self.old.node past notice.now →
            out.new.items ≡ out.old.items ++ actions_of scenario.params.format (heard_effects scenario self.old.node (notice.now.kind ∷ past)) }
        ensures stands { (scenario : ScenarioParts) (past : List NoticeKind) → IsNodeOf scenario past self.old → IsNextOf scenario self.old.node past notice.now →
            HasHeard scenario past notice.now.kind self.new }
        ensures state { let v = self.new in self.new ≡ record self.old { edcan = v.edcan; relcan = v.relcan; totcan = v.totcan; membership = v.membership } }
        ensures few { length out.new.items ≤ length out.old.items + heard_room self.old }
        ensures room { out.new.room ≡ out.old.room }
    {
        forget_idle(&mut self.idle_until);
        self.edcan.on(notice, out);
        self.relcan.on(notice, out);
        self.totcan.on(notice, out);
        self.membership.on(notice, out);
    }

    /// What the script asks of the node in a slot: its sends, its joins and then its leaves, each
    /// in file order.
    fn plan(&mut self, slot: Slot, out: &mut Actions)
        requires scripts { CanScript self.old slot }
        requires room { length out.old.items + script_room self.old ≤ out.old.room }
        ensures actions { (scenario : ScenarioParts) (past : List NoticeKind) (notice : NoticeKind) → HasHeard scenario past notice self.old → slot ≡ length past →
            out.new.items ≡ out.old.items ++ actions_of scenario.params.format (script_effects scenario self.old.node (notice ∷ past)) }
        ensures stands { (scenario : ScenarioParts) (past : List NoticeKind) (notice : NoticeKind) → HasHeard scenario past notice self.old → slot ≡ length past →
            HasScripted scenario past notice self.new }
        ensures state { let v = self.new in self.new ≡ record self.old { edcan = v.edcan; relcan = v.relcan; totcan = v.totcan; agenda = v.agenda; joins = v.joins; leaves = v.leaves } }
        ensures few { length out.new.items ≤ length out.old.items + script_room self.old }
        ensures room { out.new.room ≡ out.old.room }
    {
        forget_idle(&mut self.idle_until);
        send_due(
            self.node,
            slot,
            &mut self.agenda,
            &mut self.edcan,
            &mut self.relcan,
            &mut self.totcan,
            out,
        );
        ask_due(
            AskKind::Join,
            slot,
            &mut self.joins,
            &mut self.membership,
            out,
        );
        ask_due(
            AskKind::Leave,
            slot,
            &mut self.leaves,
            &mut self.membership,
            out,
        );
    }

    /// The first slot, from the next one that it reads on, in whose turn an idle notice may lead to
    /// something. Before it the incarnation can rest.
    ///
    /// It may be too early: a turn then does nothing. Each turn that is not passed over finds it
    /// out anew.
    ///
    /// Promise: in each idle slot before the answer, from the next that it reads on, the
    /// incarnation does nothing and stays as it is, but for the number of notices it has read. No
    /// clause says that the answer is as late as it can be.
    ///
    /// Shown by: `a_started_timer_is_not_noted`, `wake_leaves_out_the_scripted_sends`,
    /// `relcan_falls_back`, `a_long_journal_repeats`.
    pub fn wake(&self) -> Slot
        ensures rests { RestsUntil result self.now }
    {
        // Called for what it ensures: EDCAN has nothing to do in an idle slot.
        rests(&self.edcan);
        self.idle_until.min(self.relcan.wake())
    }

    /// The first slot, from the next one that it reads on, for which the script says something or
    /// in whose turn an idle notice may lead TOTCAN or what is kept of the site to something. It
    /// does not look at the messages or the nodes one by one.
    fn next_due(&self) -> Slot
        ensures { IsIdleUntil result self.now }
    {
        let membership = self.membership.wake(self.read);
        self.totcan.wake().min(membership).min(self.next_scripted())
    }

    /// The first slot for which something of the script is still to come.
    fn next_scripted(&self) -> Slot
        ensures sends { (n : ℕ) → n < result → IsRising n self.now.agenda.left → IsRising (n + 1) self.now.agenda.left }
        ensures joins { (n : ℕ) → n < result → IsRisingFrom n self.now.joins → IsRisingFrom (n + 1) self.now.joins }
        ensures leaves { (n : ℕ) → n < result → IsRisingFrom n self.now.leaves → IsRisingFrom (n + 1) self.now.leaves }
    {
        let sends = self.agenda.wake();
        sends.min(self.joins.wake()).min(self.leaves.wake())
    }

    /// The incarnation makes no turn in this many idle slots, in which it has nothing to do.
    ///
    /// Promise: only the number of notices it has read changes, by the number of the slots. Where
    /// all these slots lie before `wake` and before the end of the run, the incarnation stands for
    /// its history with these idle slots.
    ///
    /// Shown by: `nothing_sent`, `tail_enough`, `a_long_journal_repeats`.
    pub fn rest(&mut self, slots: u64)
        requires { self.old.read + slots < 2 ^ 64 }
        ensures state { self.new ≡ record self.old { read = self.old.read + slots } }
        ensures stands { (scenario : ScenarioParts) (past : List NoticeKind) (wake : ℕ) → RestsUntil wake self.old → IsNodeOf scenario past self.old →
            length past + slots ≤ wake → length past + slots ≤ scenario.params.slots → IsNodeOf scenario (replicate slots Idle ++ past) self.new }
    {
        self.read += slots;
    }

    /// The first slot in which the incarnation takes part. That of the opening takes part in all.
    ///
    /// Promise: the first slot in which the incarnation takes part.
    ///
    /// Shown by: `verdict_order_since_a_restart`, `restart_hears_again`.
    pub fn from(&self) -> Slot
        ensures { result ≡ self.now.from }
    {
        self.from
    }

    /// The log, oldest entry first.
    ///
    /// Promise: the log of each history that the incarnation stands for.
    ///
    /// Shown by: `three_services`, `restart_hears_again`.
    pub fn log(&self) -> &[LogEntry]
        ensures { result.now ≡ self.now.log }
    {
        self.log.as_slice()
    }

    /// Whether the node is the origin of a message of this key and has asked for its data frame.
    ///
    /// Promise: the answer is exact for a message of the scenario whose origin is this node. Where
    /// no message of this node has the key, it is false.
    ///
    /// Answers: true exactly where the node is the origin of the message and has asked for its data
    /// frame.
    ///
    /// Shown by: `three_services`, `backlog_first_is_open`,
    /// `a_send_of_the_pause_counts_as_asked_for`.
    pub fn asked(&self, msg: MsgKey) -> bool
        ensures sends { (scenario : ScenarioParts) (past : List NoticeKind) → IsNodeOf scenario past self.now →
            (m : Message) → Contains (messages_of scenario.sends) m → message_key m ≡ msg → m.origin ≡ self.now.node →
            result ≡ has_asked scenario m self.now.node past }
        ensures no_message { (scenario : ScenarioParts) (past : List NoticeKind) → IsNodeOf scenario past self.now →
            ((m : Message) → Contains (messages_of scenario.sends) m → message_key m ≡ msg → m.origin ≢ self.now.node) → result ≡ false }
    {
        msg.origin.get() == self.node.get()
            && (self.agenda.asked(msg.seq, self.from, self.read) || self.totcan.asked(msg))
    }

    /// Whether something of the message of this key is ahead at the node: a timer of RELCAN, or a
    /// closing of TOTCAN.
    ///
    /// Promise: the answer is exact for a message of the scenario. Where no message has the key, it
    /// is false.
    ///
    /// Answers: true exactly where a timer or a closing of the message is ahead.
    ///
    /// Shown by: nothing in the program runs it; its edit shows its clauses:
    /// `ahead_looks_at_the_first_message`.
    pub fn ahead(&self, msg: MsgKey) -> bool
        ensures message { (scenario : ScenarioParts) (past : List NoticeKind) → IsNodeOf scenario past self.now →
            (m : Message) → Contains (messages_of scenario.sends) m → message_key m ≡ msg →
            result ≡ is_ahead_at scenario m self.now.node past }
        ensures no_message { (scenario : ScenarioParts) (past : List NoticeKind) → IsNodeOf scenario past self.now →
            ((m : Message) → Contains (messages_of scenario.sends) m → message_key m ≢ msg) → result ≡ false }
    {
        // A copy by hand: a struct that is passed by value twice is none that the borrow checker's
        // proof covers.
        let key = MsgKey {
            origin: msg.origin,
            seq: msg.seq,
        };
        self.totcan.ahead(key) || self.relcan.ahead(msg)
    }

    /// Whether something of the message of this key and service is ahead at the node. Only the
    /// protocol of the service is asked.
    ///
    /// Promise: the answer is exact for a message of the scenario by this service, as that of
    /// `ahead`.
    ///
    /// Answers: true exactly where a timer or a closing of the message is ahead.
    ///
    /// Shown by: `three_services`, `relcan_timer_is_ahead`, `backlog_first_is_open`.
    pub fn ahead_by(&self, service: Service, msg: MsgKey) -> bool
        ensures { (scenario : ScenarioParts) (past : List NoticeKind) → IsNodeOf scenario past self.now →
            (m : Message) → Contains (messages_of scenario.sends) m → message_key m ≡ msg → m.service ≡ service →
            result ≡ is_ahead_at scenario m self.now.node past }
    {
        match service {
            Service::Ed => false,
            Service::Rel => self.relcan.ahead(msg),
            Service::Tot => self.totcan.ahead(msg),
        }
    }

    /// Whether the protocol of this service sees at once that nothing of any message of the service
    /// is ahead at the node. Of a message of EDCAN nothing ever is.
    ///
    /// It may be too careful: it may be false where nothing is ahead.
    ///
    /// Promise: where the answer is true, nothing of any message of the scenario by the service is
    /// ahead.
    ///
    /// Answers: true only where nothing is ahead. No clause says when it has to be true.
    ///
    /// Shown by: `relcan_timer_is_ahead`, `backlog_first_is_open`.
    pub fn has_nothing_ahead(&self, service: Service) -> bool
        ensures { result ≡ true → (scenario : ScenarioParts) (past : List NoticeKind) (m : Message) → IsNodeOf scenario past self.now →
            Contains (messages_of scenario.sends) m → m.service ≡ service → is_ahead_at scenario m self.now.node past ≡ false }
    {
        match service {
            Service::Ed => true,
            Service::Rel => self.relcan.has_nothing_ahead(),
            Service::Tot => self.totcan.has_nothing_ahead(),
        }
    }
}

/// Forgets up to which slot the node is idle. What it keeps is about to change, and what was noted
/// of its idle slots may not hold of what it keeps then; that it is idle before slot 0 holds of
/// every value.
fn forget_idle(idle_until: &mut Slot)
    ensures { idle_until.new ≡ 0 }
{
    *idle_until = 0;
}

/// Does what TOTCAN does at a notice in a slot for which it has nothing due. A life sign is nothing
/// to it. The answer is `idle_until`, before which it rests, or its new `wake` where that is
/// sooner.
fn follow_totcan(totcan: &mut Totcan, notice: &Notice, idle_until: Slot, out: &mut Actions) -> Slot
    requires reads { CanRead totcan.old notice.now }
    requires rests { TotcanRestsUntil idle_until totcan.old }
    requires room { length out.old.items + totcan.old.queue.room + 3 ≤ out.old.room }
    ensures actions { (scenario : ScenarioParts) (past : List NoticeKind) (messages : List Message) (asked : ℕ) →
        Rests scenario totcan.old.node past messages asked totcan.old → IsTotcanOf scenario totcan.old.node past messages asked totcan.old → IsNextNotice scenario past notice.now →
        out.new.items ≡ out.old.items ++ actions_of scenario.params.format (totcan_effects scenario totcan.old.node (notice.now.kind ∷ past)) }
    ensures stands { (scenario : ScenarioParts) (past : List NoticeKind) (messages : List Message) (asked : ℕ) →
        Rests scenario totcan.old.node past messages asked totcan.old → IsTotcanOf scenario totcan.old.node past messages asked totcan.old → IsNextNotice scenario past notice.now →
        IsTotcanOf scenario totcan.old.node (notice.now.kind ∷ past) messages asked totcan.new }
    ensures rests { TotcanRestsUntil result totcan.new }
    ensures sooner { result ≤ idle_until }
    ensures room { out.new.room ≡ out.old.room }
{
    if is_life_sign(&notice.kind) {
        return idle_until;
    }
    totcan.on(notice, out);
    idle_until.min(totcan.wake())
}
