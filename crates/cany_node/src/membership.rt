ghost use Rattle.std.specs.Prelude.{◌≡◌, ℕ, ◌+◌, ◌*◌, ◌<◌, ◌≤◌, [], ◌∷◌, ◌++◌, false, true, if◌then◌else◌, length, List, Option, None, IfOk, IfSome};
ghost use Rattle.cany_base.specs.declared.notice.NoticeKind.{NoticeKind};
ghost use Rattle.cany_base.specs.Nodes.{AllBelow, Nodes, nobody};
ghost use Rattle.cany_base.specs.Scenario.{ScenarioParts};
ghost use Rattle.cany_history.specs.History.{IsHistoryOf};
ghost use Rattle.cany_model.specs.Rules.Actions.{actions_of};
ghost use Rattle.cany_model.specs.Rules.Life.{failure_effects, life_sign, life_signs_sent};
ghost use Rattle.cany_model.specs.Rules.KnowledgeOf.{ended_in, knowledge_of};
ghost use Rattle.cany_model.specs.Rules.Knowledge.{Knowledge, knowledge_at_first};
ghost use Rattle.cany_base.specs.Cycles.{is_start};
ghost use Rattle.cany_model.specs.Rules.Views.{start_of, view_effects, with_ended};
ghost use Rattle.cany_views.specs.Views.{IsViewsOf};
ghost use Rattle.cany_node.specs.Asks.{asked_as};
ghost use Rattle.cany_node.specs.Membership.{MembershipParts, CanExchange, CanHear, Exchanges, HasKnown, IsFollowed, IsNextOf, IsMembershipAtRest, IsMembershipOf, IsOfBus, KnowsOf, ended_as, exchange_plain, membership_effects, membership_room};
ghost use Rattle.cany_node.specs.Resting.{MembershipRests, SiteRestsUntil, brings_totcan_or_life};

use crate::asks::AskKind;
use crate::notices::tells_of_site;
use cany_base::cycle::is_start;
use cany_base::{Actions, Memory, NodeId, NodeSet, Notice, Params, Scenario, Slot};
use cany_history::{Ended, History};
use cany_life::Life;
use cany_views::Views;
use std::alloc::Global;
use std::marker::Model;

/// What a node keeps of the site: who shows life and who has failed, the exchange of vectors, and
/// the view.
#[derive(Drop)]
pub(crate) struct Membership {
    params: Params,
    life: Life,
    history: History,
    views: Views,
}

impl Model for Membership {
    ghost Value = { MembershipParts };

    ghost view = { λ s. record { params = s.params; life = s.life; history = s.history; views = s.views } };
}

impl Membership {
    /// That of a node which has read nothing, or only notices of idle slots.
    pub(crate) fn build(
        alloc: Global,
        node: NodeId,
        scenario: &Scenario,
    ) -> Result<Membership, Memory>
        requires { node < scenario.now.params.nodes }
        ensures { IfOk result (IsMembershipAtRest scenario.now node) }
    {
        // What has most to let go comes last: how that is done where the memory of the next is
        // wanting would be proved part by part.
        let history = History::build(alloc, node, scenario)?;
        let views = Views::build(alloc, node, scenario)?;
        let life = Life::build(alloc, node, scenario)?;
        Ok(Membership {
            params: *scenario.params(),
            life,
            history,
            views,
        })
    }

    /// That of a node which is at first no member.
    pub(crate) fn begin_outside(&mut self)
        ensures life { self.new.life ≡ self.old.life }
        ensures history { self.new.history ≡ self.old.history }
        ensures views { (scenario : ScenarioParts) (knowledge : Knowledge) → IsViewsOf scenario self.old.views.node knowledge self.old.views →
            IsViewsOf scenario self.old.views.node (knowledge_at_first nobody) self.new.views }
        ensures params { self.new.params ≡ self.old.params }
    {
        self.views.begin_outside();
    }

    /// What a notice tells, up to the node's own life sign. Before `wake` that is nothing, where it
    /// tells nothing of the site.
    pub(crate) fn on(&mut self, notice: &Notice, out: &mut Actions)
        requires hears { CanHear self.old notice.now }
        requires room { length out.old.items + membership_room self.old ≤ out.old.room }
        ensures { IsFollowed self.old self.new notice.now out.old out.new }
    {
        if tells_of_site(&notice.kind) || notice.slot >= self.wake(notice.slot) {
            self.follow(notice, out);
        }
    }

    /// What a frame of TOTCAN or a life sign tells, in a slot before `wake`: who lives. Nothing is
    /// done for the site then. The answer is `idle_until`, before which it rests, or the new `wake`
    /// where that is sooner.
    pub(crate) fn see(&mut self, notice: &Notice, idle_until: Slot) -> Slot
        requires hears { CanHear self.old notice.now }
        requires brings { brings_totcan_or_life notice.now.kind ≡ true }
        requires rests { SiteRestsUntil notice.now.slot idle_until self.old }
        ensures none { (scenario : ScenarioParts) (i : ℕ) (past : List NoticeKind) → IsMembershipOf scenario i past self.old → MembershipRests scenario i past self.old →
            IsNextOf scenario i past notice.now → membership_effects scenario i (notice.now.kind ∷ past) ≡ [] }
        ensures stands { (scenario : ScenarioParts) (i : ℕ) (past : List NoticeKind) → IsMembershipOf scenario i past self.old → MembershipRests scenario i past self.old →
            IsNextOf scenario i past notice.now → IsMembershipOf scenario i (notice.now.kind ∷ past) self.new }
        ensures rests { SiteRestsUntil (notice.now.slot + 1) result self.new }
        ensures sooner { result ≤ idle_until }
    {
        if !tells_of_site(&notice.kind) {
            return idle_until;
        }
        self.life.see(notice);
        idle_until.min(self.wake(notice.slot + 1))
    }

    /// What a notice tells, step by step: who asks to join or to leave, who shows life and who has
    /// failed, then the vectors, at the end of a cycle the new view, at the start of one what the
    /// node starts with, and the node's own life sign.
    fn follow(&mut self, notice: &Notice, out: &mut Actions)
        requires hears { CanHear self.old notice.now }
        requires room { length out.old.items + membership_room self.old ≤ out.old.room }
        ensures { IsFollowed self.old self.new notice.now out.old out.new }
    {
        self.hear(notice, out);
        let ended = self.exchange(notice, out);
        self.install(ended, notice.slot, out);
        self.sign(notice.slot, out);
    }

    /// The first slot, from `now` on, in whose turn an idle notice may lead to something.
    pub(crate) fn wake(&self, now: Slot) -> Slot
        ensures rests { (scenario : ScenarioParts) (i : ℕ) (past : List NoticeKind) → IsMembershipOf scenario i past self.now →
            now ≤ length past → length past < result → length past < scenario.params.slots → MembershipRests scenario i past self.now }
    {
        let life = self.life.wake(self.views.members(), now);
        life.min(self.history.wake(now))
    }

    /// In the turn of a slot in which the node's script asks to join the view, or to leave it. At
    /// most one action is appended.
    pub(crate) fn ask(&mut self, kind: AskKind, now: Slot, out: &mut Actions)
        requires now { now < self.old.views.params.slots }
        requires room { length out.old.items < out.old.room }
        ensures actions { out.new.items ≡ out.old.items
            ++ actions_of self.old.views.params.format (asked_as kind self.old.views.params 0 self.old.views.node now self.old.views.members) }
        ensures kept { self.new ≡ self.old }
        ensures few { length out.new.items ≤ length out.old.items + 1 }
        ensures room { out.new.room ≡ out.old.room }
    {
        match kind {
            AskKind::Join => self.views.ask_join(now, out),
            AskKind::Leave => self.views.ask_leave(now, out),
        }
    }

    /// Who asks to join and to leave, who shows life, and who has failed. The members are those of
    /// before the turn.
    fn hear(&mut self, notice: &Notice, out: &mut Actions)
        requires hears { CanHear self.old notice.now }
        requires room { length out.old.items + 2 * self.old.life.params.nodes + 3 ≤ out.old.room }
        ensures actions { (scenario : ScenarioParts) (i : ℕ) (past : List NoticeKind) → IsMembershipOf scenario i past self.old → IsNextOf scenario i past notice.now →
            out.new.items ≡ out.old.items ++ actions_of scenario.params.format (failure_effects scenario i (notice.now.kind ∷ past)) }
        ensures exchanges { (scenario : ScenarioParts) (i : ℕ) (past : List NoticeKind) → IsMembershipOf scenario i past self.old → IsNextOf scenario i past notice.now →
            Exchanges scenario i past notice.now self.new }
        ensures few { length out.new.items ≤ length out.old.items + 2 * self.old.life.params.nodes + 3 }
        ensures room { out.new.room ≡ out.old.room }
        ensures joins { self.new.views.joins ≡ self.old.views.joins }
        ensures leaves { self.new.views.leaves ≡ self.old.views.leaves }
    {
        self.views.hear(notice);
        let members = self.views.members();
        self.life.on(notice, members, out);
    }

    /// What the node starts a cycle with in the slot, if one starts and the node is a member.
    fn start(&self, slot: Slot) -> Option<NodeSet>
        requires cycle { 0 < self.now.params.cycle }
        requires failed { AllBelow self.now.views.params.nodes self.now.life.failed }
        ensures exact { (scenario : ScenarioParts) (i : ℕ) (past : List NoticeKind) (knowledge : Knowledge) → KnowsOf scenario i past knowledge self.now →
            result ≡ (if is_start scenario.params slot then start_of i knowledge else None) }
        ensures below { IfSome result (AllBelow self.now.views.params.nodes) }
        ensures none { is_start self.now.params slot ≡ false → result ≡ None }
    {
        if is_start(&self.params, slot) {
            self.views.start(self.life.failed())
        } else {
            None
        }
    }

    /// The exchange of vectors: the vector with which a cycle ends, if one does.
    fn exchange(&mut self, notice: &Notice, out: &mut Actions) -> Option<Ended>
        requires exchanges { CanExchange self.old notice.now }
        requires room { length out.old.items + 3 ≤ out.old.room }
        ensures ended { (scenario : ScenarioParts) (i : ℕ) (past : List NoticeKind) → Exchanges scenario i past notice.now self.old →
            result ≡ ended_as scenario.params (length past) (ended_in scenario.params (length past) notice.now.kind (knowledge_of scenario i past)) }
        ensures below { IsOfBus self.old.params result }
        ensures actions { (scenario : ScenarioParts) (i : ℕ) (past : List NoticeKind) → Exchanges scenario i past notice.now self.old →
            out.new.items ≡ out.old.items ++ actions_of scenario.params.format (exchange_plain scenario i (notice.now.kind ∷ past)) }
        ensures history { (scenario : ScenarioParts) (i : ℕ) (past : List NoticeKind) → Exchanges scenario i past notice.now self.old →
            IsHistoryOf scenario i (notice.now.kind ∷ past) (knowledge_of scenario i (notice.now.kind ∷ past)).vector self.new.history }
        ensures state { self.new ≡ record self.old { history = self.new.history } }
        ensures few { length out.new.items ≤ length out.old.items + 3 }
        ensures room { out.new.room ≡ out.old.room }
    {
        let start = self.start(notice.slot);
        self.history.on(notice, start, out)
    }

    /// The vector with which a cycle ended becomes the view, if there is one.
    fn install(&mut self, ended: Option<Ended>, slot: Slot, out: &mut Actions)
        requires known { HasKnown self.old slot }
        requires below { IsOfBus self.old.params ended }
        requires room { length out.old.items + 1 + length self.old.views.joins + length self.old.views.leaves ≤ out.old.room }
        ensures knows { (scenario : ScenarioParts) (i : ℕ) (past : List NoticeKind) (knowledge : Knowledge) (vector : Option Nodes) → KnowsOf scenario i past knowledge self.old →
            ended ≡ ended_as scenario.params slot vector → KnowsOf scenario i past (with_ended i slot vector knowledge) self.new }
        ensures actions { (scenario : ScenarioParts) (i : ℕ) (past : List NoticeKind) (knowledge : Knowledge) (vector : Option Nodes) → KnowsOf scenario i past knowledge self.old →
            ended ≡ ended_as scenario.params slot vector →
            out.new.items ≡ out.old.items ++ actions_of scenario.params.format (view_effects scenario.params scenario.joins scenario.leaves i slot vector) }
        ensures history { self.new.history ≡ self.old.history }
        ensures few { length out.new.items ≤ length out.old.items + 1 + length self.old.views.joins + length self.old.views.leaves }
        ensures room { out.new.room ≡ out.old.room }
    {
        if let Some(ended) = ended {
            let newly = self.views.install(ended, slot, out);
            self.life.admit(newly, slot);
        }
    }

    /// The node's next life sign, if it is due.
    fn sign(&mut self, slot: Slot, out: &mut Actions)
        requires known { HasKnown self.old slot }
        requires room { length out.old.items < out.old.room }
        ensures actions { (scenario : ScenarioParts) (i : ℕ) (past : List NoticeKind) (knowledge : Knowledge) → KnowsOf scenario i past knowledge self.old →
            out.new.items ≡ out.old.items
            ++ actions_of scenario.params.format (life_sign scenario.params.life 0 i slot knowledge (life_signs_sent i past)) }
        ensures state { self.new ≡ self.old }
        ensures few { length out.new.items ≤ length out.old.items + 1 }
        ensures room { out.new.room ≡ out.old.room }
    {
        self.life.sign(slot, self.views.members(), out);
    }
}
