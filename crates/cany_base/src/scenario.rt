ghost use Rattle.std.specs.Prelude.{◌≡◌, IfOk, Option, count_by, option_map};
ghost use Rattle.std.specs.Option.{option_copied};

use crate::memory::Memory;
use crate::message::{NodeAsk, SendAsk, Service};
use crate::node::NodeId;
use crate::node_set::NodeSet;
use crate::params::Params;
use crate::rule::Rule;
use crate::send_counts::SendCounts;
use crate::step::Step;
use std::alloc::Global;
use std::marker::Model;

/// What a run is made from: the parameters, view 0, the scripted asks, the fault rules, the
/// restarts, and the journal if one is given.
pub struct Scenario {
    params: Params,
    members: NodeSet,
    sends: Vec<SendAsk>,
    rules: Vec<Rule>,
    joins: Vec<NodeAsk>,
    leaves: Vec<NodeAsk>,
    restarts: Vec<NodeAsk>,
    journal: Option<Vec<Step>>,
    /// Those of `sends`.
    counts: SendCounts,
}

/// By hand, so that it is proved here once: what a derived `Drop` drops is proved again, part by
/// part, in each crate that drops a scenario.
impl Drop for Scenario {
    fn drop(self) {
        let Scenario {
            params: _,
            members: _,
            sends,
            rules,
            joins,
            leaves,
            restarts,
            journal,
            counts: _,
        } = self;
        drop(sends);
        drop(rules);
        drop(joins);
        drop(leaves);
        drop(restarts);
        drop(journal);
    }
}

impl Model for Scenario {
    ghost use Rattle.cany_base.specs.Scenario.{ScenarioParts, IsLegalScenario};

    ghost Value = { ScenarioParts };

    ghost use Rattle.cany_base.specs.ScenarioFields.{parts_of};
    ghost use Rattle.cany_base.specs.SendCounts.{AreCountsOf};

    ghost view = { parts_of };

    ghost invariant = { λ s. IsLegalScenario (parts_of s) × AreCountsOf s.sends.items s.counts };
}

impl Scenario {
    ghost use Rattle.cany_base.specs.Scenario.{ScenarioParts, IsLegalScenario};
    ghost use Rattle.cany_base.specs.SendCounts.{is_send_by, is_send_of};

    /// The scenario of these parts, which have to be legal together.
    ///
    /// Promise: the scenario has these parts. It is one as it is read: of the first incarnations,
    /// and with all of its scripted asks.
    pub fn of_parts(
        params: Params,
        members: NodeSet,
        sends: Vec<SendAsk>,
        rules: Vec<Rule>,
        joins: Vec<NodeAsk>,
        leaves: Vec<NodeAsk>,
        restarts: Vec<NodeAsk>,
        journal: Option<Vec<Step>>,
    ) -> Scenario
        requires { IsLegalScenario (record {
          params = params;
          members = members;
          sends = sends.items;
          rules = rules.items;
          joins = joins.items;
          leaves = leaves.items;
          restarts = restarts.items;
          from = 0;
          inc = 0;
          journal = option_map (λ steps. steps.items) journal;
        }) }
        ensures { result ≡ record {
          params = params;
          members = members;
          sends = sends.items;
          rules = rules.items;
          joins = joins.items;
          leaves = leaves.items;
          restarts = restarts.items;
          from = 0;
          inc = 0;
          journal = option_map (λ steps. steps.items) journal;
        } }
    {
        let counts = SendCounts::of(sends.as_slice());
        Scenario {
            params,
            members,
            sends,
            rules,
            joins,
            leaves,
            restarts,
            journal,
            counts,
        }
    }

    /// The parameters of the bus and of its protocols.
    ///
    /// Promise: the parameters of the scenario, which is legal. It has all of its scripted asks,
    /// and its incarnations are the first.
    pub fn params(&self) -> &Params
        ensures params { result.now ≡ self.now.params }
        ensures legal { IsLegalScenario self.now }
        // Each scripted ask is made: it is an incarnation of a restarted node that makes none
        // before its first slot.
        ensures whole { self.now.from ≡ 0 }
        // So is a number above 0.
        ensures opening { self.now.inc ≡ 0 }
    {
        &self.params
    }

    /// The members of view 0.
    ///
    /// Promise: the members that the scenario opens with.
    pub fn members(&self) -> NodeSet
        ensures { result ≡ self.now.members }
    {
        self.members
    }

    /// The scripted sends, in file order.
    ///
    /// Promise: the scripted sends, in their order.
    pub fn sends(&self) -> &[SendAsk]
        ensures { result.now ≡ self.now.sends }
    {
        self.sends.as_slice()
    }

    /// How many of the sends are by the service.
    ///
    /// Promise: the number of scripted sends by this service.
    pub fn sends_by(&self, service: Service) -> usize
        ensures { result ≡ count_by (is_send_by service) self.now.sends }
    {
        self.counts.by(service)
    }

    /// How many of the sends are of the node.
    ///
    /// Promise: the number of scripted sends of this node.
    pub fn sends_of(&self, node: NodeId) -> usize
        ensures { result ≡ count_by (is_send_of node) self.now.sends }
    {
        self.counts.of_node(node)
    }

    /// The fault rules, in file order.
    ///
    /// Promise: the fault rules, in their order.
    pub fn rules(&self) -> &[Rule]
        ensures { result.now ≡ self.now.rules }
    {
        self.rules.as_slice()
    }

    /// The scripted joins, in file order.
    ///
    /// Promise: the scripted joins, in their order.
    pub fn joins(&self) -> &[NodeAsk]
        ensures { result.now ≡ self.now.joins }
    {
        self.joins.as_slice()
    }

    /// The scripted leaves, in file order.
    ///
    /// Promise: the scripted leaves, in their order.
    pub fn leaves(&self) -> &[NodeAsk]
        ensures { result.now ≡ self.now.leaves }
    {
        self.leaves.as_slice()
    }

    /// The restart entries, in file order. At the end of its slot the node of an entry starts
    /// again, if it is stopped then.
    ///
    /// Promise: the restart entries, in their order.
    pub fn restarts(&self) -> &[NodeAsk]
        ensures { result.now ≡ self.now.restarts }
    {
        self.restarts.as_slice()
    }

    /// The steps that the run is to make, where the scenario fixes them.
    ///
    /// Promise: the steps of the scenario's own journal, in their order.
    ///
    /// Answers: `None` exactly where the scenario has no journal.
    ///
    /// Shown by: `a_restart_between_two_copies`, `round_robin_may_be_given`.
    pub fn journal(&self) -> Option<&[Step]>
        ensures { option_map (λ steps. steps.now) result ≡ self.now.journal }
    {
        match &self.journal {
            Some(steps) => Some(steps.as_slice()),
            None => None,
        }
    }

    /// An equal scenario.
    ///
    /// Promise: the copy is equal to the scenario.
    ///
    /// Shown by: `a_scenario_is_copied`, `a_restart_between_two_copies`, `.ci/refusals.py`,
    /// `copy_forgets_the_restarts`.
    ///
    /// # Errors
    ///
    /// `Memory`: out of memory.
    pub fn copy(&self, alloc: Global) -> Result<Scenario, Memory>
        ensures { IfOk result (λ copy. copy ≡ self.now) }
    {
        Ok(Scenario {
            params: self.params,
            members: self.members,
            sends: Vec::from_slice(alloc, self.sends.as_slice())?,
            rules: Vec::from_slice(alloc, self.rules.as_slice())?,
            joins: Vec::from_slice(alloc, self.joins.as_slice())?,
            leaves: Vec::from_slice(alloc, self.leaves.as_slice())?,
            restarts: Vec::from_slice(alloc, self.restarts.as_slice())?,
            journal: copy_of(alloc, &self.journal)?,
            counts: self.counts,
        })
    }
}

/// An equal list of steps, where there is one.
fn copy_of(alloc: Global, journal: &Option<Vec<Step>>) -> Result<Option<Vec<Step>>, Memory>
    ensures { IfOk result (λ copy. option_map (λ steps. steps.items) copy ≡ option_map (λ steps. steps.items) journal.now) }
{
    let Some(steps) = journal else {
        return Ok(None);
    };
    Ok(Some(Vec::from_slice(alloc, steps.as_slice())?))
}
