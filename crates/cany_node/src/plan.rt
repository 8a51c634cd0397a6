ghost use Rattle.std.specs.Prelude.{◌≡◌, ◌<◌, [], IfOk};
ghost use Rattle.cany_model.specs.Rules.Rooms.{log_room};
ghost use Rattle.cany_node.specs.Plan.{IsOpeningPlanOf};

use crate::agenda::Agenda;
use crate::asks::AskPlan;
use crate::rooms::log_room;
use cany_base::{BoundedVec, LogEntry, Memory, NodeId, Scenario};
use std::alloc::Global;

/// What the script asks of a node, as it is built.
#[derive(Drop)]
pub(crate) struct Plan {
    pub(crate) agenda: Agenda,
    pub(crate) joins: AskPlan,
    pub(crate) leaves: AskPlan,
}

/// The sends and asks of a node, all still to come.
fn build_plan(alloc: Global, node: NodeId, scenario: &Scenario) -> Result<Plan, Memory>
    ensures { IfOk result (IsOpeningPlanOf scenario.now node) }
{
    let agenda = Agenda::build(alloc, node, scenario)?;
    let joins = AskPlan::build(alloc, node, scenario.joins())?;
    let leaves = AskPlan::build(alloc, node, scenario.leaves())?;
    Ok(Plan {
        agenda,
        joins,
        leaves,
    })
}

/// What a node has beside its protocols, as it is built.
#[derive(Drop)]
pub(crate) struct PlanAndLog {
    pub(crate) plan: Plan,
    pub(crate) log: BoundedVec<LogEntry>,
}

/// The plan of a node, and its log, which is empty.
pub(crate) fn build_plan_and_log(
    alloc: Global,
    node: NodeId,
    scenario: &Scenario,
) -> Result<PlanAndLog, Memory>
    ensures plan { IfOk result (λ built. IsOpeningPlanOf scenario.now node built.plan) }
    ensures log { IfOk result (λ built. built.log ≡ record { items = []; room = log_room scenario.now }) }
{
    let plan = build_plan(alloc, node, scenario)?;
    let log = BoundedVec::build(alloc, log_room(scenario))?;
    Ok(PlanAndLog { plan, log })
}
