//! What a world has before its first step.
ghost use Rattle.std.specs.Prelude.{◌≡◌, ◌+◌, ◌*◌, ◌≤◌, [], IfOk, length, map};
ghost use Rattle.cany_base.specs.Limits.{most_sends};
ghost use Rattle.cany_base.specs.Scenario.{IsLegalScenario};
ghost use Rattle.can_bus.specs.Bus.{Follows};
ghost use Rattle.cany_model.specs.Bus.State.{opening};
ghost use Rattle.cany_model.specs.Rules.Messages.{message_key, messages_of};
ghost use Rattle.cany_model.specs.Rules.Rooms.{actions_room};
ghost use Rattle.cany_world.specs.Kept.{AreControllersOf, AreNodesOf};

use crate::incarnations::Incarnations;
use crate::journal::Journal;
use can_bus::Bus;
use can_controller::Controller;
use can_fault::Script;
use cany_base::{Actions, Memory, MsgKey, NodeId, Params, Scenario};
use cany_message::keys_of;
use cany_node::{actions_room, waiting_room};
use std::alloc::Global;

/// The bus of a world, and where its steps are noted, as they are built.
#[derive(Drop)]
pub(crate) struct BusAndJournal {
    pub(crate) bus: Bus,
    pub(crate) journal: Journal,
}

/// Those, and the script that the slots follow.
#[derive(Drop)]
pub(crate) struct BuiltBus {
    pub(crate) script: Script,
    pub(crate) noted: BusAndJournal,
}

/// What it keeps besides its nodes and their controllers.
#[derive(Drop)]
pub(crate) struct BuiltLists {
    pub(crate) actions: Actions,
    pub(crate) keys: Vec<MsgKey>,
    pub(crate) scenario: Scenario,
}

/// That, and the controllers.
#[derive(Drop)]
pub(crate) struct ControllersAndLists {
    pub(crate) controllers: Vec<Controller>,
    pub(crate) lists: BuiltLists,
}

/// Those, and the nodes.
///
/// Each part is built before those that come after it: how a value is let go where the memory of
/// the next is wanting is proved part by part at each such place, and so each of these places lets
/// go of one part alone.
#[derive(Drop)]
pub(crate) struct BuiltNodes {
    pub(crate) nodes: Vec<Incarnations>,
    pub(crate) others: ControllersAndLists,
}

/// The bus, on which no slot has run, and the journal, which has no step.
fn build_bus_and_journal(alloc: Global, scenario: &Scenario) -> Result<BusAndJournal, Memory>
    ensures params { IfOk result (λ noted. noted.bus.params ≡ scenario.now.params) }
    ensures trace { IfOk result (λ noted. noted.bus.trace ≡ []) }
    ensures follows { IfOk result (λ noted. Follows scenario.now.rules noted.bus) }
    ensures journal { IfOk result (λ noted. noted.journal ≡ record { items = []; room = scenario.now.params.slots * (scenario.now.params.nodes + 1) }) }
{
    let params = scenario.params();
    let bus = Bus::build(alloc, scenario)?;
    let journal = Journal::build(alloc, journal_room(params))?;
    Ok(BusAndJournal { bus, journal })
}

/// Those, with the script that the slots follow.
pub(crate) fn build_bus(alloc: Global, scenario: &Scenario) -> Result<BuiltBus, Memory>
    ensures script { IfOk result (λ built. built.script ≡ scenario.now.rules) }
    ensures params { IfOk result (λ built. built.noted.bus.params ≡ scenario.now.params) }
    ensures trace { IfOk result (λ built. built.noted.bus.trace ≡ []) }
    ensures follows { IfOk result (λ built. Follows scenario.now.rules built.noted.bus) }
    ensures journal { IfOk result (λ built. built.noted.journal ≡ record { items = []; room = scenario.now.params.slots * (scenario.now.params.nodes + 1) }) }
{
    let script = Script::of_scenario(alloc, scenario)?;
    let noted = build_bus_and_journal(alloc, scenario)?;
    Ok(BuiltBus { script, noted })
}

/// Room for the actions of a turn, the keys of the messages, and a copy of the scenario.
fn build_lists(alloc: Global, scenario: &Scenario) -> Result<BuiltLists, Memory>
    requires { length scenario.now.sends ≤ most_sends }
    ensures actions { IfOk result (λ lists. lists.actions ≡ record { items = []; room = actions_room scenario.now }) }
    ensures keys { IfOk result (λ lists. lists.keys.items ≡ map message_key (messages_of scenario.now.sends)) }
    ensures scenario { IfOk result (λ lists. lists.scenario ≡ scenario.now) }
{
    let actions = Actions::build(alloc, actions_room(scenario))?;
    let keys = keys_of(alloc, scenario.sends())?;
    let scenario = scenario.copy(alloc)?;
    Ok(BuiltLists {
        actions,
        keys,
        scenario,
    })
}

/// Those, and the controllers, which have seen nothing.
fn build_controllers_and_lists(
    alloc: Global,
    scenario: &Scenario,
) -> Result<ControllersAndLists, Memory>
    requires { length scenario.now.sends ≤ most_sends }
    ensures controllers { IfOk result (λ built. AreControllersOf scenario.now (opening scenario.now.params.nodes) built.controllers.items) }
    ensures actions { IfOk result (λ built. built.lists.actions ≡ record { items = []; room = actions_room scenario.now }) }
    ensures keys { IfOk result (λ built. built.lists.keys.items ≡ map message_key (messages_of scenario.now.sends)) }
    ensures scenario { IfOk result (λ built. built.lists.scenario ≡ scenario.now) }
{
    let controllers = controllers_of(alloc, scenario)?;
    let lists = build_lists(alloc, scenario)?;
    Ok(ControllersAndLists { controllers, lists })
}

/// Those, and the nodes, which have read nothing.
pub(crate) fn build_nodes(alloc: Global, scenario: &Scenario) -> Result<BuiltNodes, Memory>
    requires { length scenario.now.sends ≤ most_sends }
    ensures nodes { IfOk result (λ built. AreNodesOf scenario.now (opening scenario.now.params.nodes) built.nodes.items) }
    ensures controllers { IfOk result (λ built. AreControllersOf scenario.now (opening scenario.now.params.nodes) built.others.controllers.items) }
    ensures actions { IfOk result (λ built. built.others.lists.actions ≡ record { items = []; room = actions_room scenario.now }) }
    ensures keys { IfOk result (λ built. built.others.lists.keys.items ≡ map message_key (messages_of scenario.now.sends)) }
    ensures scenario { IfOk result (λ built. built.others.lists.scenario ≡ scenario.now) }
{
    let nodes = nodes_of(alloc, scenario)?;
    let others = build_controllers_and_lists(alloc, scenario)?;
    Ok(BuiltNodes { nodes, others })
}

/// The controllers of the nodes, which have seen nothing.
fn controllers_of(alloc: Global, scenario: &Scenario) -> Result<Vec<Controller>, Memory>
    ensures { IfOk result (λ built. AreControllersOf scenario.now (opening scenario.now.params.nodes) built.items) }
{
    let params = scenario.params();
    let count = usize::from(params.nodes);
    let room = waiting_room(scenario);
    let mut controllers = Vec::with_capacity(alloc, count)?;
    for i in 0..count {
        let controller = Controller::build(alloc, NodeId::of_index(i), params, room)?;
        controllers.push(controller)?;
    }
    Ok(controllers)
}

/// The nodes, which have read nothing, with their incarnations to come.
fn nodes_of(alloc: Global, scenario: &Scenario) -> Result<Vec<Incarnations>, Memory>
    ensures { IfOk result (λ built. AreNodesOf scenario.now (opening scenario.now.params.nodes) built.items) }
{
    let count = usize::from(scenario.params().nodes);
    let mut nodes = Vec::with_capacity(alloc, count)?;
    for i in 0..count {
        let node = Incarnations::build(alloc, NodeId::of_index(i), scenario)?;
        nodes.push(node)?;
    }
    Ok(nodes)
}

/// How many steps a run can have: in each slot the slot, and a turn of each node.
fn journal_room(params: &Params) -> usize
    ensures { result ≡ params.now.slots * (params.now.nodes + 1) }
{
    params.slots as usize * (usize::from(params.nodes) + 1)
}
