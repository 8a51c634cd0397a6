//! The scripted joins, leaves and restarts of a scenario text.
ghost use Rattle.std.specs.Prelude.{◌≡◌, ◌≢◌, ◌-◌, [], count_by, IfOk, IfErr, Ok, Err};
ghost use Rattle.cany_base.specs.Scenario.{is_ask_of_node};
ghost use Rattle.cany_text.specs.declared.scenario_fault.KeyName.TheVariants as key;
ghost use Rattle.cany_text.specs.declared.scenario_fault.ScenarioFault.TheVariants.{Memory};
ghost use Rattle.cany_text.specs.AsksText.{joins_of, leaves_of, restarts_of, is_one_too_many};
ghost use Rattle.cany_text.specs.TomlKeys.{required, number_from, first_after};
ghost use Rattle.cany_scenario.specs.AsksParts.{asks_of};
ghost use Rattle.cany_scenario.specs.Entries.{entry_of};

use crate::array::{Array, FromEntry, entries_at};
use crate::entry::Entry;
use cany_base::limits::{MOST_JOINS, MOST_LEAVES, MOST_RESTARTS, MOST_RESTARTS_OF_NODE};
use cany_base::{NodeAsk, NodeId, Params};
use cany_text::{KeyName, ScenarioFault, TableName};
use std::alloc::Global;

/// The scripted joins.
const JOINS: Array = Array {
    table: TableName::Join,
    name: KeyName::Join,
    most: MOST_JOINS,
};

/// The scripted leaves.
const LEAVES: Array = Array {
    table: TableName::Leave,
    name: KeyName::Leave,
    most: MOST_LEAVES,
};

/// The keys that an entry can have.
const ASK_KEYS: [KeyName; 2] = [KeyName::Slot, KeyName::Node];

/// The scripted restarts.
const RESTARTS: Array = Array {
    table: TableName::Restart,
    name: KeyName::Restart,
    most: MOST_RESTARTS,
};

/// The joins, leaves and restarts, each in file order.
pub(crate) struct NodeAsks {
    pub(crate) joins: Vec<NodeAsk>,
    pub(crate) leaves: Vec<NodeAsk>,
    pub(crate) restarts: Vec<NodeAsk>,
}

/// The joins, leaves and restarts that the text lists. Of the restarts no node has too many.
pub(crate) fn read_asks(
    alloc: Global,
    params: &Params,
    top: &Entry,
) -> Result<NodeAsks, ScenarioFault>
    ensures joins { IfOk result (λ asks. joins_of params.now (entry_of top.now) ≡ Ok asks.joins.items) }
    ensures leaves { IfOk result (λ asks. leaves_of params.now (entry_of top.now) ≡ Ok asks.leaves.items) }
    ensures restarts { IfOk result (λ asks. restarts_of params.now (entry_of top.now) ≡ Ok asks.restarts.items) }
    ensures fault { IfErr result (λ fault. fault ≢ Memory → asks_of params.now (entry_of top.now) ≡ Err fault) }
{
    let joins = entries_at(alloc, params, top, JOINS)?;
    let leaves = entries_at(alloc, params, top, LEAVES)?;
    let restarts = entries_at(alloc, params, top, RESTARTS)?;
    match first_too_often(&restarts) {
        Some(place) => Err(ScenarioFault::TooOften { place }),
        None => Ok(NodeAsks {
            joins,
            leaves,
            restarts,
        }),
    }
}

/// The place of the first entry that is one too many for its node.
fn first_too_often(restarts: &[NodeAsk]) -> Option<usize>
    ensures { result ≡ first_after is_one_too_many [] restarts.now }
{
    for (place, restart) in restarts.iter().enumerate() {
        if count_of_node(&restarts[..place], restart.node) >= MOST_RESTARTS_OF_NODE {
            return Some(place);
        }
    }
    None
}

/// How many of the entries are of the node.
fn count_of_node(asks: &[NodeAsk], node: NodeId) -> usize
    ensures { result ≡ count_by (is_ask_of_node node) asks.now }
{
    asks.iter().filter(|ask| ask.node == node).count()
}

impl FromEntry for NodeAsk {
    ghost use Rattle.cany_text.specs.AsksText.{ask_from};

    ghost meaning = { ask_from };

    #[tactic(auto, unfolding(cany_text::specs::AsksText::ask_from))]
    fn from_entry(params: &Params, entry: &Entry) -> Result<NodeAsk, ScenarioFault> {
        entry.only_keys(&ASK_KEYS)?;
        let slot = slot_at(params, entry)?;
        let node = node_at(params, entry)?;
        Ok(NodeAsk { slot, node })
    }
}

/// The slot of the run that an entry names.
pub(crate) fn slot_at(params: &Params, entry: &Entry) -> Result<u64, ScenarioFault>
    ensures { result ≡ required (number_from 0 (params.now.slots - 1)) key.Slot (entry_of entry.now) }
{
    entry.number(KeyName::Slot, 0, params.slots - 1)
}

/// The node of the bus that an entry names.
pub(crate) fn node_at(params: &Params, entry: &Entry) -> Result<NodeId, ScenarioFault>
    ensures { result ≡ required (number_from 0 (params.now.nodes - 1)) key.Node (entry_of entry.now) }
{
    let number = entry.number(KeyName::Node, 0, u64::from(params.nodes) - 1)?;
    Ok(NodeId::of_index(number as usize))
}
