//! Sets of nodes in a scenario text.
ghost use Rattle.std.specs.Prelude.{◌≡◌, []};
ghost use Rattle.toml.specs.View.{view, items_view};
ghost use Rattle.cany_text.specs.declared.scenario_fault.KeyName.TheVariants as key;
ghost use Rattle.cany_text.specs.NodesText.{all_nodes, nodes_from, set_of};
ghost use Rattle.cany_text.specs.TomlKeys.{optional};
ghost use Rattle.cany_scenario.specs.Entries.{entry_of};
ghost use Rattle.cany_scenario.specs.NodesParts.{are_integers, each_node};

use crate::entry::{Entry, number_from, wrong_kind};
use cany_base::{NodeId, NodeSet, Params};
use cany_text::{KeyName, Position, ScenarioFault};
use toml::Value;

/// The members of view 0, which the top key `members` lists: every node where the key is absent.
pub(crate) fn read_members(params: &Params, top: &Entry) -> Result<NodeSet, ScenarioFault>
    ensures { result ≡ optional (nodes_from params.now) (all_nodes params.now) key.Members (entry_of top.now) }
{
    match top.value(KeyName::Members) {
        Some(value) => nodes_from(params, top.position(KeyName::Members), value),
        None => Ok(every_node(params)),
    }
}

/// The nodes that a key lists: none where the key is absent.
#[tactic(auto, unfolding(cany_base::specs::Nodes::those_where, cany_base::specs::Nodes::bits_where))]
pub(crate) fn nodes_at(
    params: &Params,
    entry: &Entry,
    name: KeyName,
) -> Result<NodeSet, ScenarioFault>
    ensures { result ≡ optional (nodes_from params.now) (set_of []) name (entry_of entry.now) }
{
    match entry.value(name) {
        Some(value) => nodes_from(params, entry.position(name), value),
        None => Ok(NodeSet::empty()),
    }
}

/// Every node of the bus.
fn every_node(params: &Params) -> NodeSet
    ensures { result ≡ all_nodes params.now }
{
    NodeSet::all(params.nodes)
}

/// The nodes whose numbers an array has. A number may stand twice.
#[tactic(auto, unfolding(cany_text::specs::NodesText::nodes_from))]
fn nodes_from(params: &Params, at: Position, value: &Value) -> Result<NodeSet, ScenarioFault>
    ensures { result ≡ nodes_from params.now at (view value.now) }
{
    let items = value.as_array().ok_or(wrong_kind(at))?;
    // The kinds of all items come before the range of the first.
    if !are_integers(items) {
        return Err(wrong_kind(at));
    }
    each_node(params, at, items)
}

/// Whether each item is an integer.
fn are_integers(items: &[Value]) -> bool
    ensures { result ≡ are_integers items.now }
{
    items.iter().all(|item| item.is_integer())
}

fn each_node(params: &Params, at: Position, items: &[Value]) -> Result<NodeSet, ScenarioFault>
    ensures { result ≡ each_node params.now at (items_view items.now) }
{
    let mut nodes = NodeSet::empty();
    for item in items {
        let number = number_from(at, item, 0, u64::from(params.nodes) - 1)?;
        nodes.insert(NodeId::of_index(number as usize));
    }
    Ok(nodes)
}
