//! An array of tables of the text, its items as entries, and what these stand for.
ghost use Rattle.std.specs.Prelude.{◌≡◌, ◌≢◌, Ok, Err, IfOk, IfErr};
ghost use Rattle.std.specs.Result.{result_map_both};
ghost use Rattle.toml.specs.View.{view, items_view};
ghost use Rattle.cany_base.specs.Params.{Parameters};
ghost use Rattle.cany_text.specs.declared.scenario_fault.ScenarioFault.TheVariants.{Memory};
ghost use Rattle.cany_text.specs.TomlKeys as toml;
ghost use Rattle.cany_scenario.specs.Arrays.{entry_at, items_at};
ghost use Rattle.cany_scenario.specs.Entries.{entry_of};

use crate::entry::{Entry, wrong_kind};
use cany_base::Params;
use cany_text::{KeyName, Position, ScenarioFault, TableName};
use std::alloc::Global;
use toml::Value;

/// What an entry of an array of tables can stand for.
pub(crate) trait FromEntry: Drop {
    /// What an entry stands for, or its first fault.
    ghost meaning: { Parameters → toml.Entry → toml.Read Self };

    /// What the entry stands for.
    fn from_entry(params: &Params, entry: &Entry) -> Result<Self, ScenarioFault>
        ensures { result ≡ meaning params.now (entry_of entry.now) };
}

/// An array of tables of the text: its key in the top table, and how many entries it can have.
#[derive(Clone, Copy)]
pub(crate) struct Array {
    pub(crate) table: TableName,
    pub(crate) name: KeyName,
    pub(crate) most: usize,
}

/// What the entries of an array of tables stand for, in file order: none where its key is absent.
pub(crate) fn entries_at<T: FromEntry>(
    alloc: Global,
    params: &Params,
    top: &Entry,
    array: Array,
) -> Result<Vec<T>, ScenarioFault>
    ensures ok { IfOk result (λ found. toml.entries_of array.table array.most (T.meaning params.now) array.name (entry_of top.now) ≡ Ok found.items) }
    ensures fault { IfErr result (λ fault. fault ≢ Memory → toml.entries_of array.table array.most (T.meaning params.now) array.name (entry_of top.now) ≡ Err fault) }
{
    let items = items_at(top, array.table, array.most, array.name)?;
    each_entry(alloc, params, array.table, array.name, items)
}

fn each_entry<T: FromEntry>(
    alloc: Global,
    params: &Params,
    table: TableName,
    name: KeyName,
    items: &[Value],
) -> Result<Vec<T>, ScenarioFault>
    ensures ok { IfOk result (λ found. toml.each_entry table name (T.meaning params.now) 0 (items_view items.now) ≡ Ok found.items) }
    ensures fault { IfErr result (λ fault. fault ≢ Memory → toml.each_entry table name (T.meaning params.now) 0 (items_view items.now) ≡ Err fault) }
{
    let mut found = Vec::with_capacity(alloc, items.len())?;
    for (place, item) in items.iter().enumerate() {
        let entry = entry_at(table, name, place, item)?;
        found.push(T::from_entry(params, &entry)?)?;
    }
    Ok(found)
}

/// The items of the array of tables at a key of the top table, at most so many: none where the key
/// is absent.
fn items_at<'a>(
    top: &Entry<'a>,
    table: TableName,
    most: usize,
    name: KeyName,
) -> Result<&'a [Value], ScenarioFault>
    ensures { result_map_both (λ items. items_view items.now) (λ fault. fault) result ≡ items_at table most name (entry_of top.now) }
{
    let Some(value) = top.value(name) else {
        return Ok(&[]);
    };
    let items = value.as_array().ok_or(wrong_kind(top.position(name)))?;
    if items.len() > most {
        return Err(ScenarioFault::TooMany { table });
    }
    Ok(items)
}

/// The item at a place of an array of tables as an entry. Where it is no table, the fault names the
/// key of the array.
fn entry_at<'a>(
    table: TableName,
    name: KeyName,
    place: usize,
    item: &'a Value,
) -> Result<Entry<'a>, ScenarioFault>
    ensures { result_map_both entry_of (λ fault. fault) result ≡ entry_at table name place (view item.now) }
{
    let at = Position { table, place, name };
    let members = item.as_table().ok_or(wrong_kind(at))?;
    Ok(Entry {
        table,
        place,
        members,
    })
}
