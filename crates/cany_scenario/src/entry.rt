//! One table of the text, and what its keys hold.
ghost use Rattle.std.specs.Prelude.{◌≡◌, ◌≤◌, option_map, Ok, IfOk, min, max};
ghost use Rattle.std.specs.Result.{result_map_both};
ghost use Rattle.toml.specs.Data.{get_member};
ghost use Rattle.toml.specs.View.{view, table_view};
ghost use Rattle.cany_text.specs.declared.scenario_fault.ScenarioFault.TheVariants.{WrongKind};
ghost use Rattle.cany_text.specs.ScenarioText.{top_table};
ghost use Rattle.cany_text.specs.TextNames.{key_name};
ghost use Rattle.cany_text.specs.TomlKeys.{has_only, only_keys, position_of, required, optional, number_from, within};
ghost use Rattle.cany_scenario.specs.Entries.{entry_of, is_one_of};

use crate::value::FromValue;
use cany_text::names::key_name;
use cany_text::{KeyName, Position, ScenarioFault, TableName};
use toml::{Table, Value};

/// One table of the text: the top table, or an entry of an array of tables at its place, counted
/// from 0.
#[derive(Clone, Copy)]
pub(crate) struct Entry<'a> {
    pub(crate) table: TableName,
    pub(crate) place: usize,
    pub(crate) members: &'a Table,
}

impl<'a> Entry<'a> {
    /// The top table.
    pub(crate) fn top(members: &'a Table) -> Entry<'a>
        ensures { entry_of result ≡ top_table (table_view members.now) }
    {
        Entry {
            table: TableName::Top,
            place: 0,
            members,
        }
    }

    /// Where the value of a key stands.
    pub(crate) fn position(&self, name: KeyName) -> Position
        ensures { result ≡ position_of name (entry_of self.now) }
    {
        Position {
            table: self.table,
            place: self.place,
            name,
        }
    }

    /// The value of a key.
    pub(crate) fn value(&self, name: KeyName) -> Option<&'a Value>
        ensures { option_map (λ v. view v.now) result ≡ get_member (key_name name) (entry_of self.now).members }
    {
        self.members.get(key_name(name))
    }

    /// The value of a required key.
    pub(crate) fn required(&self, name: KeyName) -> Result<&'a Value, ScenarioFault>
        ensures { result_map_both (λ v. view v.now) (λ fault. fault) result ≡ required (λ _ value. Ok value) name (entry_of self.now) }
    {
        self.value(name).ok_or(ScenarioFault::MissingKey {
            table: self.table,
            place: self.place,
            name,
        })
    }

    /// Faults a key that is none of these.
    pub(crate) fn only_keys(&self, keys: &[KeyName]) -> Result<(), ScenarioFault>
        ensures { result ≡ only_keys keys.now (entry_of self.now) }
    {
        if has_only(self.members, keys) {
            return Ok(());
        }
        Err(ScenarioFault::UnknownKey {
            table: self.table,
            place: self.place,
        })
    }

    /// What a required key holds.
    pub(crate) fn read<T: FromValue>(&self, name: KeyName) -> Result<T, ScenarioFault>
        ensures { result ≡ required T.meaning name (entry_of self.now) }
    {
        let value = self.required(name)?;
        T::from_value(self.position(name), value)
    }

    /// What a key holds, or the default where it is absent.
    pub(crate) fn read_or<T: FromValue>(
        &self,
        name: KeyName,
        default: T,
    ) -> Result<T, ScenarioFault>
        ensures { result ≡ optional T.meaning default name (entry_of self.now) }
    {
        match self.value(name) {
            Some(value) => T::from_value(self.position(name), value),
            None => Ok(default),
        }
    }

    /// The integer of a required key, which lies in the range.
    pub(crate) fn number(&self, name: KeyName, low: u64, high: u64) -> Result<u64, ScenarioFault>
        ensures value { result ≡ required (number_from low high) name (entry_of self.now) }
        ensures in_range { IfOk result (λ n. (low ≤ n) × (n ≤ high)) }
    {
        number_from(self.position(name), self.required(name)?, low, high)
    }

    /// The integer of a key, which lies in the range, or the default where the key is absent.
    pub(crate) fn number_or(
        &self,
        name: KeyName,
        low: u64,
        high: u64,
        default: u64,
    ) -> Result<u64, ScenarioFault>
        ensures value { result ≡ optional (number_from low high) default name (entry_of self.now) }
        ensures in_range { IfOk result (λ n. (min low default ≤ n) × (n ≤ max high default)) }
    {
        match self.value(name) {
            Some(value) => number_from(self.position(name), value, low, high),
            None => Ok(default),
        }
    }
}

/// Whether every key of the table is one of these.
fn has_only(table: &Table, keys: &[KeyName]) -> bool
    ensures { result ≡ has_only keys.now (table_view table.now) }
{
    for key in table.keys() {
        if !is_one_of(keys, key.as_str()) {
            return false;
        }
    }
    true
}

fn is_one_of(keys: &[KeyName], key: &str) -> bool
    ensures { result ≡ is_one_of keys.now key.now }
{
    keys.iter().any(|known| key_name(*known) == key)
}

/// The fault of a value that is not of its key's kind.
pub(crate) fn wrong_kind(at: Position) -> ScenarioFault
    ensures { result ≡ WrongKind at.table at.place at.name }
{
    ScenarioFault::WrongKind {
        table: at.table,
        place: at.place,
        name: at.name,
    }
}

/// The integer, where it lies in the range.
pub(crate) fn within(at: Position, number: i64, low: u64, high: u64) -> Result<u64, ScenarioFault>
    ensures value { result ≡ within low high at number }
    ensures in_range { IfOk result (λ n. (low ≤ n) × (n ≤ high)) }
{
    match u64::try_from(number) {
        Ok(value) if low <= value && value <= high => Ok(value),
        _ => Err(ScenarioFault::OutOfRange {
            table: at.table,
            place: at.place,
            name: at.name,
            value: number,
        }),
    }
}

/// The integer that the value is, where it lies in the range.
pub(crate) fn number_from(
    at: Position,
    value: &Value,
    low: u64,
    high: u64,
) -> Result<u64, ScenarioFault>
    ensures value { result ≡ number_from low high at (view value.now) }
    ensures in_range { IfOk result (λ n. (low ≤ n) × (n ≤ high)) }
{
    let number = value.as_integer().ok_or(wrong_kind(at))?;
    within(at, number, low, high)
}
