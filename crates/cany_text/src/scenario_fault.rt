ghost use Rattle.std.specs.Prelude.{◌≡◌};
ghost use Rattle.cany_text.specs.declared.scenario_fault.ScenarioFault.TheVariants.{BoundTooSmall, Memory};

use cany_base::{ParamFault, ParamName};
use std::alloc::{AllocError, AllocFailed};

/// A table of a scenario text, or an array of tables by its key.
#[derive(Clone, Copy)]
pub enum TableName {
    Top,
    Send,
    Fault,
    Join,
    Leave,
    Restart,
}

/// A key of a scenario text.
#[derive(Clone, Copy)]
pub enum KeyName {
    Format,
    Nodes,
    Slots,
    Lag,
    Omit,
    Errors,
    Bound,
    Cycle,
    Life,
    Silence,
    Confirm,
    Members,
    Send,
    Fault,
    Join,
    Leave,
    Restart,
    Journal,
    Slot,
    Node,
    Service,
    /// The key `data`.
    DataKey,
    Class,
    Number,
    Nth,
    Verdict,
    Reject,
    Stop,
}

/// Where a value stands in a scenario text: its table, the place of the entry in it, and its key.
#[derive(Clone, Copy)]
pub struct Position {
    pub table: TableName,
    pub place: usize,
    pub name: KeyName,
}

/// The first fault of a text that is no scenario, in the order that `docs/texts.md` lists. A place
/// is the index of an entry in its array of tables, counted from 0, and 0 for the top table.
#[derive(Clone, Copy)]
pub enum ScenarioFault {
    /// The bytes are not UTF-8.
    NotText,
    /// The text is no TOML document.
    NotToml,
    /// The table has a key that is not one of its keys.
    UnknownKey {
        table: TableName,
        place: usize,
    },
    /// A key that is required is absent.
    MissingKey {
        table: TableName,
        place: usize,
        name: KeyName,
    },
    /// The value, or an element of it, is not of the key's kind, or none of its words. For an entry
    /// that is no table the name is the key of the array.
    WrongKind {
        table: TableName,
        place: usize,
        name: KeyName,
    },
    /// The integer, or the first such element of an array, is outside the range of the key.
    OutOfRange {
        table: TableName,
        place: usize,
        name: KeyName,
        value: i64,
    },
    /// The array of tables has more entries than it may have.
    TooMany {
        table: TableName,
    },
    /// The payload of the send at this place is no even number of at most 16 hexadecimal digits.
    BadData {
        place: usize,
    },
    /// A formula does not hold: the first such, by the parameter that it bounds, with the least
    /// value that it allows.
    BoundTooSmall {
        which: ParamName,
        needed: u64,
    },
    /// The rule at this index is the first that has the place of an earlier one.
    RepeatedRule {
        index: usize,
    },
    /// The restart entry at this place is the first that is one too many for its node.
    TooOften {
        place: usize,
    },
    /// The byte at this place of the joined journal is the first that writes no step.
    BadJournal {
        place: usize,
    },
    /// There was no memory for what the text gives.
    Memory,
}

impl From<AllocError> for ScenarioFault {
    ghost from_gives = { λ _ fault. fault ≡ Memory };

    fn from(_: AllocError) -> ScenarioFault {
        ScenarioFault::Memory
    }
}

impl<T: Drop> From<AllocFailed<T>> for ScenarioFault {
    ghost from_gives = { λ _ fault. fault ≡ Memory };

    fn from(_: AllocFailed<T>) -> ScenarioFault {
        ScenarioFault::Memory
    }
}

impl From<ParamFault> for ScenarioFault {
    ghost from_gives = { λ given fault. fault ≡ BoundTooSmall given.which given.needed };

    fn from(given: ParamFault) -> ScenarioFault {
        ScenarioFault::BoundTooSmall {
            which: given.which,
            needed: given.needed,
        }
    }
}
