ghost use Rattle.std.specs.Prelude.{◌≡◌};
ghost use Rattle.cany_replica.specs.Table.{change_of};

use crate::value::Value;
use cany_base::Payload;

/// What a message asks of a table.
#[derive(Clone, Copy)]
pub(crate) enum Change {
    /// That the key has the value.
    Store { key: u8, value: Value },
    /// That the key has no value.
    Remove { key: u8 },
    /// That the key has the byte `to`, where it has exactly the byte `from`.
    Swap { key: u8, from: u8, to: u8 },
    Nothing,
}

impl Change {
    /// What the payload of a message asks for.
    #[tactic(auto, unfolding(crate::specs::Table::change_of))]
    pub(crate) fn of(payload: &Payload) -> Change
        ensures { result ≡ change_of payload.now }
    {
        if payload.len() < 2 {
            return Change::Nothing;
        }
        let key = payload.byte(1);
        match (payload.byte(0), payload.len()) {
            (1, _) => Change::Store {
                key,
                value: Value::after_key(payload),
            },
            (2, 2) => Change::Remove { key },
            (3, 4) => Change::Swap {
                key,
                from: payload.byte(2),
                to: payload.byte(3),
            },
            _ => Change::Nothing,
        }
    }
}
