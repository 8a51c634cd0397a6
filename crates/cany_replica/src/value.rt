ghost use Rattle.std.specs.Prelude.{◌≡◌, ◌≤◌, ◌∷◌, [], drop, length};

use cany_base::Payload;
use std::marker::Model;

/// The 0 to 6 bytes that a key of a table has. The bytes past its length are zero.
#[derive(Clone, Copy)]
pub struct Value {
    pub len: u8,
    pub bytes: [u8; 6],
}

impl Model for Value {
    ghost use Rattle.std.specs.Prelude.{List, ℕ};

    ghost Value = { List ℕ };

    ghost use Rattle.cany_replica.specs.ValueBytes.{bytes_of, IsPadded, padded, padded-bytes_of};

    ghost view = { bytes_of };

    ghost invariant = { IsPadded };

    ghost inverse = { padded };

    ghost inverse_ok = { padded-bytes_of };
}

impl Value {
    /// One byte.
    pub(crate) fn of_byte(byte: u8) -> Value
        ensures { result ≡ byte ∷ [] }
    {
        Value {
            len: 1,
            bytes: [byte, 0, 0, 0, 0, 0],
        }
    }

    /// The bytes of a payload after its first two.
    pub(crate) fn after_key(payload: &Payload) -> Value
        requires { 2 ≤ length payload.now }
        ensures { result ≡ drop 2 payload.now }
    {
        Value {
            len: payload.len - 2,
            bytes: [
                payload.b2, payload.b3, payload.b4, payload.b5, payload.b6, payload.b7,
            ],
        }
    }

    /// The bytes of the value.
    ///
    /// Promise: the bytes of the value, at most 6.
    ///
    /// Shown by: `table_order_decides`.
    pub fn as_slice(&self) -> &[u8]
        ensures bytes { result.now ≡ self.now }
        ensures short { length self.now ≤ 6 }
    {
        let all = &self.bytes[..];
        &all[..usize::from(self.len)]
    }
}
