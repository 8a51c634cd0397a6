ghost use Rattle.std.specs.Prelude.{◌≡◌, ℕ, ◌+◌, ◌*◌, ◌^◌, ◌<◌};
ghost use Rattle.std.specs.Int.{bit_at};
ghost use Rattle.can_frame.specs.Field.{IsPlaced, IsOutside, field_of};

/// A field of a 32-bit word: `WIDTH` bits, of which the least significant is bit `SHIFT`.
#[derive(Clone, Copy)]
pub struct Field<const SHIFT: u32, const WIDTH: u32>;

impl<const SHIFT: u32, const WIDTH: u32> Field<SHIFT, WIDTH> {
    /// The word with this value in the field.
    ///
    /// Promise: the value is that of the field in the result, and no bit outside the field changes.
    /// So the result is the word with the old value of the field replaced by the new one.
    ///
    /// Shown by: `frames_of_every_class`, `put_clears_the_other_fields`.
    pub fn put(word: u32, value: u32) -> u32
        requires placed { IsPlaced SHIFT WIDTH }
        requires fits { value < 2 ^ WIDTH }
        ensures taken { field_of SHIFT WIDTH result ≡ value }
        ensures outside { (i : ℕ) → IsOutside SHIFT WIDTH i → bit_at result i ≡ bit_at word i }
        ensures sum { result + field_of SHIFT WIDTH word * 2 ^ SHIFT ≡ word + value * 2 ^ SHIFT }
    {
        let mask = (u32::MAX >> (32 - WIDTH)) << SHIFT;
        (word & !mask) | (value << SHIFT)
    }

    /// The value that the field has in the word.
    ///
    /// Promise: the value of the field in the word.
    pub fn take(word: u32) -> u32
        requires { IsPlaced SHIFT WIDTH }
        ensures { result ≡ field_of SHIFT WIDTH word }
    {
        (word >> SHIFT) & (u32::MAX >> (32 - WIDTH))
    }
}
