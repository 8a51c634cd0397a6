ghost use Rattle.std.specs.Prelude.{◌≡◌, ◌↔◌, ℕ};
ghost use Rattle.cany_base.specs.Frame.{FrameParts, SameIdentity};

use cany_base::Frame;

/// A value that nodes spread by eager diffusion: it travels in a frame.
///
/// Two values whose numbers are in range have one key exactly where their frames have one class,
/// number and node.
pub trait Diffused: Drop {
    /// The key of a value.
    ghost key: { Self → ℕ };

    /// The frame of a value.
    ghost form: { Self → FrameParts };

    /// The numbers of a value are in range.
    ghost is_value: { Self → Type 0 };

    /// The number that stands for the value.
    ///
    /// Promise: the number of the value. Two values have one number exactly where their frames have
    /// one class, number and node (`one_name_one_key`).
    fn key(&self) -> u64
        requires { is_value self.now }
        ensures { result ≡ key self.now };

    /// The frame that carries the value.
    ///
    /// Promise: the frame of the value.
    ///
    /// Shown by: `a_frame_of_message_zero`.
    fn form(&self) -> Frame
        requires { is_value self.now }
        ensures { result ≡ form self.now };

    ghost one_name_one_key: { (a b : Self) → is_value a → is_value b → SameIdentity (form a) (form b) ↔ (key a ≡ key b) };
}
