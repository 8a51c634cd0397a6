ghost use Rattle.std.specs.Prelude.{◌≡◌};
ghost use Rattle.cany_model.specs.Bus.Frames.{identity_of, same_identity};

use cany_base::Frame;

/// Whether the frames have one class, number and node.
#[tactic(auto, unfolding(cany_model::specs::Bus::Frames::same_identity, cany_model::specs::Bus::Frames::same_class))]
pub(crate) fn same_identity(a: &Frame, b: &Frame) -> bool
    ensures { result ≡ same_identity (identity_of a.now) (identity_of b.now) }
{
    a.class == b.class && a.number == b.number && a.node.get() == b.node.get()
}
