//! What a controller offers to the bus.
ghost use Rattle.std.specs.Prelude.{◌≡◌, None, IfSome};
ghost use Rattle.cany_model.specs.Bus.Slot.{least_frame, offered};
ghost use Rattle.can_frame.specs.Identifier.{FitsIdentifier};
ghost use Rattle.can_controller.specs.Controller.{node_state};
ghost use Rattle.can_bus.specs.Contest.{StandInOrder};

use can_controller::Controller;
use cany_base::Frame;

/// What a controller offers: if it runs, its waiting frame that wins over its others.
pub(crate) fn offer_of(controller: &Controller) -> Option<Frame>
    ensures offer { result ≡ least_frame (offered (node_state controller.now)) }
    ensures fits { IfSome result (FitsIdentifier controller.now.params.format) }
    ensures in_order { StandInOrder controller.now.params.format (offered (node_state controller.now)) }
{
    if controller.stopped().is_some() {
        return None;
    }
    controller.best()
}
