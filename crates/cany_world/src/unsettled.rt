//! Why a message or a sign is not settled: which nodes wait with a frame of it, and which have
//! something of it ahead.
ghost use Rattle.std.specs.Prelude.{◌≡◌, ◌<◌, ◌≤◌, [], ◌∷◌, List, length};
ghost use Rattle.cany_base.specs.declared.step.Step.{Step};
ghost use Rattle.cany_base.specs.Layout.{layout};
ghost use Rattle.cany_base.specs.Limits.{most_nodes};
ghost use Rattle.cany_base.specs.Scenario.{ScenarioParts};
ghost use Rattle.cany_model.specs.Rules.Knowledge.{fda_of};
ghost use Rattle.cany_model.specs.Rules.Messages.{Message, frames_named};
ghost use Rattle.cany_model.specs.Runs.Run.{run};
ghost use Rattle.cany_world.specs.Controllers.{HaveFormat, IsSmallKey, awaits};
ghost use Rattle.cany_world.specs.Kept.{AreControllersOf};
ghost use Rattle.cany_world.specs.Settled.{IsAbout, nodes_ahead, waiting_nodes};

use crate::gathering::insert_if;
use crate::incarnations::Incarnations;
use crate::settled::{awaits, has_ahead};
use can_controller::Controller;
use can_controller::laws::frames_fit;
use can_frame::{identifier, number_fits};
use cany_base::{Class, Format, Frame, MsgKey, NodeId, NodeSet, Payload, Service};

/// The running nodes that wait with a frame of the message.
pub(crate) fn waiting_nodes(
    format: Format,
    service: Service,
    key: &MsgKey,
    controllers: &[Controller],
) -> NodeSet
    requires count { length controllers.now ≤ most_nodes }
    requires key { IsSmallKey format key.now }
    requires format { HaveFormat format controllers.now }
    ensures { (scenario : ScenarioParts) (journal : List Step) → AreControllersOf scenario (run scenario journal) controllers.now
        → result ≡ waiting_nodes (frames_named service key.now) (run scenario journal) }
{
    let mut set = NodeSet::empty();
    for i in 0..controllers.len() {
        insert_if(&mut set, i, awaits(format, service, key, &controllers[i]));
    }
    set
}

/// The running nodes that have something of the message ahead.
pub(crate) fn nodes_ahead(
    service: Service,
    key: &MsgKey,
    controllers: &[Controller],
    nodes: &[Incarnations],
) -> NodeSet
    requires count { length controllers.now ≡ length nodes.now }
    requires few { length controllers.now ≤ most_nodes }
    ensures { (scenario : ScenarioParts) (journal : List Step) (m : Message) → IsAbout scenario journal m key.now controllers.now nodes.now
        → m.service ≡ service → result ≡ nodes_ahead scenario (run scenario journal) m }
{
    let mut set = NodeSet::empty();
    for i in 0..controllers.len() {
        insert_if(
            &mut set,
            i,
            has_ahead(service, key, &controllers[i], &nodes[i]),
        );
    }
    set
}

/// Whether the controller runs and waits with the frame of the sign that the node failed.
fn awaits_sign(format: Format, node: NodeId, cycle: u16, controller: &Controller) -> bool
    requires node { node < (layout format).nodes }
    requires format { controller.now.params.format ≡ format }
    ensures { result ≡ awaits (fda_of (record { node = node; cycle = cycle }) ∷ []) controller.now }
{
    frames_fit(controller);
    if controller.stopped().is_some() || !number_fits(format, cycle) {
        return false;
    }
    let frame = Frame {
        class: Class::Fda,
        number: cycle,
        node,
        inc: 0,
        payload: Payload::empty(),
    };
    controller.waits(identifier(format, &frame))
}

/// The running nodes that wait with the frame of the sign that the node failed.
pub(crate) fn nodes_waiting_with_sign(
    format: Format,
    node: NodeId,
    cycle: u16,
    controllers: &[Controller],
) -> NodeSet
    requires count { length controllers.now ≤ most_nodes }
    requires node { node < (layout format).nodes }
    requires format { HaveFormat format controllers.now }
    ensures { (scenario : ScenarioParts) (journal : List Step) → AreControllersOf scenario (run scenario journal) controllers.now
        → result ≡ waiting_nodes (fda_of (record { node = node; cycle = cycle }) ∷ []) (run scenario journal) }
{
    let mut set = NodeSet::empty();
    for i in 0..controllers.len() {
        insert_if(
            &mut set,
            i,
            awaits_sign(format, node, cycle, &controllers[i]),
        );
    }
    set
}
