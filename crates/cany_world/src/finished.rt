//! Of which services nothing more is to come.
ghost use Rattle.std.specs.Prelude.{◌≡◌, ℕ, true, false, List, length, Contains};
ghost use Rattle.cany_base.specs.declared.message.MsgKey.{MsgKey};
ghost use Rattle.cany_base.specs.declared.step.Step.{Step};
ghost use Rattle.cany_base.specs.Scenario.{ScenarioParts};
ghost use Rattle.cany_model.specs.Bus.State.{RunState, node_at};
ghost use Rattle.cany_model.specs.Promises.Settled.{is_ahead, is_settled};
ghost use Rattle.cany_model.specs.Rules.Messages.{Message, messages_of};
ghost use Rattle.cany_model.specs.Runs.Run.{run};
ghost use Rattle.cany_world.specs.Kept.{IsKeptAs, IsKeptAt};
ghost use Rattle.cany_world.specs.Settled.{FinishedParts, IsAbout, IsFinished, has_ahead, is_asked, is_finished};

use crate::incarnations::Incarnations;
use crate::unread::none_has_anything_to_do;
use can_controller::Controller;
use cany_base::Service;
use std::marker::Model;

/// The services whose messages are settled once they were asked for. They are found once for all
/// messages of a world, which costs less than to ask all nodes about each message.
#[derive(Drop)]
pub struct FinishedServices {
    ed: bool,
    rel: bool,
    tot: bool,
}

impl Model for FinishedServices {
    ghost Value = { FinishedParts };

    ghost view = { λ f. record { ed = f.ed; rel = f.rel; tot = f.tot } };
}

impl FinishedServices {
    /// Whether this service is one of them.
    pub(crate) fn has(&self, service: Service) -> bool
        ensures { result ≡ is_finished self.now service }
    {
        match service {
            Service::Ed => self.ed,
            Service::Rel => self.rel,
            Service::Tot => self.tot,
        }
    }
}

/// Whether the node runs and may have something of a message of this service ahead.
fn may_have_ahead(service: Service, controller: &Controller, node: &Incarnations) -> bool
    ensures { result ≡ false → (scenario : ScenarioParts) (s : RunState) (i : ℕ) (m : Message) → IsKeptAs scenario s.trace i (node_at s.nodes i) controller.now
        → IsKeptAt scenario s.trace i (node_at s.nodes i) node.now → Contains (messages_of scenario.sends) m
        → m.service ≡ service → has_ahead scenario s m i ≡ false }
{
    controller.stopped().is_none() && !node.node().has_nothing_ahead(service)
}

/// Whether no running node has anything of any message of this service ahead.
fn nothing_is_ahead(service: Service, controllers: &[Controller], nodes: &[Incarnations]) -> bool
    requires { length controllers.now ≡ length nodes.now }
    ensures { result ≡ true → (scenario : ScenarioParts) (journal : List Step) (m : Message) (key : MsgKey) → IsAbout scenario journal m key controllers.now nodes.now
        → m.service ≡ service → is_ahead scenario (run scenario journal) m ≡ false }
{
    for i in 0..controllers.len() {
        if may_have_ahead(service, &controllers[i], &nodes[i]) {
            return false;
        }
    }
    true
}

/// Whether nothing more is to come of a message of this service once it was asked for: every
/// running node has read every notice, waits with no frame and has nothing of such a message ahead.
fn nothing_is_to_come(service: Service, controllers: &[Controller], nodes: &[Incarnations]) -> bool
    requires { length controllers.now ≡ length nodes.now }
    ensures { result ≡ true → (scenario : ScenarioParts) (journal : List Step) (m : Message) (key : MsgKey) → IsAbout scenario journal m key controllers.now nodes.now
        → m.service ≡ service → is_settled scenario (run scenario journal) m ≡ is_asked scenario (run scenario journal) m }
{
    none_has_anything_to_do(controllers) && nothing_is_ahead(service, controllers, nodes)
}

/// The finished services of a run with these controllers and nodes.
pub(crate) fn finished_services(
    controllers: &[Controller],
    nodes: &[Incarnations],
) -> FinishedServices
    requires { length controllers.now ≡ length nodes.now }
    ensures { (scenario : ScenarioParts) (journal : List Step) (m : Message) (key : MsgKey) → IsAbout scenario journal m key controllers.now nodes.now
        → is_finished result m.service ≡ true → is_settled scenario (run scenario journal) m ≡ is_asked scenario (run scenario journal) m }
{
    FinishedServices {
        ed: nothing_is_to_come(Service::Ed, controllers, nodes),
        rel: nothing_is_to_come(Service::Rel, controllers, nodes),
        tot: nothing_is_to_come(Service::Tot, controllers, nodes),
    }
}
