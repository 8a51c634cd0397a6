//! What the running nodes have not read yet.
ghost use Rattle.std.specs.Prelude.{◌≡◌, ◌≤◌, List, length, true};
ghost use Rattle.std.specs.List.{list_all};
ghost use Rattle.cany_base.specs.declared.step.Step.{Step};
ghost use Rattle.cany_base.specs.Limits.{most_nodes};
ghost use Rattle.cany_base.specs.Scenario.{ScenarioParts};
ghost use Rattle.cany_model.specs.Runs.Run.{first_lagging, run};
ghost use Rattle.cany_world.specs.Controllers.{has_read, lags};
ghost use Rattle.cany_world.specs.Kept.{AreControllersOf};
ghost use Rattle.cany_world.specs.Resting.{HaveNothingToDo};

use can_controller::Controller;
use cany_base::NodeId;

/// Whether the node runs and has more unread notices than this.
fn lags(lag: u32, controller: &Controller) -> bool
    ensures { result ≡ lags lag controller.now }
{
    controller.stopped().is_none() && controller.unread() > lag
}

/// The least running node with more unread notices than this, and their number.
pub(crate) fn first_lagging(lag: u32, controllers: &[Controller]) -> Option<(NodeId, u32)>
    requires { length controllers.now ≤ most_nodes }
    ensures { (scenario : ScenarioParts) (journal : List Step) → let s = run scenario journal in
        AreControllersOf scenario s controllers.now → result ≡ first_lagging lag 0 s.nodes }
{
    for i in 0..controllers.len() {
        let controller = &controllers[i];
        if lags(lag, controller) {
            return Some((NodeId::of_index(i), controller.unread()));
        }
    }
    None
}

/// Whether the node has stopped, or has read every notice.
fn has_read(controller: &Controller) -> bool
    ensures { result ≡ has_read controller.now }
{
    controller.stopped().is_some() || controller.unread() == 0
}

/// Whether every running node has read every notice.
pub(crate) fn all_read(controllers: &[Controller]) -> bool
    ensures { result ≡ list_all has_read controllers.now }
{
    controllers.iter().all(has_read)
}

/// Whether no controller that runs waits with a frame or has a notice that is unread.
pub(crate) fn none_has_anything_to_do(controllers: &[Controller]) -> bool
    ensures { result ≡ true → HaveNothingToDo controllers.now }
{
    for i in 0..controllers.len() {
        let controller = &controllers[i];
        if !controller.has_nothing_to_do() && controller.stopped().is_none() {
            return false;
        }
    }
    true
}
