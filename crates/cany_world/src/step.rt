//! One step of a run.
ghost use Rattle.std.specs.Prelude.{◌≡◌, List};
ghost use Rattle.cany_base.specs.declared.step.Step.{Step as AnyStep};
ghost use Rattle.cany_model.specs.Runs.Run.{proceed, reply, run};
ghost use Rattle.cany_world.specs.Kept.{CanStep, StandFor};
ghost use Rattle.cany_world.specs.Replies.{IfDone};

use crate::incarnations::Incarnations;
use crate::slot::run_slot;
use crate::turn::turn_step;
use can_bus::Bus;
use can_controller::Controller;
use can_fault::Script;
use cany_base::{Actions, Scenario, Step};
use cany_model::StepReply;

/// Makes the step, if it can be made.
pub(crate) fn make(
    scenario: &Scenario,
    script: &Script,
    bus: &mut Bus,
    controllers: &mut [Controller],
    nodes: &mut [Incarnations],
    actions: &mut Actions,
    step: Step,
) -> StepReply
    requires { CanStep scenario.now script.now bus.old controllers.old nodes.old actions.old }

    ensures reply { (journal : List AnyStep) → let s = run scenario.now journal in
        StandFor scenario.now s bus.old controllers.old nodes.old → result ≡ reply scenario.now s step }

    // They stand for the state after the step.
    ensures done { (journal : List AnyStep) → let s = run scenario.now journal in
        StandFor scenario.now s bus.old controllers.old nodes.old
        → IfDone result (StandFor scenario.now (proceed scenario.now s step) bus.new controllers.new nodes.new) (Unit {0}) }

    ensures refused { IfDone result (Unit {0}) ((bus.new ≡ bus.old) × (controllers.new ≡ controllers.old) × (nodes.new ≡ nodes.old)) }
    ensures actions { actions.new ≡ actions.old }
{
    match step {
        Step::Slot => run_slot(scenario, script, bus, controllers, nodes),
        Step::Turn(node) => turn_step(node, nodes, controllers, actions),
    }
}
