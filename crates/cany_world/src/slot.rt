//! The step that runs a bus slot.
ghost use Rattle.std.specs.Prelude.{◌≡◌, ◌≤◌, List, length};
ghost use Rattle.cany_base.specs.declared.step.Step.{Step};
ghost use Rattle.cany_base.specs.Limits.{most_nodes};
ghost use Rattle.cany_base.specs.Scenario.{ScenarioParts};
ghost use Rattle.cany_model.specs.Bus.Restart.{after_restarts};
ghost use Rattle.cany_model.specs.declared.reply.StepReply.TheVariants.{Done};
ghost use Rattle.cany_model.specs.Runs.Run.{run, slot_reply};
ghost use Rattle.cany_model.specs.Bus.Slot.{after_slot, script as script_of};
ghost use Rattle.cany_world.specs.Kept.{AreControllersOf, CanRunNextSlot, CanRunSlot, StandFor};
ghost use Rattle.cany_world.specs.Replies.{IfDone};

use crate::incarnations::Incarnations;
use crate::restarting::restart_all;
use crate::unread::first_lagging;
use can_bus::Bus;
use can_controller::Controller;
use can_fault::Script;
use cany_base::{Params, Scenario};
use cany_model::StepReply;

/// The reply to the step, by how many slots ran and what the controllers have unread.
fn slot_reply(params: &Params, ran: u64, controllers: &[Controller]) -> StepReply
    requires { length controllers.now ≤ most_nodes }
    ensures { (scenario : ScenarioParts) (journal : List Step) → let s = run scenario journal in
        params.now ≡ scenario.params → ran ≡ length s.trace → AreControllersOf scenario s controllers.now → result ≡ slot_reply scenario s }
{
    if params.slots <= ran {
        return StepReply::Over {
            slots: params.slots,
        };
    }
    match first_lagging(params.lag, controllers) {
        Some((node, unread)) => StepReply::Lagging { node, unread },
        None => StepReply::Done,
    }
}

/// Runs the next slot, which is known to be one that can run, and then the restarts at its end.
pub(crate) fn run_next_slot(
    scenario: &Scenario,
    script: &Script,
    bus: &mut Bus,
    controllers: &mut [Controller],
    nodes: &mut [Incarnations],
)
    requires { CanRunNextSlot scenario.now script.now bus.old controllers.old nodes.old }

    // They stand for the state after the slot and its restarts.
    ensures { (journal : List Step) → let s = run scenario.now journal in
        StandFor scenario.now s bus.old controllers.old nodes.old → slot_reply scenario.now s ≡ Done
        → StandFor scenario.now (after_restarts scenario.now (after_slot (script_of scenario.now.rules) s)) bus.new controllers.new nodes.new }
{
    let slot = bus.trace().len() as u64;
    bus.slot(controllers, script);
    restart_all(scenario.restarts(), slot, controllers, nodes);
}

/// Runs the next slot, if it can run, and then the restarts at its end.
pub(crate) fn run_slot(
    scenario: &Scenario,
    script: &Script,
    bus: &mut Bus,
    controllers: &mut [Controller],
    nodes: &mut [Incarnations],
) -> StepReply
    requires { CanRunSlot scenario.now script.now bus.old controllers.old nodes.old }

    ensures reply { (journal : List Step) → let s = run scenario.now journal in
        StandFor scenario.now s bus.old controllers.old nodes.old → result ≡ slot_reply scenario.now s }

    // They stand for the state after the slot and its restarts.
    ensures done { (journal : List Step) → let s = run scenario.now journal in
        StandFor scenario.now s bus.old controllers.old nodes.old
        → IfDone result (StandFor scenario.now (after_restarts scenario.now (after_slot (script_of scenario.now.rules) s)) bus.new controllers.new nodes.new) (Unit {0}) }

    ensures refused { IfDone result (Unit {0}) ((bus.new ≡ bus.old) × (controllers.new ≡ controllers.old) × (nodes.new ≡ nodes.old)) }
{
    let slot = bus.trace().len() as u64;
    match slot_reply(scenario.params(), slot, controllers) {
        StepReply::Done => {
            run_next_slot(scenario, script, bus, controllers, nodes);
            StepReply::Done
        }
        refusal => refusal,
    }
}
