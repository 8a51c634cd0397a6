ghost use Rattle.std.specs.Prelude.{◌≡◌};
ghost use Rattle.cany_model.specs.Rules.Rooms as rooms;

use cany_base::{Scenario, Service};

/// How many messages of a scenario are by a service: one of each scripted send by it.
///
/// Promise: the number of the scenario's messages by this service.
///
/// Shown by: `sends_of_other_services_are_counted`.
#[tactic(auto, unfolding(cany_model::specs::Rules::Messages::is_service, cany_model::specs::Bus::Frames::same_class))]
pub fn sends_by(scenario: &Scenario, service: Service) -> usize
    ensures { result ≡ rooms.sends_by scenario.now service }
{
    scenario.sends_by(service)
}
