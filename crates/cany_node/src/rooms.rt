ghost use Rattle.std.specs.Prelude.{◌≡◌, ◌/◌, ◌^◌, ◌<◌, ◌≤◌};
ghost use Rattle.cany_base.specs.Limits.{most_slots};
ghost use Rattle.cany_model.specs.Rules.Rooms as rooms;

use cany_base::{Params, Scenario};

/// How many membership cycles start after slot 0.
fn cycles(params: &Params) -> usize
    ensures cycles { result ≡ params.now.slots / params.now.cycle }
    ensures few { result ≤ most_slots }
{
    (params.slots / params.cycle) as usize
}

/// How many frames may wait at a node in a run of the scenario.
///
/// Promise: the number is that of the definition, and fits 32 bits.
///
/// Shown by: `three_services`, `restart_joins`.
pub fn waiting_room(scenario: &Scenario) -> usize
    ensures room { result ≡ rooms.waiting_room scenario.now }
    ensures few { result < 2 ^ 32 }
{
    let params = scenario.params();
    let nodes = usize::from(params.nodes);
    // of each send the data frame, and one that confirms or accepts it
    2 * scenario.sends().len()
        // a vector of each cycle, and a failure sign of each node in it: one cycle starts in slot
        // 0, and one is to spare
        + (nodes + 1) * (cycles(params) + 2)
        // of each join and leave its frame
        + (scenario.joins().len() + scenario.leaves().len())
        // two life signs, and two to spare
        + 4
}

/// How many actions a turn may have in a run of the scenario.
///
/// Promise: the number is that of the definition.
///
/// Shown by: `three_services`, `restart_joins`.
pub fn actions_room(scenario: &Scenario) -> usize
    ensures { result ≡ rooms.actions_room scenario.now }
{
    // above what the rules list in a turn of any scenario (`actions_within`), and the rest is to
    // spare
    4 * waiting_room(scenario)
}

/// How many entries the log of a node may have in a run of the scenario.
pub(crate) fn log_room(scenario: &Scenario) -> usize
    ensures { result ≡ rooms.log_room scenario.now }
{
    let params = scenario.params();
    let cycles = cycles(params);
    // of each message one delivery, of each cycle one view, and of each node one failure in a cycle
    scenario.sends().len() + cycles + usize::from(params.nodes) * (cycles + 1)
}
