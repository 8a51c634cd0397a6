//! What no clause says of `crew_run` and of its yard, and no trial of the command shows: where a
//! run is held, and that the close keeps the steps as they were made.
ghost use Rattle.std.specs.Prelude.{◌≡◌, [], IfOk};

use cany_base::{Memory, NodeSet, Params, Scenario};
use cany_world::World;
use std::alloc::Global;

mod gates;
mod yard;

/// Three nodes, five slots, and nothing scripted.
fn three_nodes(alloc: Global) -> Result<World, Memory>
    ensures fresh { IfOk result (λ world. world.journal ≡ []) }
    ensures nodes { IfOk result (λ world. world.scenario.params.nodes ≡ 3) }
{
    let scenario = Scenario::of_parts(
        Params::with_defaults(3, 5),
        NodeSet::all(3),
        Vec::new(alloc),
        Vec::new(alloc),
        Vec::new(alloc),
        Vec::new(alloc),
        Vec::new(alloc),
        None,
    );
    World::build(alloc, &scenario)
}
