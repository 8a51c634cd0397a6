ghost use Rattle.std.specs.Prelude.{◌<◌, IfOk};
ghost use Rattle.cany_node.specs.Protocols.{AreAllButEdcanAtRest, AreAtRest, AreMembershipAndRelcanAtRest};

use crate::membership::Membership;
use cany_base::{Memory, NodeId, Scenario};
use cany_edcan::Edcan;
use cany_relcan::Relcan;
use cany_totcan::Totcan;
use std::alloc::Global;

/// What is kept of the site, and RELCAN, as they are built.
#[derive(Drop)]
pub(crate) struct MembershipAndRelcan {
    pub(crate) membership: Membership,
    pub(crate) relcan: Relcan,
}

/// Those and TOTCAN, as they are built.
#[derive(Drop)]
pub(crate) struct AllButEdcan {
    pub(crate) totcan: Totcan,
    pub(crate) others: MembershipAndRelcan,
}

/// The protocols of a node, as they are built.
///
/// Each is built before all that come after it, and RELCAN, which has most parts, last: how a value
/// is let go where the memory of the next is wanting is proved part by part at each such place, and
/// so each of these places lets go of one protocol alone.
#[derive(Drop)]
pub(crate) struct Protocols {
    pub(crate) edcan: Edcan,
    pub(crate) others: AllButEdcan,
}

/// The membership and RELCAN of such a node as `build_protocols` says.
fn build_membership_and_relcan(
    alloc: Global,
    node: NodeId,
    scenario: &Scenario,
) -> Result<MembershipAndRelcan, Memory>
    requires { node < scenario.now.params.nodes }
    ensures { IfOk result (AreMembershipAndRelcanAtRest scenario.now node) }
{
    let membership = Membership::build(alloc, node, scenario)?;
    let relcan = Relcan::build(alloc, node, scenario)?;
    Ok(MembershipAndRelcan { membership, relcan })
}

/// Those and TOTCAN, likewise.
fn build_all_but_edcan(
    alloc: Global,
    node: NodeId,
    scenario: &Scenario,
) -> Result<AllButEdcan, Memory>
    requires { node < scenario.now.params.nodes }
    ensures { IfOk result (AreAllButEdcanAtRest scenario.now node) }
{
    let totcan = Totcan::build(alloc, node, scenario)?;
    let others = build_membership_and_relcan(alloc, node, scenario)?;
    Ok(AllButEdcan { totcan, others })
}

/// Those of a node that has read nothing, or only notices of idle slots.
pub(crate) fn build_protocols(
    alloc: Global,
    node: NodeId,
    scenario: &Scenario,
) -> Result<Protocols, Memory>
    requires { node < scenario.now.params.nodes }
    ensures { IfOk result (AreAtRest scenario.now node) }
{
    let edcan = Edcan::build(alloc, node, scenario)?;
    let others = build_all_but_edcan(alloc, node, scenario)?;
    Ok(Protocols { edcan, others })
}
