//! The scripted asks of a node: their cycles, their frames, and how these are withdrawn.

ghost use Rattle.std.specs.Prelude.{◌≡◌, ◌+◌, ◌<◌, ◌≤◌, [], ◌∷◌, ◌++◌, length, All, IfOk};
ghost use Rattle.cany_base.specs.Frame.{FitsClass};
ghost use Rattle.cany_base.specs.Layout.{layout};
ghost use Rattle.cany_base.specs.Limits.{most_numbers};
ghost use Rattle.cany_base.specs.Cycles.{cycle_of};
ghost use Rattle.cany_model.specs.Rules.Views.{ask_frame};
ghost use Rattle.cany_views.specs.Views.{asked_cycles};
ghost use Rattle.cany_views.specs.ViewsSteps.{withdrawals};

use cany_base::cycle::cycle_of;
use cany_base::{
    Actions, BoundedVec, Class, Format, Frame, Memory, NodeAsk, NodeId, Params, Payload,
};
use cany_message::withdraw;
use std::alloc::Global;

/// The cycles in which a node makes one of these asks, in file order.
pub(crate) fn asked_cycles(
    alloc: Global,
    params: &Params,
    node: NodeId,
    asks: &[NodeAsk],
) -> Result<BoundedVec<u16>, Memory>
    requires cycle { 0 < params.now.cycle }
    requires numbers { All (λ ask. cycle_of params.now ask.slot < most_numbers) asks.now }
    ensures { IfOk result (λ cycles. cycles.items ≡ asked_cycles params.now node asks.now) }
{
    let mut cycles = BoundedVec::build(alloc, asks.len())?;
    for ask in asks {
        push_asked(params, node, ask, &mut cycles);
    }
    Ok(cycles)
}

/// Appends the cycle of an ask, if it is one of the node.
fn push_asked(params: &Params, node: NodeId, ask: &NodeAsk, cycles: &mut BoundedVec<u16>)
    requires cycle { 0 < params.now.cycle }
    requires number { cycle_of params.now ask.now.slot < most_numbers }
    requires room { length cycles.old.items < cycles.old.room }
    ensures items { cycles.new.items ≡ cycles.old.items ++ asked_cycles params.now node (ask.now ∷ []) }
    ensures few { length cycles.new.items ≤ length cycles.old.items + 1 }
    ensures room { cycles.new.room ≡ cycles.old.room }
{
    if ask.node.get() == node.get() {
        cycles.push(cycle_of(params, ask.slot));
    }
}

/// The frame by which a node asks to join or to leave, in a cycle. It tells no incarnation: its
/// node does that.
pub(crate) fn ask_frame(class: Class, cycle: u16, node: NodeId) -> Frame
    requires { FitsClass class [] }
    ensures { result ≡ ask_frame class 0 cycle node }
{
    Frame {
        class,
        number: cycle,
        node,
        inc: 0,
        payload: Payload::empty(),
    }
}

/// The frames of a class by which a node may have asked in these cycles wait no longer.
pub(crate) fn withdraw_asks(
    format: Format,
    class: Class,
    node: NodeId,
    cycles: &[u16],
    out: &mut Actions,
)
    requires class { FitsClass class [] }
    requires node { node < (layout format).nodes }
    requires numbers { All (λ cycle. cycle < most_numbers) cycles.now }
    requires room { length out.old.items + length cycles.now ≤ out.old.room }
    ensures actions { out.new.items ≡ out.old.items ++ withdrawals format class node cycles.now }
    ensures few { length out.new.items ≤ length out.old.items + length cycles.now }
    ensures room { out.new.room ≡ out.old.room }
{
    for cycle in cycles {
        withdraw(format, &ask_frame(class, *cycle, node), true, out);
    }
}
