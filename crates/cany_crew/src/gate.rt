ghost use Rattle.std.specs.Prelude.{◌≡◌, ℕ, ◌<◌, ◌≤◌, Option, Some, true, false, map, length};
ghost use Rattle.cany_crew.specs.Gates.{IsHeldAt, NoneFell};
ghost use Rattle.cany_io.specs.Faults.{HasRisen};

use cany_base::{NodeId, Slot};

/// What lets a node take its turn. Each node has a gate of its own, which its worker holds while it
/// runs, in whatever thread.
pub trait Gate: Send + Drop {
    /// How often a pass was refused. It never falls, and stands still at the last number of 64
    /// bits.
    ghost refusals: { Self → ℕ };

    /// For which slot a pass was refused last.
    ghost refused_at: { Self → Option ℕ };

    /// Whether the node may take its next turn, the one that reads this slot or, after a restart, a
    /// later one. The gate may take its time before it answers.
    ///
    /// Promise: the count never falls. It stays as it was where the pass is granted. Where the pass
    /// is refused, its slot is noted as the last that was refused.
    ///
    /// Answers: true only where the count stayed as it was. false only where the count rose.
    ///
    /// Shown by: `gates_overlap_and_one_refuses`, `a_gate_refuses`, `gates_overlap`,
    /// `threads_replay`.
    fn pass(&mut self, node: NodeId, slot: Slot) -> bool
        ensures count { refusals self.old ≤ refusals self.new }
        ensures passed { result ≡ true → refusals self.new ≡ refusals self.old }
        ensures refused { result ≡ false → HasRisen (refusals self.old) (refusals self.new) }
        ensures slot { result ≡ false → refused_at self.new ≡ Some slot };
}

/// Asks the gate of the node.
pub(crate) fn ask<G: Gate>(gates: &mut [G], node: NodeId, slot: Slot) -> bool
    requires { node < length gates.old }
    ensures passed { result ≡ true → map G.refusals gates.new ≡ map G.refusals gates.old }
    ensures refused { result ≡ false →
        IsHeldAt node slot (map G.refusals gates.old) (map G.refusals gates.new) (map G.refused_at gates.new) }
    ensures count { NoneFell (map G.refusals gates.old) (map G.refusals gates.new) }
{
    let gate = &mut gates[usize::from(node.get())];
    gate.pass(node, slot)
}
