ghost use Rattle.std.specs.Prelude.{◌≡◌, ◌<◌, ◌≤◌, ◌+◌, ◌++◌, ℕ, length, filter, List, Contains};
ghost use Rattle.std.specs.List.{AllByRecursion};
ghost use Rattle.cany_base.specs.declared.format.Format.{Format};
ghost use Rattle.cany_base.specs.declared.notice.NoticeKind.{NoticeKind};
ghost use Rattle.cany_base.specs.Scenario.{ScenarioParts};
ghost use Rattle.cany_model.specs.Rules.Actions.{actions_of};
ghost use Rattle.cany_model.specs.Rules.Backlog.{joins_in};
ghost use Rattle.cany_model.specs.Rules.Messages.{Message, messages_of};
ghost use Rattle.cany_model.specs.Rules.Sends.{sendable};
ghost use Rattle.cany_node.specs.Agenda.{IsAgendaOf, asked_by, joined_by, message_from, sent_asks};
ghost use Rattle.cany_totcan.specs.Totcan.{IsTotcanOf};

use crate::agenda::{Agenda, Planned};
use cany_base::{Actions, MsgKey, NodeId, Service, Slot};
use cany_edcan::Edcan;
use cany_relcan::Relcan;
use cany_totcan::Totcan;

/// Hands a scripted send to its protocol.
fn send(
    node: NodeId,
    planned: &Planned,
    edcan: &mut Edcan,
    relcan: &mut Relcan,
    totcan: &mut Totcan,
    out: &mut Actions,
)
    requires room { length out.old.items < out.old.room }
    requires given { length totcan.old.backlog.given < totcan.old.backlog.room }
    requires own { planned.now.seq < length totcan.old.backlog.own }
    ensures asks { (format : Format) → out.new.items ≡ out.old.items ++ actions_of format (asked_by node planned.now) }
    ensures len { length out.new.items ≤ length out.old.items + 1 }
    ensures room { out.new.room ≡ out.old.room }
    ensures edcan { edcan.new ≡ edcan.old }
    ensures relcan { relcan.new ≡ relcan.old }
    ensures gives { (scenario : ScenarioParts) (past : List NoticeKind) (messages : List Message) (count : ℕ) → IsTotcanOf scenario node past messages count totcan.old →
        Contains (messages_of scenario.sends) (message_from node planned.now) →
        IsTotcanOf scenario node past (messages ++ joined_by node planned.now) count totcan.new }
    ensures given { length totcan.new.backlog.given ≤ length totcan.old.backlog.given + 1 }
    ensures spare { totcan.new.backlog.room ≡ totcan.old.backlog.room }
    ensures own { length totcan.new.backlog.own ≡ length totcan.old.backlog.own }
    ensures node { totcan.new.node ≡ totcan.old.node }
{
    let msg = MsgKey {
        origin: node,
        seq: planned.seq,
    };
    match planned.service {
        Service::Ed => edcan.send(msg, planned.payload, out),
        Service::Rel => relcan.send(msg, planned.payload, out),
        Service::Tot => totcan.send(msg, planned.payload),
    }
}

/// Hands the scripted sends of a slot to their protocols, in file order.
pub(crate) fn send_due(
    node: NodeId,
    slot: Slot,
    agenda: &mut Agenda,
    edcan: &mut Edcan,
    relcan: &mut Relcan,
    totcan: &mut Totcan,
    out: &mut Actions,
)
    requires room { length out.old.items + length agenda.old.left ≤ out.old.room }
    requires given { length totcan.old.backlog.given + length agenda.old.left ≤ totcan.old.backlog.room }
    requires own { AllByRecursion (λ p. p.seq < length totcan.old.backlog.own) agenda.old.left }
    ensures asks { (scenario : ScenarioParts) → IsAgendaOf scenario node slot agenda.old →
        out.new.items ≡ out.old.items ++ actions_of scenario.params.format (sent_asks node slot (sendable scenario slot)) }
    ensures gives { (scenario : ScenarioParts) (past : List NoticeKind) (messages : List Message) (count : ℕ) → IsAgendaOf scenario node slot agenda.old →
        IsTotcanOf scenario node past messages count totcan.old →
        IsTotcanOf scenario node past (messages ++ filter (joins_in node slot) (sendable scenario slot)) count totcan.new }
    ensures agenda { (scenario : ScenarioParts) → IsAgendaOf scenario node slot agenda.old → IsAgendaOf scenario node (slot + 1) agenda.new }
    ensures few { length out.new.items + length agenda.new.left ≤ length out.old.items + length agenda.old.left }
    ensures given { length totcan.new.backlog.given + length agenda.new.left ≤ totcan.new.backlog.room }
    ensures room { out.new.room ≡ out.old.room }
    ensures edcan { edcan.new ≡ edcan.old }
    ensures relcan { relcan.new ≡ relcan.old }
    ensures node { totcan.new.node ≡ totcan.old.node }
{
    while let Some(planned) = agenda.take_due(slot) {
        send(node, &planned, edcan, relcan, totcan, out);
    }
}
