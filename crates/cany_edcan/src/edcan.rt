ghost use Rattle.std.specs.Prelude.{◌≡◌, ℕ, ◌+◌, ◌<◌, ◌≤◌, ◌==◌, ◌&&◌, [], ◌∷◌, ◌++◌, not, length, List, replicate, IfOk};
ghost use Rattle.can_frame.specs.Identifier.{HasSmallNumbers};
ghost use Rattle.cany_base.specs.declared.actions.Action.TheVariants as action;
ghost use Rattle.cany_base.specs.declared.class.Class.TheVariants as class;
ghost use Rattle.cany_base.specs.declared.message.Service.TheVariants as service;
ghost use Rattle.cany_base.specs.declared.notice.NoticeKind.{NoticeKind};
ghost use Rattle.cany_base.specs.declared.notice.NoticeKind.TheVariants.{Idle};
ghost use Rattle.cany_base.specs.Frame.{FrameParts};
ghost use Rattle.cany_base.specs.Limits.{most_nodes};
ghost use Rattle.cany_base.specs.Scenario.{ScenarioParts};
ghost use Rattle.cany_diffuse.specs.Eager.{copies_of, is_owned, learnt_of, IsCounted, IsLearnt, IsOwned};
ghost use Rattle.cany_message.specs.declared.calls.Reply.TheVariants as reply;
ghost use Rattle.cany_message.specs.Actions.{delivery_actions, relay_actions};
ghost use Rattle.cany_message.specs.Calls.{actions_called, replied};
ghost use Rattle.cany_message.specs.Numbers.{frame_number};
ghost use Rattle.cany_message.specs.Table.{CanTake};
ghost use Rattle.cany_model.specs.Rules.Actions.{actions_of};
ghost use Rattle.cany_model.specs.Rules.Edcan.{edcan_effects};
ghost use Rattle.cany_model.specs.Rules.Notices.{IsNextNotice};
ghost use Rattle.cany_edcan.specs.Edcan.{IsEdcanOf, CanRead};
ghost use Rattle.cany_edcan.specs.EdcanSteps.{holds_own, was_delivered};

use crate::data::{Data, is_data};
use cany_base::{
    Action, Actions, Format, Frame, Memory, MsgKey, NodeId, Notice, NoticeKind, Payload, Scenario,
    Service,
};
use cany_diffuse::{Diffused, Eager};
use cany_message::{Calls, Reply, put, reply_to_copy, sends_by};
use std::alloc::Global;
use std::marker::Model;

/// EDCAN at one node: which messages it delivered, and the copies of each data frame.
///
/// This project's own rule. A node delivers a message at its first copy of the data frame, or at
/// its own transmission if it is the origin, and every node relays data frames by eager diffusion.
#[derive(Drop)]
pub struct Edcan {
    node: NodeId,
    /// The scenario's, in which a withdrawal names its frame.
    format: Format,
    copies: Eager<Data>,
}

impl Model for Edcan {
    ghost use Rattle.cany_edcan.specs.Edcan.{EdcanParts};

    ghost Value = { EdcanParts };

    ghost view = { λ e. record { node = e.node; format = e.format; copies = e.copies } };
}

impl Edcan {
    /// The EDCAN of a node that has read nothing, or only notices of idle slots, with room for all
    /// messages of the scenario that are by EDCAN.
    ///
    /// Promise: the value stands for each history of idle slots alone, the empty one too.
    ///
    /// Shown by: `one_message_no_fault`.
    ///
    /// # Errors
    ///
    /// `Memory`: out of memory.
    pub fn build(alloc: Global, node: NodeId, scenario: &Scenario) -> Result<Edcan, Memory>
        requires { node < scenario.now.params.nodes }
        ensures { IfOk result (λ edcan. (n : ℕ) → IsEdcanOf scenario.now node (replicate n Idle) edcan) }
    {
        let params = *scenario.params();
        let room = sends_by(scenario, Service::Ed);
        let copies = Eager::build(alloc, params.omit, room)?;
        Ok(Edcan {
            node,
            format: params.format,
            copies,
        })
    }

    /// The node, which is the origin, sends the message: it asks for its data frame.
    ///
    /// Promise: the ask for the data frame of this message is appended, and nothing else changes.
    ///
    /// Shown by: `one_message_no_fault`, `send_asks_for_nothing`.
    pub fn send(&mut self, msg: MsgKey, payload: Payload, out: &mut Actions)
        requires { length out.old.items < out.old.room }
        ensures state { self.new ≡ self.old }
        ensures asks { let f : FrameParts = record { class = class.Ed; number = msg.seq; node = msg.origin; inc = 0; payload = payload } in
            out.new ≡ record out.old { items = out.old.items ++ action.Ask f ∷ [] } }
    {
        let data = Data::new(msg, payload);
        out.push(Action::Ask(data.form()));
    }

    /// What EDCAN does at a notice, as `hear` has it, appended to the actions.
    ///
    /// At most two actions are appended.
    ///
    /// Promise: whatever history the value stands for, and whichever notice can come next, exactly
    /// the actions of the definition are appended (`edcan_effects`). The value then stands for the
    /// longer history.
    ///
    /// Shown by: `stopped_node_is_removed`, `delivers_as_relcan`.
    pub fn on(&mut self, notice: &Notice, out: &mut Actions)
        requires reads { CanRead self.old notice.now }
        requires room { length out.old.items + 2 ≤ out.old.room }
        ensures actions { (scenario : ScenarioParts) (past : List NoticeKind) → IsEdcanOf scenario self.old.node past self.old → IsNextNotice scenario past notice.now
            → out.new.items ≡ out.old.items ++ actions_of scenario.params.format (edcan_effects scenario self.old.node (notice.now.kind ∷ past)) }
        ensures stands { (scenario : ScenarioParts) (past : List NoticeKind) → IsEdcanOf scenario self.old.node past self.old → IsNextNotice scenario past notice.now
            → IsEdcanOf scenario self.old.node (notice.now.kind ∷ past) self.new }
        ensures few { length out.new.items ≤ length out.old.items + 2 }
        ensures room { out.new.room ≡ out.old.room }
    {
        let calls = self.hear(notice);
        put(Service::Ed, &calls, notice, out);
    }

    /// What a notice calls for. The notices of the slots before the first that a value is given
    /// count as idle ones.
    ///
    /// Promise: whatever history the value stands for, and whichever notice can come next, the
    /// answer calls for exactly the actions of the definition (`edcan_effects`). The value then
    /// stands for the longer history.
    ///
    /// Shown by: `one_message_no_fault`, `a_relay_delivers_at_its_own_transmission`,
    /// `delivers_at_each_copy`, `hears_frames_of_other_classes`, `never_relays`,
    /// `own_transmission_is_not_noted`, `the_origin_does_not_deliver_its_own`.
    // A hint, since a node makes most of these calls in one place.
    #[inline(always)]
    pub fn hear(&mut self, notice: &Notice) -> Calls
        requires { CanRead self.old notice.now }
        ensures actions { (scenario : ScenarioParts) (past : List NoticeKind) → IsEdcanOf scenario self.old.node past self.old → IsNextNotice scenario past notice.now
            → actions_called service.Ed notice.now result ≡ actions_of scenario.params.format (edcan_effects scenario self.old.node (notice.now.kind ∷ past)) }
        ensures stands { (scenario : ScenarioParts) (past : List NoticeKind) → IsEdcanOf scenario self.old.node past self.old → IsNextNotice scenario past notice.now
            → IsEdcanOf scenario self.old.node (notice.now.kind ∷ past) self.new }
    {
        match &notice.kind {
            NoticeKind::Got(frame) => {
                if is_data(frame) {
                    self.on_copy(frame)
                } else {
                    Calls::NOTHING
                }
            }
            NoticeKind::Sent(frame) => {
                if is_data(frame) {
                    self.on_own(frame)
                } else {
                    Calls::NOTHING
                }
            }
            NoticeKind::Idle => Calls::NOTHING,
            NoticeKind::Bad => Calls::NOTHING,
        }
    }

    /// A copy of a data frame: the message is delivered if none was before, and the frame is
    /// relayed. A node that is not the origin knows from the count alone.
    #[inline(always)]
    fn on_copy(&mut self, frame: &Frame) -> Calls
        requires small { HasSmallNumbers self.old.format frame.now }
        requires takes { CanTake (frame_number frame.now) self.old.copies }
        ensures learnt { IsLearnt (frame_number frame.now) self.old.copies self.new.copies }
        ensures state { self.new ≡ record self.old { copies = self.new.copies } }
        ensures in_range { frame.now.node < most_nodes }
        ensures delivers { result.delivers ≡ not (was_delivered self.old frame.now) }
        ensures reply { let learnt = learnt_of self.old.copies.omit (copies_of self.new.copies (frame_number frame.now)) (is_owned self.old.copies (frame_number frame.now)) in
            replied result.reply frame.now ≡ relay_actions self.old.format learnt frame.now }
    {
        let was_held = self.holds_own(frame);
        let learnt = self.copies.learn(Data::of(frame));
        let is_new = learnt.is_first_copy() && !was_held;
        Calls {
            delivers: is_new,
            reply: reply_to_copy(self.format, &learnt, frame),
        }
    }

    /// The node's own transmission of a data frame: the message is delivered if the node is its
    /// origin and none was before.
    #[inline(always)]
    fn on_own(&mut self, frame: &Frame) -> Calls
        requires takes { CanTake (frame_number frame.now) self.old.copies }
        ensures owned { IsOwned (frame_number frame.now) self.old.copies self.new.copies }
        ensures state { self.new ≡ record self.old { copies = self.new.copies } }
        ensures in_range { frame.now.node < most_nodes }
        ensures delivers { result.delivers ≡ (frame.now.node == self.old.node && not (was_delivered self.old frame.now)) }
        ensures reply { result.reply ≡ reply.Nothing }
    {
        let was_held = self.holds_own(frame);
        let delivers = frame.node.get() == self.node.get() && !was_held;
        self.copies.own(Data::of(frame));
        Calls {
            delivers,
            reply: Reply::Nothing,
        }
    }

    /// Whether the node is the origin of a data frame and has noted a copy or its own transmission.
    /// At other nodes nothing is looked up.
    fn holds_own(&self, frame: &Frame) -> bool
        ensures held { result ≡ holds_own self.now frame.now }
        ensures in_range { frame.now.node < most_nodes }
        ensures counted { IsCounted self.now.copies }
    {
        // Called for what it ensures: no key is there twice, so there is room for the frame's.
        let _spare = self.copies.spare();
        let data = Data::of(frame);
        frame.node.get() == self.node.get() && self.copies.holds(&data)
    }
}
