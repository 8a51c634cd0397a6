ghost use Rattle.std.specs.Prelude.{◌≡◌, ◌≤◌, [], ◌∷◌, All};
ghost use Rattle.can_frame.specs.Identifier.{FitsIdentifier};
ghost use Rattle.cany_base.specs.Limits.{most_restarts_of_node};
ghost use Rattle.cany_message.specs.Actions.{delivery_actions};
ghost use Rattle.cany_message.specs.Calls.{actions_called, frame_actions, replied};
ghost use Rattle.cany_model.specs.Rules.Actions.{action_of};
ghost use Rattle.cany_model.specs.Rules.Effect.{Effect};
ghost use Rattle.cany_node.specs.Apply.{AreApplied, AreDone, CanApply, CanDo, WithdrawsFitting, all_stamped};
ghost use Rattle.cany_node.specs.Stamping.{AreStamped};

use crate::stamping::{ident_with, with_incarnation};
use can_controller::Controller;
use can_controller::laws::{frames_ascend, frames_fit};
use cany_base::{
    Action, Actions, BoundedVec, Frame, LogEntry, MsgKey, Notice, NoticeKind, Service, Slot,
};
use cany_message::{Calls, Reply, confirmation_frame};

/// Does one action of an incarnation on the controller or the log.
// A hint, as of `apply_all`.
#[inline(always)]
fn apply(action: &Action, inc: u8, ctl: &mut Controller, log: &mut BoundedVec<LogEntry>)
    requires number { inc ≤ most_restarts_of_node }
    requires can { CanDo inc action.now ctl.old log.old }
    requires fit { All (FitsIdentifier ctl.old.params.format) ctl.old.waiting }
    ensures { (effect : Effect) → action_of ctl.old.params.format effect ≡ action.now → WithdrawsFitting ctl.old.params.format effect → AreStamped inc ctl.old.waiting →
        AreDone (all_stamped inc (effect ∷ [])) ctl.old ctl.new log.old log.new }
{
    match action {
        Action::Ask(frame) => ctl.ask(with_incarnation(frame, inc)),
        Action::Withdraw { ident } => ctl.withdraw(ident_with(*ident, inc)),
        Action::Enter(entry) => log.push_copy(entry),
    }
}

/// Does one action of an incarnation, as one of a list.
#[inline(always)]
fn apply_one(action: &Action, inc: u8, ctl: &mut Controller, log: &mut BoundedVec<LogEntry>)
    requires { CanApply inc (action.now ∷ []) ctl.old log.old }
    ensures { AreApplied inc (action.now ∷ []) ctl.old ctl.new log.old log.new }
{
    frames_ascend(ctl);
    frames_fit(ctl);
    apply(action, inc, ctl, log);
}

/// Enters the delivery of a message in the log, or does nothing.
#[inline(always)]
fn apply_delivery(
    by: Service,
    slot: Slot,
    frame: &Frame,
    delivers: bool,
    inc: u8,
    ctl: &mut Controller,
    log: &mut BoundedVec<LogEntry>,
)
    requires { CanApply inc (delivery_actions by slot delivers frame.now) ctl.old log.old }
    ensures { AreApplied inc (delivery_actions by slot delivers frame.now) ctl.old ctl.new log.old log.new }
{
    if !delivers {
        return;
    }
    let entry = LogEntry::Deliver {
        slot,
        service: by,
        msg: MsgKey {
            origin: frame.node,
            seq: frame.number,
        },
        payload: frame.payload,
    };
    apply_one(&Action::Enter(entry), inc, ctl, log);
}

/// Asks for a frame or for the confirmation of its message, withdraws the frame or does nothing.
#[inline(always)]
fn apply_reply(
    reply: Reply,
    frame: &Frame,
    inc: u8,
    ctl: &mut Controller,
    log: &mut BoundedVec<LogEntry>,
)
    requires { CanApply inc (replied reply frame.now) ctl.old log.old }
    ensures { AreApplied inc (replied reply frame.now) ctl.old ctl.new log.old log.new }
{
    match reply {
        Reply::Nothing => {}
        Reply::Asks => apply_one(&Action::Ask(*frame), inc, ctl, log),
        Reply::Confirms => apply_one(&Action::Ask(confirmation_frame(frame)), inc, ctl, log),
        Reply::Withdraws { ident } => apply_one(&Action::Withdraw { ident }, inc, ctl, log),
    }
}

/// Does what a frame in a slot calls for by a service.
#[inline(always)]
fn apply_frame(
    by: Service,
    calls: &Calls,
    slot: Slot,
    frame: &Frame,
    inc: u8,
    ctl: &mut Controller,
    log: &mut BoundedVec<LogEntry>,
)
    requires { CanApply inc (frame_actions by slot calls.now frame.now) ctl.old log.old }
    ensures { AreApplied inc (frame_actions by slot calls.now frame.now) ctl.old ctl.new log.old log.new }
{
    apply_delivery(by, slot, frame, calls.delivers, inc, ctl, log);
    apply_reply(calls.reply, frame, inc, ctl, log);
}

/// Does what a notice calls for by a service, without a list of actions.
#[inline(always)]
pub(crate) fn apply_called(
    by: Service,
    calls: &Calls,
    notice: &Notice,
    inc: u8,
    ctl: &mut Controller,
    log: &mut BoundedVec<LogEntry>,
)
    requires { CanApply inc (actions_called by notice.now calls.now) ctl.old log.old }
    ensures { AreApplied inc (actions_called by notice.now calls.now) ctl.old ctl.new log.old log.new }
{
    match &notice.kind {
        NoticeKind::Got(frame) => apply_frame(by, calls, notice.slot, frame, inc, ctl, log),
        NoticeKind::Sent(frame) => apply_frame(by, calls, notice.slot, frame, inc, ctl, log),
        NoticeKind::Idle => {}
        NoticeKind::Bad => {}
    }
}

/// Does the actions of an incarnation in their order. Each frame that they ask for or withdraw
/// tells it, if frames of its class do.
// A hint, since a node makes most of these calls in one place.
#[inline(always)]
pub(crate) fn apply_all(
    out: &Actions,
    inc: u8,
    ctl: &mut Controller,
    log: &mut BoundedVec<LogEntry>,
)
    requires { CanApply inc out.now.items ctl.old log.old }
    ensures { AreApplied inc out.now.items ctl.old ctl.new log.old log.new }
{
    let actions = out.as_slice();
    for action in actions {
        frames_ascend(ctl);
        frames_fit(ctl);
        apply(action, inc, ctl, log);
    }
}
