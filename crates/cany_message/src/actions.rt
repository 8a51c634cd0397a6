ghost use Rattle.std.specs.Prelude.{◌≡◌, ◌+◌, ◌<◌, ◌≤◌, ◌++◌, length};
ghost use Rattle.can_frame.specs.Identifier.{HasSmallNumbers};
ghost use Rattle.cany_message.specs.Actions.{delivery_actions, relay_actions, withdraw_actions};
ghost use Rattle.cany_message.specs.Calls.{replied};
ghost use Rattle.cany_model.specs.Bus.Frames.{identity_of};
ghost use Rattle.cany_model.specs.Rules.Actions.{ident_of};

use crate::calls::{Reply, put_reply};
use can_frame::{identifier, small_numbers_fit};
use cany_base::{Action, Actions, Format, Frame, LogEntry, MsgKey, Service, Slot};
use cany_diffuse::Learnt;

/// Delivers the message of a data frame, or does nothing.
///
/// Promise: the delivery of the frame's message, by this service and in this slot, is appended
/// exactly where `delivers` is true. Nothing else is.
///
/// Shown by: `one_message_no_fault`, `delivers_by_another_service`.
pub fn deliver(service: Service, slot: Slot, frame: &Frame, delivers: bool, out: &mut Actions)
    requires { length out.old.items < out.old.room }
    ensures actions { out.new.items ≡ out.old.items ++ delivery_actions service slot delivers frame.now }
    ensures room { out.new.room ≡ out.old.room }
    ensures few { length out.new.items ≤ length out.old.items + 1 }
{
    if delivers {
        out.push(Action::Enter(LogEntry::Deliver {
            slot,
            service,
            msg: MsgKey {
                origin: frame.node,
                seq: frame.number,
            },
            payload: frame.payload,
        }));
    }
}

/// The identifier of a frame, in which no incarnation is named.
///
/// Promise: it is the identifier of the frame's identity in the format (`ident_of`).
///
/// Shown by: `withdraws_in_format_one`.
#[inline(never)]
pub fn identifier_without_incarnation(format: Format, frame: &Frame) -> u32
    requires { HasSmallNumbers format frame.now }
    ensures { result ≡ ident_of format (identity_of frame.now) }
{
    small_numbers_fit(format);
    let named = Frame { inc: 0, ..*frame };
    identifier(format, &named)
}

/// Withdraws the frames of this frame's identity, or does nothing. The format is that of the
/// scenario. No incarnation is named.
///
/// Promise: the withdrawal of the identity of the frame is appended exactly where `withdraws` is
/// true. Nothing else is.
///
/// Shown by: `stopped_node_is_removed`.
pub fn withdraw(format: Format, frame: &Frame, withdraws: bool, out: &mut Actions)
    requires small { HasSmallNumbers format frame.now }
    requires room { length out.old.items < out.old.room }
    ensures actions { out.new.items ≡ out.old.items ++ withdraw_actions format withdraws frame.now }
    ensures room { out.new.room ≡ out.old.room }
    ensures few { length out.new.items ≤ length out.old.items + 1 }
{
    if withdraws {
        out.push(Action::Withdraw {
            ident: identifier_without_incarnation(format, frame),
        });
    }
}

/// What a node does with a frame for what its copy calls for.
///
/// Promise: the answer is what eager diffusion does at a copy that calls for `learnt`
/// (`relay_actions`).
///
/// Answers: `Asks` exactly at `First`, `Nothing` exactly at `Again`, `Withdraws` exactly at
/// `Enough`.
///
/// Shown by: `one_copy_is_enough_without_omissions`, `relays_at_the_second_copy_too`.
#[inline(always)]
pub fn reply_to_copy(format: Format, learnt: &Learnt, frame: &Frame) -> Reply
    requires { HasSmallNumbers format frame.now }
    ensures { replied result frame.now ≡ relay_actions format learnt.now frame.now }
{
    match learnt {
        Learnt::First => Reply::Asks,
        Learnt::Again { .. } => Reply::Nothing,
        Learnt::Enough { .. } => Reply::Withdraws {
            ident: identifier_without_incarnation(format, frame),
        },
    }
}

/// Asks for a frame, withdraws it or does nothing, as its copy calls for.
///
/// Promise: the answer of `reply_to_copy` is appended as actions: the frame asked for, its identity
/// withdrawn, or nothing.
///
/// Shown by: `totcan_late_copy_moves_the_place`.
pub fn relay(format: Format, learnt: &Learnt, frame: &Frame, out: &mut Actions)
    requires small { HasSmallNumbers format frame.now }
    requires room { length out.old.items < out.old.room }
    ensures actions { out.new.items ≡ out.old.items ++ relay_actions format learnt.now frame.now }
    ensures room { out.new.room ≡ out.old.room }
    ensures few { length out.new.items ≤ length out.old.items + 1 }
{
    let reply = reply_to_copy(format, learnt, frame);
    put_reply(reply, frame, out);
}
