ghost use Rattle.std.specs.Prelude.{◌≡◌, ◌+◌, ◌<◌, ◌≤◌, ◌++◌, length};
ghost use Rattle.cany_message.specs.Calls.{actions_called, frame_actions, replied};
ghost use Rattle.cany_model.specs.Rules.Relcan.{confirm_frame};

use crate::actions::deliver;
use crate::frame::bare_frame;
use cany_base::{Action, Actions, Class, Frame, Notice, NoticeKind, Service, Slot};

/// What a node does with a data frame that it reads, or for its message.
#[derive(Clone, Copy)]
pub enum Reply {
    /// Nothing.
    Nothing,
    /// The frame is asked for.
    Asks,
    /// The confirmation of its message is asked for.
    Confirms,
    /// The frame is withdrawn, under this identifier.
    Withdraws { ident: u32 },
}

/// What a notice calls for at a node, of the data frame that it brings: a delivery first, and then
/// a reply. It stands for a list of actions, and is no list, since a node reads more of such frames
/// than of all others.
#[derive(Clone, Copy)]
pub struct Calls {
    /// Whether the message of the frame is delivered.
    pub delivers: bool,
    /// What the node does after the delivery.
    pub reply: Reply,
}

impl Calls {
    /// Of a notice that calls for nothing.
    pub const NOTHING: Calls = Calls {
        delivers: false,
        reply: Reply::Nothing,
    };
}

/// The frame that confirms the message of a data frame.
///
/// Promise: it is the frame of the class CONFIRM with this number and node, without bytes.
///
/// Shown by: `relcan_falls_back`.
pub fn confirmation_frame(frame: &Frame) -> Frame
    ensures { result ≡ confirm_frame frame.now }
{
    bare_frame(Class::Confirm, frame)
}

/// Appends what a notice calls for by a service to the actions.
///
/// Promise: exactly what is called for by this service is appended, at most two actions. First
/// comes the delivery of the message of the notice's frame, and then the frame or its confirmation
/// asked for, the frame withdrawn, or nothing.
///
/// Shown by: `stopped_node_is_removed`.
pub fn put(service: Service, calls: &Calls, notice: &Notice, out: &mut Actions)
    requires { length out.old.items + 2 ≤ out.old.room }
    ensures actions { out.new.items ≡ out.old.items ++ actions_called service notice.now calls.now }
    ensures room { out.new.room ≡ out.old.room }
    ensures few { length out.new.items ≤ length out.old.items + 2 }
{
    match &notice.kind {
        NoticeKind::Got(frame) => put_of(service, calls, notice.slot, frame, out),
        NoticeKind::Sent(frame) => put_of(service, calls, notice.slot, frame, out),
        NoticeKind::Idle => {}
        NoticeKind::Bad => {}
    }
}

/// The same of a frame.
fn put_of(service: Service, calls: &Calls, slot: Slot, frame: &Frame, out: &mut Actions)
    requires { length out.old.items + 2 ≤ out.old.room }
    ensures actions { out.new.items ≡ out.old.items ++ frame_actions service slot calls.now frame.now }
    ensures room { out.new.room ≡ out.old.room }
    ensures few { length out.new.items ≤ length out.old.items + 2 }
{
    deliver(service, slot, frame, calls.delivers, out);
    put_reply(calls.reply, frame, out);
}

/// Appends the reply to a frame to the actions.
#[inline(always)]
pub(crate) fn put_reply(reply: Reply, frame: &Frame, out: &mut Actions)
    requires { length out.old.items < out.old.room }
    ensures actions { out.new.items ≡ out.old.items ++ replied reply frame.now }
    ensures room { out.new.room ≡ out.old.room }
    ensures few { length out.new.items ≤ length out.old.items + 1 }
{
    match reply {
        Reply::Nothing => {}
        Reply::Asks => out.push(Action::Ask(*frame)),
        Reply::Confirms => out.push(Action::Ask(confirmation_frame(frame))),
        Reply::Withdraws { ident } => out.push(Action::Withdraw { ident }),
    }
}
