//! Whether nothing more is to come of a message.
ghost use Rattle.std.specs.Prelude.{◌≡◌, ℕ, ◌<◌, ◌&&◌, [], false, List, length, not, Contains};
ghost use Rattle.std.specs.List.{list_all, list_any};
ghost use Rattle.cany_base.specs.declared.step.Step.{Step};
ghost use Rattle.cany_base.specs.Frame.{FitsClass, has_incarnation};
ghost use Rattle.cany_base.specs.Scenario.{ScenarioParts};
ghost use Rattle.cany_model.specs.Runs.Run.{run};
ghost use Rattle.cany_model.specs.Bus.State.{RunState, node_at};
ghost use Rattle.cany_model.specs.Bus.Waiting.{waits};
ghost use Rattle.cany_model.specs.Promises.Settled.{is_ahead, is_settled};
ghost use Rattle.cany_model.specs.Rules.Messages.{Message, frames_named, message_key, messages_of};
ghost use Rattle.cany_world.specs.Controllers.{HaveFormat, IsSmallKey, awaits, has_read};
ghost use Rattle.cany_world.specs.Kept.{IsKeptAs, IsKeptAt};
ghost use Rattle.cany_world.specs.Settled.{IsAbout, is_asked, has_ahead};

use crate::incarnations::Incarnations;
use crate::unread::{all_read, none_has_anything_to_do};
use can_controller::Controller;
use can_frame::{identifier, small_numbers_fit};
use cany_base::{Class, Format, Frame, MsgKey, Payload, SendAsk, Service, Slot};

/// Whether a frame of this class and of the message's number and node waits.
fn waits(format: Format, class: Class, key: &MsgKey, controller: &Controller) -> bool
    requires class { FitsClass class [] }
    requires plain { has_incarnation class ≡ false }
    requires key { IsSmallKey format key.now }
    requires format { controller.now.params.format ≡ format }
    ensures { result ≡ waits (record { class = class; number = key.now.seq; node = key.now.origin }) controller.now.waiting }
{
    let frame = Frame {
        class,
        number: key.seq,
        node: key.origin,
        inc: 0,
        payload: Payload::empty(),
    };
    small_numbers_fit(format);
    controller.waits(identifier(format, &frame))
}

/// Whether the controller runs and waits with the data of the message, or with a frame that
/// confirms or accepts it.
pub(crate) fn awaits(
    format: Format,
    service: Service,
    key: &MsgKey,
    controller: &Controller,
) -> bool
    requires key { IsSmallKey format key.now }
    requires format { controller.now.params.format ≡ format }
    ensures { result ≡ awaits (frames_named service key.now) controller.now }
{
    // At the end of most runs nothing waits.
    if controller.stopped().is_some() || controller.has_nothing_to_do() {
        return false;
    }
    waits(format, service.class(), key, controller)
        || waits(format, Class::Confirm, key, controller)
        || waits(format, Class::Accept, key, controller)
}

/// Whether a running node waits with a frame of the message.
fn is_awaited(format: Format, service: Service, key: &MsgKey, controllers: &[Controller]) -> bool
    requires key { IsSmallKey format key.now }
    requires format { HaveFormat format controllers.now }
    ensures { result ≡ list_any (awaits (frames_named service key.now)) controllers.now }
{
    for i in 0..controllers.len() {
        if awaits(format, service, key, &controllers[i]) {
            return true;
        }
    }
    false
}

/// Whether no running node waits with a frame of the message or has an unread notice.
fn nobody_waits_and_all_read(
    format: Format,
    service: Service,
    key: &MsgKey,
    controllers: &[Controller],
) -> bool
    requires key { IsSmallKey format key.now }
    requires format { HaveFormat format controllers.now }
    ensures { result ≡ (not (list_any (awaits (frames_named service key.now)) controllers.now) && list_all has_read controllers.now) }
{
    // At the end of most runs none has anything to do.
    none_has_anything_to_do(controllers)
        || (!is_awaited(format, service, key, controllers) && all_read(controllers))
}

/// Whether the node is the origin of the message and has asked for it, has stopped, or came too
/// late for it.
fn has_asked(key: &MsgKey, slot: Slot, controller: &Controller, node: &Incarnations) -> bool
    ensures { (scenario : ScenarioParts) (journal : List Step) (m : Message) → let s = run scenario journal in
        IsKeptAs scenario s.trace m.origin (node_at s.nodes m.origin) controller.now → IsKeptAt scenario s.trace m.origin (node_at s.nodes m.origin) node.now
        → Contains (messages_of scenario.sends) m → message_key m ≡ key.now → m.slot ≡ slot → result ≡ is_asked scenario s m }
{
    if node.node().asked(*key) {
        return true;
    }
    controller.stopped().is_some() || node.came_after(slot)
}

/// Whether the origin of the message has asked for it, has stopped, or came too late for it.
pub(crate) fn is_asked(
    key: &MsgKey,
    slot: Slot,
    controllers: &[Controller],
    nodes: &[Incarnations],
) -> bool
    requires count { length controllers.now ≡ length nodes.now }
    requires origin { key.now.origin < length controllers.now }
    ensures { (scenario : ScenarioParts) (journal : List Step) (m : Message) → IsAbout scenario journal m key.now controllers.now nodes.now
        → m.slot ≡ slot → result ≡ is_asked scenario (run scenario journal) m }
{
    let origin = usize::from(key.origin.get());
    has_asked(key, slot, &controllers[origin], &nodes[origin])
}

/// Whether the node runs and has something of the message ahead.
pub(crate) fn has_ahead(
    service: Service,
    key: &MsgKey,
    controller: &Controller,
    node: &Incarnations,
) -> bool
    ensures { (scenario : ScenarioParts) (s : RunState) (i : ℕ) (m : Message) → IsKeptAs scenario s.trace i (node_at s.nodes i) controller.now
        → IsKeptAt scenario s.trace i (node_at s.nodes i) node.now → Contains (messages_of scenario.sends) m → message_key m ≡ key.now
        → m.service ≡ service → result ≡ has_ahead scenario s m i }
{
    controller.stopped().is_none() && node.node().ahead_by(service, *key)
}

/// Whether a running node has something of the message ahead.
fn is_ahead(
    service: Service,
    key: &MsgKey,
    controllers: &[Controller],
    nodes: &[Incarnations],
) -> bool
    requires { length controllers.now ≡ length nodes.now }
    ensures { (scenario : ScenarioParts) (journal : List Step) (m : Message) → IsAbout scenario journal m key.now controllers.now nodes.now
        → m.service ≡ service → result ≡ is_ahead scenario (run scenario journal) m }
{
    for i in 0..controllers.len() {
        if has_ahead(service, key, &controllers[i], &nodes[i]) {
            return true;
        }
    }
    false
}

/// Whether nothing more is to come of the message of a scripted send: its origin has asked for it,
/// has stopped or came too late for it, no running node waits with a frame of it, every running
/// node has read every notice, and none has anything of it ahead.
pub(crate) fn is_settled(
    format: Format,
    send: &SendAsk,
    key: &MsgKey,
    controllers: &[Controller],
    nodes: &[Incarnations],
) -> bool
    requires count { length controllers.now ≡ length nodes.now }
    requires origin { key.now.origin < length controllers.now }
    requires key { IsSmallKey format key.now }
    requires format { HaveFormat format controllers.now }
    ensures { (scenario : ScenarioParts) (journal : List Step) (m : Message) → IsAbout scenario journal m key.now controllers.now nodes.now
        → m.service ≡ send.now.service → m.slot ≡ send.now.slot → result ≡ is_settled scenario (run scenario journal) m }
{
    if !is_asked(key, send.slot, controllers, nodes) {
        return false;
    }
    nobody_waits_and_all_read(format, send.service, key, controllers)
        && !is_ahead(send.service, key, controllers, nodes)
}
