//! Each type that a world, a seat or a worker holds may move to another thread and be shared by
//! threads, as the bounds below show.

use crate::actions::Actions;
use crate::bounded::BoundedVec;
use crate::frame::Frame;
use crate::log_entry::LogEntry;
use crate::memory::Memory;
use crate::message::{MsgKey, NodeAsk, SendAsk};
use crate::node::NodeId;
use crate::node_set::NodeSet;
use crate::notice::Notice;
use crate::params::{ParamFault, Params};
use crate::payload::Payload;
use crate::rule::Rule;
use crate::scenario::Scenario;
use crate::slot_note::SlotNote;
use crate::step::Step;

fn is_thread_safe<T: Send + Sync>() {}

fn all_are_thread_safe() {
    is_thread_safe::<NodeId>();
    is_thread_safe::<NodeSet>();
    is_thread_safe::<Payload>();
    is_thread_safe::<Frame>();
    is_thread_safe::<Notice>();
    is_thread_safe::<SlotNote>();
    is_thread_safe::<Rule>();
    is_thread_safe::<SendAsk>();
    is_thread_safe::<NodeAsk>();
    is_thread_safe::<MsgKey>();
    is_thread_safe::<Params>();
    is_thread_safe::<ParamFault>();
    is_thread_safe::<Memory>();
    is_thread_safe::<Actions>();
    is_thread_safe::<Scenario>();
}

fn all_lists_are_thread_safe() {
    is_thread_safe::<BoundedVec<Frame>>();
    is_thread_safe::<BoundedVec<Notice>>();
    is_thread_safe::<BoundedVec<SlotNote>>();
    is_thread_safe::<BoundedVec<LogEntry>>();
    is_thread_safe::<BoundedVec<Step>>();
}
