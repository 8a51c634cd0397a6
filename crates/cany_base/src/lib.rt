//! The plain types that every layer shares: nodes and sets of nodes, frames, notices, scenarios and
//! their parameters.
#![tactic(auto)]

mod actions;
mod bounded;
mod class;
pub mod cycle;
mod format;
mod formulas;
mod frame;
pub mod limits;
mod log_entry;
mod memory;
mod message;
mod node;
mod node_set;
mod notice;
mod params;
mod payload;
mod rule;
mod scenario;
mod send_counts;
mod slot_note;
mod step;
mod threads;

pub use actions::{Action, Actions};
pub use bounded::BoundedVec;
pub use class::Class;
pub use format::Format;
pub use frame::Frame;
pub use log_entry::LogEntry;
pub use memory::Memory;
pub use message::{MsgKey, NodeAsk, SendAsk, Service};
pub use node::NodeId;
pub use node_set::NodeSet;
pub use notice::{Notice, NoticeKind, Slot};
pub use params::{ParamFault, ParamName, Params};
pub use payload::Payload;
pub use rule::{Place, Rule, Verdict};
pub use scenario::Scenario;
pub use slot_note::SlotNote;
pub use step::Step;
