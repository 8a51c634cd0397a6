//! The verdict of one run: of each part of the promise whether it held, which nodes have each
//! message and each failure sign, and which entries of the scenario did nothing.
//!
//! Verdicts are given of an account, which has what they need of a run and knows no world.
#![tactic(auto)]

mod account;
mod deciders;
pub mod laws;
pub mod status;
mod text;
mod threads;
mod top;
mod unused_entries;

pub use account::Account;
pub use account::making::account_of;
pub use account::record::{FirstAndLast, LogRecord, MessageRecord, SignRecord};
pub use deciders::accuracy::accusations;
pub use deciders::findings::{
    Accusation, Delivery, EntryAt, Fate, Judgement, Part, Parting, Told, ViewParting, Views,
};
pub use deciders::integrity::wrong_entry;
pub use deciders::judging::{Findings, judge};
pub use deciders::messages::message_fates;
pub use deciders::order::parting;
pub use deciders::signs::sign_fates;
pub use deciders::views::view_partings;
pub use text::write_check;
pub use top::check_top;
pub use unused_entries::idle_entries::unused;
pub use unused_entries::unused_entry::{NoAsk, NoFault, Unused, UnusedEntry};
