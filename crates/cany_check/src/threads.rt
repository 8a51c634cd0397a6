//! Accounts, and what is found of them, may move to another thread and be shared by threads.

use crate::account::Account;
use crate::account::record::{LogRecord, MessageRecord, SignRecord};
use crate::deciders::findings::{Accusation, Parting, Told, ViewParting};
use crate::unused_entries::unused_entry::Unused;

fn is_thread_safe<T: Send + Sync>() {}

fn all_are_thread_safe() {
    is_thread_safe::<Account<'_>>();
    is_thread_safe::<Accusation>();
    is_thread_safe::<LogRecord<'_>>();
    is_thread_safe::<MessageRecord>();
    is_thread_safe::<Parting>();
    is_thread_safe::<SignRecord>();
    is_thread_safe::<Told>();
    is_thread_safe::<Unused>();
    is_thread_safe::<ViewParting>();
}
