//! The entries of a scenario that did nothing.
pub(crate) mod attempts;
pub(crate) mod finding;
pub(crate) mod idle_entries;
pub(crate) mod presence;
pub(crate) mod unused_asks;
pub(crate) mod unused_entry;
pub(crate) mod unused_faults;
pub(crate) mod unused_restarts;
pub(crate) mod unused_sends;
