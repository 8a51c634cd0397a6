//! What else holds of every run: laws of the definitions beside the promise. Each is a function
//! without a body, whose clauses say it. They speak of every incarnation of every node, of the one
//! order, of what is final, of failures that are told and of silence that is detected, of members,
//! and of what the bus carries. No crate stands on it.
#![tactic(auto)]

pub mod admission;
pub mod alarms;
pub mod carried;
pub mod incarnations;
pub mod membership;
pub mod order;
pub mod removal;
pub mod settled;
pub mod waits;
