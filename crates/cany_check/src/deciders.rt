//! What is found of an account, part by part of the promise, and what is judged of it.
pub(crate) mod accuracy;
pub(crate) mod findings;
pub(crate) mod holders;
pub(crate) mod integrity;
pub(crate) mod judging;
pub(crate) mod messages;
pub(crate) mod node_order;
pub(crate) mod order;
pub(crate) mod signs;
pub(crate) mod told;
pub(crate) mod views;
