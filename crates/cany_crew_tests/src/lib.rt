//! Tests of the workers of `run`, of gates and of seats, by their public calls. They stand in a
//! crate of their own, so that a changed test has no worker proved anew. No crate stands on it.
#![tactic(auto)]

#[cfg(test)]
mod tests;
