//! Tests of the plain types, of streams and of frames, by their public calls: what bytes and
//! identifiers are on a bus, and what a stream of the system may do. They stand in a crate of their
//! own, so that no crate is proved a second time with its tests. No crate stands on it.
#![tactic(auto)]

#[cfg(test)]
mod tests;
