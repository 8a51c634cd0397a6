//! Worked rows of the laws of every log: runs in which their premises are met, and what is false
//! without them, computed from the definitions when the crate is checked. No crate stands on it.
#![tactic(auto)]
