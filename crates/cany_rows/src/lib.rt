//! Worked rows: single runs and lines, computed from the definitions when the crate is checked. No
//! crate stands on it.
#![tactic(auto)]
