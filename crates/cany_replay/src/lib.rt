//! The commands `replay`, a scenario text in and the report of its run out, and `storm`, a number
//! in and the summary of the run of the scenario that is drawn from it out.
#![tactic(auto)]

mod storm;
mod storm_run;
mod storm_words;
mod top;

pub use storm::storm_scenario;
pub use storm_run::storm_top;
pub use top::replay_top;
