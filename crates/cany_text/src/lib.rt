//! What the texts are: the scenario that bytes stand for, the report and the refusals; and what
//! holds of every report.
#![tactic(auto)]

pub mod laws;
pub mod names;
mod scenario_fault;
mod threads;

pub use scenario_fault::{KeyName, Position, ScenarioFault, TableName};
