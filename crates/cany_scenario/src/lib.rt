//! The reader of scenario texts. What scenario the bytes of a text stand for, or which fault is the
//! first in it, is `scenario_of` of `cany_text`; the files below meet its parts.
#![tactic(auto)]

mod array;
mod asks;
mod document;
mod entry;
mod journal;
mod nodes;
mod params;
mod rule;
mod rule_place;
mod rules;
mod scenario;
mod sends;
mod value;
mod word;

pub use cany_text::{KeyName, ScenarioFault, TableName};
pub use scenario::read_scenario;
