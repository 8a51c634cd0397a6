//! Views of the site: which nodes ask to join and to leave, what a member starts a cycle with, and
//! how a vector becomes the view.
#![tactic(auto)]

mod asks;
mod threads;
mod views;

pub use views::Views;
