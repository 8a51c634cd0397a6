//! The bus: one slot at a time, the controllers that run compete, the fault script says what comes
//! of it, and each of them learns its share.
#![tactic(auto)]

mod bus;
mod contest;
mod nodes;
mod offers;
mod ruling;
mod seeing;
mod slot;
mod threads;
mod transmission;

pub use bus::Bus;
