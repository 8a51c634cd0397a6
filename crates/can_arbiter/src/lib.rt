//! Bitwise arbitration: of the frames that nodes offer in one slot, which one the bus carries, and
//! which nodes send it.
#![tactic(auto)]

mod arbitration;
mod contest;
mod laws;
mod least;
mod levels;
mod offers;
mod threads;

pub use arbitration::{Outcome, arbitrate};
pub use laws::{walk_leaves_least, walk_orders_by_key, winner_is_unique};
pub use offers::Offers;
