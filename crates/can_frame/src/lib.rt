//! The identifiers of frames: how class, number, node and incarnation lie in the 29 bits, which
//! frame an identifier stands for, and the key by which frames arbitrate.
#![tactic(auto)]

mod class;
mod decoding;
mod encoding;
mod field;
mod laws;
mod layout;
mod threads;

pub use class::{class_of, has_incarnation, is_of_site, is_remote, shows_life, tells_incarnation};
pub use decoding::{FrameFault, frame_of};
pub use encoding::{identifier, key, without_incarnation};
pub use field::Field;
pub use laws::{
    data_beats_remote, decoding_is_unique, identifier_tells_frame, identifiers_order_frames,
    keys_order_frames, small_numbers_fit,
};
pub use layout::number_fits;
