//! The status that this command alone has.

/// A gate refused a pass. Nothing was written.
pub const HELD: u8 = 8;
