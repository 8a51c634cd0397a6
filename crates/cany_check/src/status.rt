//! The statuses of a verdict beside `DONE`, which is that every part of the promise held.

/// A part of the promise is broken. The whole verdict was written.
pub const BROKEN: u8 = 9;

/// No part is broken, and one is open: a longer run can tell. The whole verdict was written.
pub const OPEN: u8 = 10;
