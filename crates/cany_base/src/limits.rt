//! The limits of scenarios, texts and reports: the numbers of `specs/Limits.antt`, in the types in
//! which code uses them.

ghost use Rattle.std.specs.Prelude.{◌≡◌};
ghost use Rattle.cany_base.specs.Limits as limit;

use crate::format::Format;

/// The most nodes of a bus, in any format.
pub const MOST_NODES: u8 = 64;

/// The greatest error counter with which a node still runs, in errors. Above it a controller of the
/// CAN Specification (2.0 Part B, 8) is error passive, and a node of this project stops.
pub const GREATEST_ERROR_COUNTER: u32 = 127;

/// The most scripted sends of a scenario, by the form of its text.
pub const MOST_SENDS: usize = 20_000;

/// The most fault rules of a scenario, by the form of its text.
pub const MOST_RULES: usize = 20_000;

/// The most scripted joins of a scenario, by the form of its text.
pub const MOST_JOINS: usize = 1_000;

/// The most scripted leaves of a scenario, by the form of its text.
pub const MOST_LEAVES: usize = 1_000;

/// The most restart entries of a scenario.
pub const MOST_RESTARTS: usize = 64;

/// The most restart entries of one node: with the incarnation that it opens with, a node has 16 at
/// most, as many as four bits of the identifier can number.
pub const MOST_RESTARTS_OF_NODE: usize = 15;

/// The greatest `lag`, in unread notices.
pub const GREATEST_LAG: u64 = 8;

/// The greatest `omit`, in Partial slots of an identity.
pub const GREATEST_OMIT: u64 = 8;

/// The greatest `errors`, in Lost or Partial slots of a window.
pub const GREATEST_ERRORS: u64 = 1_000;

/// The greatest `bound`, `cycle`, `life`, `silence` or `confirm` that a scenario text may give, in
/// slots.
pub const GREATEST_GIVEN: u64 = 1_000_000;

/// The greatest value, in slots, of one of these where the text leaves it to its default. A default
/// is computed from values that the text gives, so it may exceed `GREATEST_GIVEN`.
pub const GREATEST_DEFAULT: u64 = 4_000_000;

/// How many numbers frames of a run can have, in any format: each is below this.
pub const MOST_NUMBERS: u16 = 32_768;

/// The length of the longest run, in slots, in any format.
pub const MOST_SLOTS: u64 = 400_000;

/// The most bytes of a scenario text.
pub const MOST_TEXT_BYTES: usize = 33_554_432;

/// The most bytes of a report line, its newline counted: the length of the buffer in which a line
/// is made.
pub const MOST_LINE_BYTES: usize = 1_024;

/// The length of the longest run of a format, in slots.
///
/// Promise: 100,000 slots in the first format, 400,000 in the second.
pub fn greatest_slots(format: Format) -> u64
    ensures { result ≡ limit.greatest_slots format }
{
    match format {
        Format::One => 100_000,
        Format::Two => MOST_SLOTS,
    }
}

/// The greatest number of a frame that a fault rule of a format may name.
///
/// Promise: 65,535 in the first format, 32,767 in the second.
pub fn greatest_number(format: Format) -> u64
    ensures { result ≡ limit.greatest_number format }
{
    match format {
        Format::One => 65_535,
        Format::Two => 32_767,
    }
}

/// The greatest attempt that a fault rule of a format may name, counted from 1: a run has no more
/// attempts than slots.
///
/// Promise: 100,000 in the first format, 400,000 in the second.
pub fn greatest_attempt(format: Format) -> u64
    ensures { result ≡ limit.greatest_attempt format }
{
    greatest_slots(format)
}

/// The limits of the code are those of the definitions.
///
/// Promise: each constant of this file is equal to the limit of its name in the definitions.
pub fn are_those_of_the_definitions()
    ensures nodes { MOST_NODES ≡ limit.most_nodes }
    ensures error_counter { GREATEST_ERROR_COUNTER ≡ limit.greatest_error_counter }
    ensures sends { MOST_SENDS ≡ limit.most_sends }
    ensures rules { MOST_RULES ≡ limit.most_rules }
    ensures joins { MOST_JOINS ≡ limit.most_joins }
    ensures leaves { MOST_LEAVES ≡ limit.most_leaves }
    ensures restarts { MOST_RESTARTS ≡ limit.most_restarts }
    ensures restarts_of_node { MOST_RESTARTS_OF_NODE ≡ limit.most_restarts_of_node }
    ensures lag { GREATEST_LAG ≡ limit.greatest_lag }
    ensures omit { GREATEST_OMIT ≡ limit.greatest_omit }
    ensures errors { GREATEST_ERRORS ≡ limit.greatest_errors }
    ensures given { GREATEST_GIVEN ≡ limit.greatest_given }
    ensures default { GREATEST_DEFAULT ≡ limit.greatest_default }
    ensures numbers { MOST_NUMBERS ≡ limit.most_numbers }
    ensures slots { MOST_SLOTS ≡ limit.most_slots }
    ensures text_bytes { MOST_TEXT_BYTES ≡ limit.most_text_bytes }
    ensures line_bytes { MOST_LINE_BYTES ≡ limit.most_line_bytes }
{}
