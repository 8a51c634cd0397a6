//! Text that ends at a place of a row of bytes. Each call answers where its text begins, which is
//! where the text before it ends: so the place is a number of the caller's, and no field that is
//! stored after each piece.
ghost use Rattle.std.specs.Prelude.{◌≡◌, ◌+◌, ◌≤◌, ◌∷◌, ◌++◌, length, decimal, drop};
ghost use Rattle.cany_log.specs.Fields.{most_number_bytes, most_payload_bytes};
ghost use Rattle.cany_log.specs.Pages.{most_service_bytes};
ghost use Rattle.cany_text.specs.ReportLines.{byte_text, payload_text};
ghost use Rattle.cany_text.specs.TextNames.{service_name};

use cany_base::{Payload, Service};
use itoa::write_digits;

/// Writes a byte.
#[inline(always)]
pub(crate) fn byte_before(row: &mut [u8], end: usize, byte: u8) -> usize
    requires { (1 ≤ end) × (end ≤ length row.old) }
    ensures start { result + 1 ≡ end }
    ensures text { drop result row.new ≡ byte ∷ drop end row.old }
{
    row[end - 1] = byte;
    end - 1
}

/// Writes a short text of a known length. LLVM makes one or two stores of its bytes, where for a
/// copy it asks first whether the two pieces of memory overlap.
#[inline(always)]
pub(crate) fn word_before(row: &mut [u8], end: usize, word: &[u8]) -> usize
    requires { (length word.now ≤ end) × (end ≤ length row.old) }
    ensures start { result + length word.now ≡ end }
    ensures text { drop result row.new ≡ word.now ++ drop end row.old }
{
    let mut at = end;
    let mut left = word.len();
    while left > 0 {
        left -= 1;
        at = byte_before(row, at, word[left]);
    }
    at
}

/// Writes a number in decimal, after a space.
#[inline(always)]
pub(crate) fn number_before(row: &mut [u8], end: usize, number: u64) -> usize
    requires { (1 + most_number_bytes ≤ end) × (end ≤ length row.old) }
    ensures start { result + (1 + length (decimal number)) ≡ end }
    ensures text { drop result row.new ≡ (32 ∷ decimal number) ++ drop end row.old }
    ensures short { length (decimal number) ≤ most_number_bytes }
{
    let at = write_digits(number, row, end);
    byte_before(row, at, b' ')
}

/// Writes the name of a service, after a space.
#[inline(always)]
#[tactic(auto, unfolding(cany_text::specs::TextNames::service_name))]
pub(crate) fn service_before(row: &mut [u8], end: usize, service: Service) -> usize
    requires { (1 + most_service_bytes ≤ end) × (end ≤ length row.old) }
    ensures start { result + (1 + length (service_name service)) ≡ end }
    ensures text { drop result row.new ≡ (32 ∷ service_name service) ++ drop end row.old }
    ensures short { length (service_name service) ≤ most_service_bytes }
{
    match service {
        Service::Ed => word_before(row, end, b" ed"),
        Service::Rel => word_before(row, end, b" rel"),
        Service::Tot => word_before(row, end, b" tot"),
    }
}

/// Writes a byte as two hexadecimal digits.
#[inline(always)]
#[tactic(auto, unfolding(hex::specs::Hex::encode_with))]
pub(crate) fn hexadecimal_before(row: &mut [u8], end: usize, byte: u8) -> usize
    requires { (2 ≤ end) × (end ≤ length row.old) }
    ensures start { result + 2 ≡ end }
    ensures text { drop result row.new ≡ byte_text byte ++ drop end row.old }
{
    let mut digits = [0u8; 2];
    hex::encode_to_slice([byte], &mut digits).unwrap();
    word_before(row, end, &digits)
}

/// Writes the bytes of a payload in hexadecimal, after a space.
#[inline(always)]
pub(crate) fn payload_before(row: &mut [u8], end: usize, payload: &Payload) -> usize
    requires { (1 + most_payload_bytes ≤ end) × (end ≤ length row.old) }
    ensures start { result + (1 + length (payload_text payload.now)) ≡ end }
    ensures text { drop result row.new ≡ (32 ∷ payload_text payload.now) ++ drop end row.old }
    ensures short { length (payload_text payload.now) ≤ most_payload_bytes }
{
    let mut at = end;
    let mut left = payload.len();
    while left > 0 {
        left -= 1;
        at = hexadecimal_before(row, at, payload.byte(left));
    }
    word_before(row, at, b" x")
}
