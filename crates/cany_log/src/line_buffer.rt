//! The bytes of a line, or of some lines, from the last one to the first: so the digits of a
//! number, of which the last is known first, are written where they stay. A field is put before the
//! others together with the space before it.
ghost use Rattle.std.specs.Prelude.{◌≡◌, ◌+◌, ◌<◌, ◌≤◌, ◌∷◌, ◌++◌, ◌==◌, [], if◌then◌else◌, codes, length, map, decimal};
ghost use Rattle.cany_base.specs.declared.log_entry.LogEntry.TheVariants.{Deliver};
ghost use Rattle.cany_log.specs.Fields.{most_byte_bytes, most_count_bytes, most_node_bytes, most_number_bytes, most_payload_bytes, most_set_bytes};
ghost use Rattle.cany_log.specs.Pages.{most_page_bytes, most_service_bytes};
ghost use Rattle.cany_text.specs.RefusalLines.{signed_decimal};
ghost use Rattle.cany_text.specs.ReportLines.{byte_text, entry_line, node_text, payload_text, set_text, step_letter};
ghost use Rattle.cany_text.specs.TextNames.{service_name};

use crate::delivery::delivery_before;
use crate::letters::letters_before;
use crate::line::SHORT_LINE_BYTES;
use crate::neighbours::{end_of_run, numbers_from_to, start_of_run};
use crate::text_before::{hexadecimal_before, number_before, payload_before, service_before};
use cany_base::{MsgKey, NodeId, NodeSet, Payload, Service, Slot, Step};
use itoa::{Buffer, write_digits};
use std::marker::Model;

/// The bytes of the end of a line, or of some lines, as many as there are so far, with room for so
/// many in all.
#[derive(Drop)]
pub(crate) struct LineBuffer<const ROOM: usize> {
    bytes: [u8; ROOM],
    start: usize,
}

impl<const ROOM: usize> Model for LineBuffer<ROOM> {
    ghost use Rattle.std.specs.Prelude.{◌≡◌, ◌≤◌, ℕ, List, length, drop};

    ghost Value = { List ℕ };

    ghost view = { λ r. drop r.start r.bytes };

    ghost invariant = { λ r. (r.start ≤ ROOM) × (length r.bytes ≡ ROOM) };
}

impl<const ROOM: usize> LineBuffer<ROOM> {
    /// No bytes yet.
    pub(crate) fn new() -> LineBuffer<ROOM>
        requires { ROOM ≤ most_page_bytes }
        ensures { result ≡ [] }
    {
        LineBuffer {
            bytes: [0; ROOM],
            start: ROOM,
        }
    }

    /// The bytes.
    pub(crate) fn as_slice(&self) -> &[u8]
        ensures { result.now ≡ self.now }
    {
        let whole = &self.bytes[..];
        &whole[self.start..]
    }

    /// Takes all bytes away.
    pub(crate) fn clear(&mut self)
        ensures { self.new ≡ [] }
    {
        self.start = ROOM;
    }

    /// Puts a byte before the others.
    fn put_byte(&mut self, byte: u8)
        requires { length self.old + 1 ≤ ROOM }
        ensures { self.new ≡ byte ∷ self.old }
    {
        self.start -= 1;
        self.bytes[self.start] = byte;
    }

    /// Puts bytes before the others.
    pub(crate) fn put_bytes(&mut self, bytes: &[u8])
        requires { length self.old + length bytes.now ≤ ROOM }
        ensures { self.new ≡ bytes.now ++ self.old }
    {
        let end = self.start;
        self.start -= bytes.len();
        let whole = &mut self.bytes[..];
        whole[self.start..end].copy_from_slice(bytes);
    }

    /// Puts the decimal digits of a number, for which there is room.
    fn put_digits(&mut self, number: u64)
        requires { length self.old + length (decimal number) ≤ ROOM }
        ensures { self.new ≡ decimal number ++ self.old }
    {
        self.start = write_digits(number, &mut self.bytes, self.start);
    }

    /// Puts a text.
    pub(crate) fn put_text(&mut self, text: &str)
        requires { length self.old + (1 + length text.now) ≤ ROOM }
        ensures { self.new ≡ (32 ∷ text.now) ++ self.old }
    {
        self.put_bytes(text.as_bytes());
        self.put_byte(b' ');
    }

    /// Puts the name of a service.
    pub(crate) fn put_service(&mut self, service: Service)
        requires { length self.old + (1 + most_service_bytes) ≤ ROOM }
        ensures text { self.new ≡ (32 ∷ service_name service) ++ self.old }
        ensures short { length (service_name service) ≤ most_service_bytes }
    {
        self.start = service_before(&mut self.bytes, self.start, service);
    }

    /// Puts a number in decimal.
    // A hint, since most lines of a report have three numbers.
    #[inline(always)]
    pub(crate) fn put_number(&mut self, number: u64)
        requires { length self.old + (1 + most_number_bytes) ≤ ROOM }
        ensures text { self.new ≡ (32 ∷ decimal number) ++ self.old }
        ensures short { length (decimal number) ≤ most_number_bytes }
    {
        self.start = number_before(&mut self.bytes, self.start, number);
    }

    /// Puts a number of up to 128 bits in decimal.
    pub(crate) fn put_count(&mut self, number: u128)
        requires { length self.old + (1 + most_count_bytes) ≤ ROOM }
        ensures text { self.new ≡ (32 ∷ decimal number) ++ self.old }
        ensures short { length (decimal number) ≤ most_count_bytes }
    {
        let mut buffer = Buffer::new();
        self.put_text(buffer.format(number));
    }

    /// Puts a number that may be below zero, in decimal.
    pub(crate) fn put_signed(&mut self, number: i64)
        requires { length self.old + (1 + most_number_bytes) ≤ ROOM }
        ensures text { self.new ≡ (32 ∷ signed_decimal number) ++ self.old }
        ensures short { length (signed_decimal number) ≤ most_number_bytes }
    {
        let mut buffer = Buffer::new();
        self.put_text(buffer.format(number));
    }

    /// Puts the number of an incarnation, where it is not the first.
    fn put_incarnation(&mut self, inc: u8)
        requires { length self.old + 4 ≤ ROOM }
        ensures { self.new ≡ (if inc == 0 then [] else codes "/" ++ decimal inc) ++ self.old }
    {
        if inc > 0 {
            self.put_digits(u64::from(inc));
            self.put_byte(b'/');
        }
    }

    /// Puts the number of a node, with that of its incarnation where it is not the first.
    pub(crate) fn put_node(&mut self, node: NodeId, inc: u8)
        requires { length self.old + (1 + most_node_bytes) ≤ ROOM }
        ensures text { self.new ≡ (32 ∷ node_text node inc) ++ self.old }
        ensures short { length (node_text node inc) ≤ most_node_bytes }
    {
        self.put_incarnation(inc);
        self.put_digits(u64::from(node.get()));
        self.put_byte(b' ');
    }

    /// Puts a byte as two hexadecimal digits.
    fn put_hexadecimal(&mut self, byte: u8)
        requires { length self.old + 2 ≤ ROOM }
        ensures { self.new ≡ byte_text byte ++ self.old }
    {
        self.start = hexadecimal_before(&mut self.bytes, self.start, byte);
    }

    /// Puts a byte in hexadecimal.
    pub(crate) fn put_octet(&mut self, byte: u8)
        requires { length self.old + (1 + most_byte_bytes) ≤ ROOM }
        ensures text { self.new ≡ (32 ∷ byte_text byte) ++ self.old }
        ensures short { length (byte_text byte) ≤ most_byte_bytes }
    {
        self.put_hexadecimal(byte);
        self.put_byte(b' ');
    }

    /// Puts the bytes of a payload in hexadecimal.
    pub(crate) fn put_payload(&mut self, payload: &Payload)
        requires { length self.old + (1 + most_payload_bytes) ≤ ROOM }
        ensures text { self.new ≡ (32 ∷ payload_text payload.now) ++ self.old }
        ensures short { length (payload_text payload.now) ≤ most_payload_bytes }
    {
        self.start = payload_before(&mut self.bytes, self.start, payload);
    }

    /// Puts the line of a delivery, which is a short one.
    #[inline(always)]
    pub(crate) fn put_delivery(
        &mut self,
        slot: Slot,
        service: Service,
        msg: MsgKey,
        payload: &Payload,
    )
        requires { length self.old + SHORT_LINE_BYTES ≤ ROOM }
        ensures text { self.new ≡ entry_line (Deliver slot service msg payload.now) ++ self.old }
        ensures short { length self.new ≤ length self.old + SHORT_LINE_BYTES }
    {
        self.start = delivery_before(&mut self.bytes, self.start, slot, service, msg, payload);
    }

    /// Puts the numbers of the nodes of a set.
    pub(crate) fn put_set(&mut self, set: NodeSet)
        requires { length self.old + (1 + most_set_bytes) ≤ ROOM }
        ensures text { self.new ≡ (32 ∷ set_text set) ++ self.old }
        ensures short { length (set_text set) ≤ most_set_bytes }
    {
        self.put_numbers(set);
        self.put_byte(b' ');
    }

    fn put_numbers(&mut self, set: NodeSet)
        requires { length self.old + most_set_bytes ≤ ROOM }
        ensures text { self.new ≡ set_text set ++ self.old }
        ensures short { length (set_text set) ≤ most_set_bytes }
    {
        let mut end = end_of_run(set, NodeId::COUNT);
        if end == 0 {
            self.put_byte(b'-');
            return;
        }
        // Neighbours stand side by side in the text of all numbers.
        while end > 0 {
            let start = start_of_run(set, end);
            self.put_bytes(numbers_from_to(start, end));
            end = end_of_run(set, start);
            if end > 0 {
                self.put_byte(b',');
            }
        }
    }

    /// Puts the letters of some steps.
    pub(crate) fn put_steps(&mut self, steps: &[Step])
        requires { length self.old + length steps.now ≤ ROOM }
        ensures { self.new ≡ map step_letter steps.now ++ self.old }
    {
        self.start = letters_before(&mut self.bytes, self.start, steps);
    }
}
