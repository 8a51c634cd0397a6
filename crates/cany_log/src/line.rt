ghost use Rattle.std.specs.Prelude.{◌+◌, ◌≤◌, ◌≡◌, ◌∷◌, ◌++◌, length};
ghost use Rattle.std.specs.List.{flat_map};
ghost use Rattle.cany_base.specs.Limits.{most_line_bytes};
ghost use Rattle.cany_text.specs.ReportLines as report;
ghost use Rattle.cany_log.specs.Fields.{most_bytes, most_number_bytes, most_set_bytes, number_if_any, room_of, set_if_any, spaced, texts_of};
ghost use Rattle.cany_log.specs.Written.{IsWritten};

use crate::line_buffer::LineBuffer;
use crate::text_field::TextField;
use cany_base::limits::MOST_LINE_BYTES;
use cany_base::{NodeSet, Step};
use cany_io::{Failed, Sink, write_whole};

/// How many bytes a short line has at most, its line feed included.
pub const SHORT_LINE_BYTES: usize = 256;

/// How many bytes a line of the journal has at most: its word, 64 letters and the line feed.
pub(crate) const JOURNAL_LINE_BYTES: usize = 73;

fn put_number_if_any<const ROOM: usize>(
    line_buffer: &mut LineBuffer<ROOM>,
    word: &'static str,
    number: Option<u64>,
)
    requires { length line_buffer.old + ((1 + length word.now) + (1 + most_number_bytes)) ≤ ROOM }
    ensures text { line_buffer.new ≡ spaced (number_if_any word.now number) ++ line_buffer.old }
    ensures short { length (spaced (number_if_any word.now number)) ≤ (1 + length word.now) + (1 + most_number_bytes) }
{
    if let Some(number) = number {
        line_buffer.put_number(number);
        line_buffer.put_text(word);
    }
}

pub(crate) fn put_set_if_any<const ROOM: usize>(
    line_buffer: &mut LineBuffer<ROOM>,
    word: &'static str,
    nodes: NodeSet,
)
    requires { length line_buffer.old + ((1 + length word.now) + (1 + most_set_bytes)) ≤ ROOM }
    ensures text { line_buffer.new ≡ spaced (set_if_any word.now nodes) ++ line_buffer.old }
    ensures short { length (spaced (set_if_any word.now nodes)) ≤ (1 + length word.now) + (1 + most_set_bytes) }
{
    if !nodes.is_empty() {
        line_buffer.put_set(nodes);
        line_buffer.put_text(word);
    }
}

/// Puts a piece before the others, each of its fields with the space before it.
fn put_field<const ROOM: usize>(line_buffer: &mut LineBuffer<ROOM>, field: &TextField)
    requires { length line_buffer.old + most_bytes field.now ≤ ROOM }
    ensures text { line_buffer.new ≡ spaced (texts_of field.now) ++ line_buffer.old }
    ensures short { length (spaced (texts_of field.now)) ≤ most_bytes field.now }
{
    match *field {
        TextField::Text(text) => line_buffer.put_text(text),
        TextField::Number(number) => line_buffer.put_number(number),
        TextField::Count(number) => line_buffer.put_count(number),
        TextField::SignedNumber(number) => line_buffer.put_signed(number),
        TextField::Node(node, inc) => line_buffer.put_node(node, inc),
        TextField::Byte(byte) => line_buffer.put_octet(byte),
        TextField::Bytes(payload) => line_buffer.put_payload(&payload),
        TextField::Set(set) => line_buffer.put_set(set),
        TextField::NumberIfAny(word, number) => put_number_if_any(line_buffer, word, number),
        TextField::SetIfAny(word, set) => put_set_if_any(line_buffer, word, set),
    }
}

/// Writes a line of at most so many bytes that begins with these words. It is put together before
/// the sink is given any of it, and takes no memory.
fn write_row<const ROOM: usize, K: Sink>(
    words: &'static str,
    fields: &[TextField],
    sink: &mut K,
) -> Result<(), Failed>
    requires short { ROOM ≤ most_line_bytes }
    requires room { length words.now + room_of fields.now + 1 ≤ ROOM }
    ensures { IsWritten (report.line_of (words.now ∷ flat_map texts_of fields.now)) result
        (K.taken sink.old) (K.taken sink.new) (K.faults sink.old) (K.faults sink.new) }
{
    let mut line_buffer: LineBuffer<ROOM> = LineBuffer::new();
    line_buffer.put_bytes(b"\n");
    let mut left = fields.len();
    while left > 0 {
        left -= 1;
        put_field(&mut line_buffer, &fields[left]);
    }
    line_buffer.put_bytes(words.as_bytes());
    write_whole(sink, line_buffer.as_slice())
}

/// Writes a line that begins with these words, by one call of the sink where the sink takes all. A
/// line has at most [`MOST_LINE_BYTES`] bytes with its line feed. It takes no memory.
///
/// Promise: exactly the line of the words and the fields is written, or at a failure a prefix of
/// it.
///
/// Shown by: `each_write_fails_in_turn`, `the_fields_of_a_line_are_reversed`,
/// `a_set_is_printed_without_its_greatest_nodes`.
///
/// # Errors
///
/// `Failed` only where the sink's count of faults rose.
pub fn write_line<K: Sink>(
    words: &'static str,
    fields: &[TextField],
    sink: &mut K,
) -> Result<(), Failed>
    requires room { length words.now + room_of fields.now + 1 ≤ most_line_bytes }
    ensures { IsWritten (report.line_of (words.now ∷ flat_map texts_of fields.now)) result
        (K.taken sink.old) (K.taken sink.new) (K.faults sink.old) (K.faults sink.new) }
{
    write_row::<MOST_LINE_BYTES, K>(words, fields, sink)
}

/// As [`write_line`], of a line of at most [`SHORT_LINE_BYTES`] bytes. Lines that a text has many
/// of are short. The bytes of a line buffer are cleared before it is filled, and for a long buffer
/// that costs as much as filling it.
///
/// Promise: exactly the line of the words and the fields is written, or at a failure a prefix of
/// it.
///
/// Shown by: `each_write_fails_in_turn`, `tail_enough`, `table_order_decides`,
/// `the_fields_of_a_line_are_reversed`.
///
/// # Errors
///
/// `Failed` only where the sink's count of faults rose.
pub fn write_short_line<K: Sink>(
    words: &'static str,
    fields: &[TextField],
    sink: &mut K,
) -> Result<(), Failed>
    requires room { length words.now + room_of fields.now + 1 ≤ SHORT_LINE_BYTES }
    ensures { IsWritten (report.line_of (words.now ∷ flat_map texts_of fields.now)) result
        (K.taken sink.old) (K.taken sink.new) (K.faults sink.old) (K.faults sink.new) }
{
    write_row::<SHORT_LINE_BYTES, K>(words, fields, sink)
}

/// Puts the line of some steps of a journal, of which there are at most 64.
pub(crate) fn put_steps<const ROOM: usize>(line_buffer: &mut LineBuffer<ROOM>, steps: &[Step])
    requires few { length steps.now ≤ 64 }
    requires room { length line_buffer.old + JOURNAL_LINE_BYTES ≤ ROOM }
    ensures text { line_buffer.new ≡ report.journal_line steps.now ++ line_buffer.old }
    ensures short { length line_buffer.new ≤ length line_buffer.old + JOURNAL_LINE_BYTES }
{
    line_buffer.put_bytes(b"\n");
    line_buffer.put_steps(steps);
    line_buffer.put_bytes(b"journal ");
}
