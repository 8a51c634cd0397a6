//! The lines of the text.
ghost use Rattle.std.specs.Prelude.{◌≡◌, codes};
ghost use Rattle.cany_log.specs.Fields.{number_if_any};
ghost use Rattle.cany_log.specs.Written.{IsWritten};
ghost use Rattle.cany_replica.specs.ReplicaText as text;

use crate::answer::Answer;
use crate::value::Value;
use cany_base::{NodeId, Payload, Slot};
use cany_io::{Failed, Sink};
use cany_log::{TextField, write_short_line};

/// Writes that a text of this command begins.
#[tactic(auto, unfolding(crate::specs::ReplicaText::first_line, cany_text::specs::ReportLines::line_of))]
pub(crate) fn write_first_line<K: Sink>(sink: &mut K) -> Result<(), Failed>
    ensures { IsWritten text.first_line result
        (K.taken sink.old) (K.taken sink.new) (K.faults sink.old) (K.faults sink.new) }
{
    write_short_line("canely replica 1", &[], sink)
}

/// Writes that the text ends.
#[tactic(auto, unfolding(crate::specs::ReplicaText::last_line, cany_text::specs::ReportLines::line_of))]
pub(crate) fn write_last_line<K: Sink>(sink: &mut K) -> Result<(), Failed>
    ensures { IsWritten text.last_line result
        (K.taken sink.old) (K.taken sink.new) (K.faults sink.old) (K.faults sink.new) }
{
    write_short_line("end", &[], sink)
}

/// The number of an incarnation, where it is not the first.
fn later_incarnation(inc: u8) -> Option<u64>
    ensures { number_if_any (codes "inc") result ≡ text.incarnation_fields inc }
{
    if inc > 0 { Some(u64::from(inc)) } else { None }
}

/// Writes the line of a node, which has applied so many messages.
#[tactic(auto, unfolding(crate::specs::ReplicaText::node_line))]
pub(crate) fn write_node_line<K: Sink>(
    node: NodeId,
    inc: u8,
    stopped: Option<Slot>,
    count: u64,
    sink: &mut K,
) -> Result<(), Failed>
    ensures { IsWritten (text.node_line node inc stopped count) result
        (K.taken sink.old) (K.taken sink.new) (K.faults sink.old) (K.faults sink.new) }
{
    let number = TextField::Number(u64::from(node.get()));
    let inc = TextField::NumberIfAny("inc", later_incarnation(inc));
    let applied = TextField::Text("applied");
    let count = TextField::Number(count);
    match stopped {
        None => write_short_line(
            "node",
            &[number, inc, TextField::Text("correct"), applied, count],
            sink,
        ),
        Some(slot) => write_short_line(
            "node",
            &[
                number,
                inc,
                TextField::Text("stopped"),
                TextField::Number(slot),
                applied,
                count,
            ],
            sink,
        ),
    }
}

/// Writes the line of a reply.
#[tactic(auto, unfolding(crate::specs::ReplicaText::reply_line))]
pub(crate) fn write_reply<K: Sink>(answer: &Answer, sink: &mut K) -> Result<(), Failed>
    ensures { IsWritten (text.reply_line answer.now) result
        (K.taken sink.old) (K.taken sink.new) (K.faults sink.old) (K.faults sink.new) }
{
    write_short_line(
        "reply",
        &[
            TextField::Number(u64::from(answer.msg.origin.get())),
            TextField::Number(u64::from(answer.msg.seq)),
            TextField::Text(answer.reply.name()),
        ],
        sink,
    )
}

/// Writes the line of a key that has a value.
#[tactic(auto, unfolding(crate::specs::ReplicaText::key_line))]
pub(crate) fn write_key<K: Sink>(key: u8, value: &Value, sink: &mut K) -> Result<(), Failed>
    ensures { IsWritten (text.key_line key value.now) result
        (K.taken sink.old) (K.taken sink.new) (K.faults sink.old) (K.faults sink.new) }
{
    let bytes = Payload::of(value.as_slice()).unwrap();
    write_short_line(
        "key",
        &[TextField::Byte(key), TextField::Bytes(bytes)],
        sink,
    )
}
