//! The lines of journals that are refused.
ghost use Rattle.std.specs.Prelude.{◌≡◌, ◌≤◌, [], ◌∷◌, length, codes, decimal};
ghost use Rattle.cany_model.specs.declared.follow.FollowFault.TheVariants.{Refused, Unfinished};
ghost use Rattle.cany_text.specs.RefusalLines.{journal_refusal_line};
ghost use Rattle.cany_text.specs.ReportLines.{line_of};
ghost use Rattle.cany_log.specs.Written.{IsWritten};

use crate::line::write_line;
use crate::text_field::TextField;
use cany_base::NodeId;
use cany_io::{Failed, Sink};
use cany_model::{FollowFault, StepReply};

/// How the line of a refused step begins.
const STEP: &str = "refused journal step";

/// Writes the line of a journal that is refused.
pub(crate) fn write_journal_refusal<K: Sink>(fault: FollowFault, sink: &mut K) -> Result<(), Failed>
    ensures { IsWritten (journal_refusal_line fault) result
        (K.taken sink.old) (K.taken sink.new) (K.faults sink.old) (K.faults sink.new) }
{
    match fault {
        FollowFault::Refused { place, reply } => write_refused_step(place as u64, &reply, sink),
        FollowFault::Unfinished { ran, node } => write_unfinished(ran, node, sink),
    }
}

/// Writes the line of a journal whose step at this place is the first that is not done.
fn write_refused_step<K: Sink>(place: u64, reply: &StepReply, sink: &mut K) -> Result<(), Failed>
    ensures { IsWritten (journal_refusal_line (Refused place reply.now)) result
        (K.taken sink.old) (K.taken sink.new) (K.faults sink.old) (K.faults sink.new) }
{
    match *reply {
        // No step that is done is refused.
        StepReply::Done => write_line(STEP, &[TextField::Number(place)], sink),
        StepReply::Lagging { node, unread } => write_lagging(place, node, unread, sink),
        StepReply::Over { slots } => write_cause(place, "over slots", slots, sink),
        StepReply::NothingYet { now } => write_cause(place, "nothing yet now", now, sink),
        StepReply::Stopped { slot } => write_cause(place, "stopped slot", slot, sink),
        StepReply::NoNode { node } => write_cause(place, "no node", u64::from(node.get()), sink),
    }
}

/// Writes the line of a journal whose step at this place is a slot that cannot run yet.
fn write_lagging<K: Sink>(place: u64, node: NodeId, unread: u32, sink: &mut K) -> Result<(), Failed>
    ensures { IsWritten (line_of (codes "refused journal step" ∷ decimal place ∷ codes "lagging node" ∷ decimal node ∷ codes "unread" ∷ decimal unread ∷ [])) result
        (K.taken sink.old) (K.taken sink.new) (K.faults sink.old) (K.faults sink.new) }
{
    let fields = [
        TextField::Number(place),
        TextField::Text("lagging node"),
        TextField::Number(u64::from(node.get())),
        TextField::Text("unread"),
        TextField::Number(u64::from(unread)),
    ];
    write_line(STEP, &fields, sink)
}

/// Writes the line of a journal whose step at this place is refused for a cause of some words and a
/// number.
fn write_cause<K: Sink>(
    place: u64,
    words: &'static str,
    number: u64,
    sink: &mut K,
) -> Result<(), Failed>
    requires { length words.now ≤ 20 }
    ensures { IsWritten (line_of (codes "refused journal step" ∷ decimal place ∷ words.now ∷ decimal number ∷ [])) result
        (K.taken sink.old) (K.taken sink.new) (K.faults sink.old) (K.faults sink.new) }
{
    let fields = [
        TextField::Number(place),
        TextField::Text(words),
        TextField::Number(number),
    ];
    write_line(STEP, &fields, sink)
}

/// The number of the node, where there is one.
fn number_of(node: Option<NodeId>) -> Option<u64>
    ensures { result ≡ node }
{
    match node {
        None => None,
        Some(node) => Some(u64::from(node.get())),
    }
}

/// Writes the line of a journal that leaves slots to run or notices to read.
fn write_unfinished<K: Sink>(ran: u64, node: Option<NodeId>, sink: &mut K) -> Result<(), Failed>
    ensures { IsWritten (journal_refusal_line (Unfinished ran node)) result
        (K.taken sink.old) (K.taken sink.new) (K.faults sink.old) (K.faults sink.new) }
{
    let fields = [
        TextField::Number(ran),
        TextField::NumberIfAny("node", number_of(node)),
    ];
    write_line("refused journal unfinished ran", &fields, sink)
}
