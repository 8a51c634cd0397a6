//! The lines of the entries of a scenario that did nothing.
ghost use Rattle.std.specs.Prelude.{◌≤◌, ◌∷◌, [], length, codes, decimal};
ghost use Rattle.cany_check.specs.Texts.CheckLines.{ask_fields, fault_fields};
ghost use Rattle.cany_log.specs.Written.{IsWritten};
ghost use Rattle.cany_text.specs.ReportLines.{line_of};

use crate::text::lines::Line;
use crate::unused_entries::unused_entry::{NoAsk, NoFault, Unused, UnusedEntry};
use cany_base::Slot;
use cany_io::{Failed, Sink};
use cany_log::{TextField, write_short_line};

/// Writes the line of a send, a join or a leave, by the words that it begins with.
fn write_ask<K: Sink>(
    words: &'static str,
    place: u64,
    why: NoAsk,
    sink: &mut K,
) -> Result<(), Failed>
    requires { length words.now ≤ 16 }
    ensures { IsWritten (line_of (words.now ∷ decimal place ∷ ask_fields why)) result
        (K.taken sink.old) (K.taken sink.new) (K.faults sink.old) (K.faults sink.new) }
{
    let place = TextField::Number(place);
    match why {
        NoAsk::From(slot) => write_short_line(
            words,
            &[place, TextField::Text("from"), TextField::Number(slot)],
            sink,
        ),
        NoAsk::Stopped => write_short_line(words, &[place, TextField::Text("stopped")], sink),
        NoAsk::NeverCarried => write_short_line(
            words,
            &[place, TextField::Text("carried -")],
            sink,
        ),
    }
}

/// Writes the line of a fault rule that would act in a slot.
fn write_fault_in<K: Sink>(
    place: u64,
    slot: Slot,
    why: &'static str,
    sink: &mut K,
) -> Result<(), Failed>
    requires { length why.now ≤ 16 }
    ensures { IsWritten (line_of (codes "unused fault" ∷ decimal place ∷ codes "slot" ∷ decimal slot ∷ why.now ∷ [])) result
        (K.taken sink.old) (K.taken sink.new) (K.faults sink.old) (K.faults sink.new) }
{
    write_short_line(
        "unused fault",
        &[
            TextField::Number(place),
            TextField::Text("slot"),
            TextField::Number(slot),
            TextField::Text(why),
        ],
        sink,
    )
}

/// Writes the line of a fault rule.
fn write_fault<K: Sink>(place: u64, why: NoFault, sink: &mut K) -> Result<(), Failed>
    ensures { IsWritten (line_of (codes "unused fault" ∷ decimal place ∷ fault_fields why)) result
        (K.taken sink.old) (K.taken sink.new) (K.faults sink.old) (K.faults sink.new) }
{
    match why {
        NoFault::Attempts(attempts) => write_short_line(
            "unused fault",
            &[
                TextField::Number(place),
                TextField::Text("attempts"),
                TextField::Number(attempts),
            ],
            sink,
        ),
        NoFault::Ruled(slot) => write_fault_in(place, slot, "ruled", sink),
        NoFault::Idle(slot) => write_fault_in(place, slot, "idle", sink),
        NoFault::RejectsNobody(slot) => write_fault_in(place, slot, "rejects -", sink),
        NoFault::StopsNobody(slot) => write_fault_in(place, slot, "stops -", sink),
    }
}

impl Line for Unused {
    ghost use Rattle.cany_check.specs.Texts.CheckLines.{unused_line};

    ghost line = { unused_line };

    #[tactic(auto, unfolding(crate::specs::Texts::CheckLines::unused_line))]
    fn write<K: Sink>(&self, sink: &mut K) -> Result<(), Failed> {
        let place = self.place as u64;
        match self.entry {
            UnusedEntry::Send(why) => write_ask("unused send", place, why, sink),
            UnusedEntry::Fault(why) => write_fault(place, why, sink),
            UnusedEntry::Join(why) => write_ask("unused join", place, why, sink),
            UnusedEntry::Leave(why) => write_ask("unused leave", place, why, sink),
            UnusedEntry::Restart => write_short_line(
                "unused restart",
                &[TextField::Number(place), TextField::Text("runs")],
                sink,
            ),
        }
    }
}
