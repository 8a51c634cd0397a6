ghost use Rattle.std.specs.Prelude.{◌≡◌, ◌+◌, ◌<◌, ◌≤◌, ◌∷◌, [], true, List, None, length, IfOk, Some, if◌then◌else◌};
ghost use Rattle.cany_base.specs.declared.slot_note.SlotNote.{SlotNote};
ghost use Rattle.cany_base.specs.Params.{Parameters};
ghost use Rattle.cany_model.specs.Promises.Hypothesis.{is_partial, break_at};

use crate::counts::{Counted, PartialCounts};
use crate::window::ErrorWindow;
use cany_base::{Frame, Memory, Params, SlotNote, Verdict};
use cany_model::BreakKind;
use std::alloc::Global;

/// Decides of each slot which clause of the fault hypothesis it breaks. It is kept of the slots of
/// a run that breaks none.
#[derive(Drop)]
pub(crate) struct Breaks {
    omit: u32,
    counts: PartialCounts,
    window: ErrorWindow,
}

impl Breaks {
    ghost use Rattle.can_fault.specs.Breaks.{IsKeptOf, HasLimitsOf};

    /// Nothing noted, with room for one Partial slot of each rule.
    pub(crate) fn build(alloc: Global, params: &Params, rules: usize) -> Result<Breaks, Memory>
        ensures kept { IfOk result (IsKeptOf params.now []) }
        ensures counts { IfOk result (λ o. o.counts ≡ record { items = []; room = rules }) }
    {
        let counts = PartialCounts::build(alloc, rules)?;
        let window = ErrorWindow::build(alloc, params)?;
        let omit = params.omit;
        Ok(Breaks {
            omit,
            counts,
            window,
        })
    }

    /// Notes a slot that carried the frame, and gives the clause that it breaks, if it breaks one.
    pub(crate) fn note(&mut self, note: &SlotNote, frame: &Frame) -> Option<BreakKind>
        requires frame { note.now.frame ≡ Some frame.now }
        requires room { is_partial note.now.verdict ≡ true → length self.old.counts.items < self.old.counts.room }
        ensures broken { (p : Parameters) (trace : List SlotNote) → IsKeptOf p trace self.old → note.now.slot ≡ length trace
            → result ≡ break_at p note.now trace }
        ensures kept { (p : Parameters) (trace : List SlotNote) → IsKeptOf p trace self.old → note.now.slot ≡ length trace
            → result ≡ None → IsKeptOf p (note.now ∷ trace) self.new }
        ensures growth { length self.new.counts.items ≤ length self.old.counts.items + (if is_partial note.now.verdict then 1 else 0) }
        ensures limits { HasLimitsOf self.old self.new }
        ensures room { self.new.counts.room ≡ self.old.counts.room }
    {
        // The clauses are tried in the order of the definition: Silent, then omissions, then
        // errors.
        match note.verdict {
            Verdict::Clean => None,
            Verdict::Silent(_) => Some(BreakKind::Silent),
            Verdict::Lost => self.window.note(note.slot).then_some(BreakKind::Errors),
            Verdict::Partial(_) => {
                if !self.counts.count(&Counted::of(frame), self.omit) {
                    return Some(BreakKind::Omit);
                }
                self.window.note(note.slot).then_some(BreakKind::Errors)
            }
        }
    }
}
