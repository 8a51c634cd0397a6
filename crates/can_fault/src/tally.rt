ghost use Rattle.std.specs.Prelude.{◌≡◌, ◌+◌, ◌<◌, ◌≤◌, ◌↔◌, ◌∷◌, ◌++◌, [], true, List, All, None, length, IfOk, if◌then◌else◌};
ghost use Rattle.cany_base.specs.declared.slot_note.SlotNote.{SlotNote};
ghost use Rattle.cany_base.specs.Params.{Parameters};
ghost use Rattle.cany_model.specs.Promises.Hypothesis.{IsWithin, first_break};
ghost use Rattle.can_fault.specs.Breaks.{IsKeptOf, HasLimitsOf};
ghost use Rattle.can_fault.specs.Tally.{IsTallyOf, TallyParts, is_partial_slot};
ghost use Rattle.can_fault.specs.TallyFields.{IsSound, parts_of};
ghost use Rattle.can_fault.specs.Window.{IsNumbered};

use crate::breaks::Breaks;
use cany_base::{Memory, Params, Slot, SlotNote, Verdict};
use cany_model::Break;
use std::alloc::Global;
use std::marker::Model;

/// Tells whether a run keeps the fault hypothesis, from the notes of its slots, and where it first
/// does not.
///
/// Of the run it keeps a hash map of the counts of Partial slots, a ring of the newest slots of
/// errors, one more than a window may have, and a few numbers. All memory is taken when it is
/// built.
#[derive(Drop)]
pub struct Tally {
    params: Params,
    rules: usize,
    newest: Option<Slot>,
    partials: usize,
    first: Option<Break>,
    breaks: Breaks,
}

impl Model for Tally {
    ghost Value = { TallyParts };

    ghost view = { parts_of };

    ghost invariant = { IsSound };
}

impl Tally {
    /// The tally of a run without slots, with room for `rules` Partial slots, as many as there are
    /// rules.
    ///
    /// Promise: the tally stands for the run without slots, with these parameters and this room.
    ///
    /// Shown by: `one_message_no_fault`, `hypothesis_always_outside`.
    ///
    /// # Errors
    ///
    /// `Memory`: out of memory.
    pub fn build(alloc: Global, params: &Params, rules: usize) -> Result<Tally, Memory>
        ensures run { IfOk result (IsTallyOf []) }
        ensures params { IfOk result (λ tally. tally.params ≡ params.now) }
        ensures rules { IfOk result (λ tally. tally.rules ≡ rules) }
    {
        let breaks = Breaks::build(alloc, params, rules)?;
        Ok(Tally {
            params: *params,
            rules,
            newest: None,
            partials: 0,
            first: None,
            breaks,
        })
    }

    /// Notes the next slot.
    ///
    /// Promise: a tally that stands for a run stands afterwards for the run with this slot. Its
    /// parameters and its room stay.
    ///
    /// Shown by: `sixteen_lost_slots`, `errors_before_omit_in_one_slot`, `partial_is_no_error`,
    /// `vectors_counted_apart`, `window_one_slot_too_long`.
    pub fn note(&mut self, note: &SlotNote)
        requires next { note.now.slot ≡ self.old.slots }
        requires room { is_partial_slot note.now ≡ true → self.old.partials < self.old.rules }
        ensures run { (trace : List SlotNote) → IsTallyOf trace self.old → IsTallyOf (note.now ∷ trace) self.new }
        ensures slots { self.new.slots ≡ self.old.slots + 1 }
        ensures partials { self.new.partials ≡ self.old.partials + (if is_partial_slot note.now then 1 else 0) }
        ensures params { self.new.params ≡ self.old.params }
        ensures rules { self.new.rules ≡ self.old.rules }
    {
        self.newest = Some(note.slot);
        self.first = next_break(self.first, &mut self.breaks, note);
        self.partials += usize::from(is_partial_slot(note));
    }

    /// Notes slots that carried no frame all at once. `last` is the number of the last of them.
    ///
    /// Promise: a tally that stands for a run stands afterwards for the run with these slots. Its
    /// parameters and its room stay.
    pub fn rest(&mut self, last: Slot)
        ensures run { (idle trace : List SlotNote) → All (λ note. note.frame ≡ None) idle → IsNumbered (idle ++ trace)
            → length (idle ++ trace) ≡ last + 1 → IsTallyOf trace self.old → IsTallyOf (idle ++ trace) self.new }
        ensures slots { self.new.slots ≡ last + 1 }
        ensures partials { self.new.partials ≡ self.old.partials }
        ensures params { self.new.params ≡ self.old.params }
        ensures rules { self.new.rules ≡ self.old.rules }
    {
        self.newest = Some(last);
    }

    /// The first slot at which the run leaves the hypothesis.
    ///
    /// Promise: of a tally that stands for a run, the first break of the run by the definition
    /// (`first_break`).
    ///
    /// Answers: `None` exactly where the run is within the fault hypothesis.
    ///
    /// Shown by: `one_message_no_fault`, `sixteen_lost_slots`.
    pub fn first_break(&self) -> Option<Break>
        ensures first { (trace : List SlotNote) → IsTallyOf trace self.now → result ≡ first_break self.now.params trace }
        ensures within { (trace : List SlotNote) → IsTallyOf trace self.now → (result ≡ None) ↔ IsWithin self.now.params trace }
    {
        self.first
    }
}

/// The first break after one more slot. The slots after it matter no more.
fn next_break(first: Option<Break>, breaks: &mut Breaks, note: &SlotNote) -> Option<Break>
    requires { is_partial_slot note.now ≡ true → length breaks.old.counts.items < breaks.old.counts.room }
    ensures next { (p : Parameters) (trace : List SlotNote) → note.now.slot ≡ length trace → first ≡ first_break p trace
        → (first ≡ None → IsKeptOf p trace breaks.old) → result ≡ first_break p (note.now ∷ trace) }
    ensures kept { (p : Parameters) (trace : List SlotNote) → note.now.slot ≡ length trace → first ≡ first_break p trace
        → (first ≡ None → IsKeptOf p trace breaks.old) → result ≡ None → IsKeptOf p (note.now ∷ trace) breaks.new }
    ensures growth { length breaks.new.counts.items ≤ length breaks.old.counts.items + (if is_partial_slot note.now then 1 else 0) }
    ensures limits { HasLimitsOf breaks.old breaks.new }
    ensures room { breaks.new.counts.room ≡ breaks.old.counts.room }
{
    if first.is_some() {
        return first;
    }
    let frame = note.frame?;
    let kind = breaks.note(note, &frame)?;
    let slot = note.slot;
    Some(Break { kind, slot })
}

fn is_partial_slot(note: &SlotNote) -> bool
    ensures { result ≡ is_partial_slot note.now }
{
    note.frame.is_some() && matches!(note.verdict, Verdict::Partial(_))
}
