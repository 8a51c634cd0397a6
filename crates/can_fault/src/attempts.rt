ghost use Rattle.std.specs.Prelude.{◌≡◌, [], ◌∷◌, ◌++◌, List, Some, IfOk, OnOk, option_map, min, if◌then◌else◌};
ghost use Rattle.std.specs.BTreeMap.{get};
ghost use Rattle.std.specs.Ordering.{is_eq};
ghost use Rattle.cany_base.specs.declared.rule.Rule.{Rule};
ghost use Rattle.cany_base.specs.declared.slot_note.SlotNote.{SlotNote};
ghost use Rattle.can_fault.specs.declared.identity.FrameIdentity.{FrameIdentity};
ghost use Rattle.can_fault.specs.Attempts.{AreCountsOf, HasIdentities, greatest, raised};
ghost use Rattle.can_fault.specs.Identities.{identity_cmp};
ghost use Rattle.can_fault.specs.Rules.{next_attempt};

use crate::identity::FrameIdentity;
use crate::script::Script;
use cany_base::{Frame, Memory, Place, Rule};
use std::alloc::Global;
use std::collections::BTreeMap;
use std::marker::Model;

/// How often each frame that a rule names was carried.
#[derive(Drop)]
pub struct Attempts {
    counts: BTreeMap<FrameIdentity, u32>,
}

impl Model for Attempts {
    ghost use Rattle.std.specs.Prelude.{List, ℕ};
    ghost use Rattle.can_fault.specs.declared.identity.FrameIdentity.{FrameIdentity};

    ghost Value = { List (FrameIdentity × ℕ) };

    ghost view = { λ a. a.counts.entries };
}

impl Attempts {
    /// The counts of a run without slots.
    ///
    /// Promise: the counts stand for the run without slots, for the rules of the script
    /// (`AreCountsOf`).
    ///
    /// Shown by: `edcan_sender_stops_after_the_first_attempt`.
    ///
    /// # Errors
    ///
    /// `Memory`: out of memory.
    pub fn build(alloc: Global, script: &Script) -> Result<Attempts, Memory>
        ensures { IfOk result (AreCountsOf script.now []) }
    {
        let mut counts = BTreeMap::new(alloc);
        for rule in script.rules() {
            enter(&mut counts, rule)?;
        }
        Ok(Attempts { counts })
    }

    /// Counts an attempt to carry the frame, and gives its number, counted from 1. For a frame that
    /// no rule names the number is 0.
    ///
    /// A count stands still at the end of its type, which no run of a scenario reaches.
    ///
    /// Promise: of counts that stand for a run, the number is one more than the slots of the run
    /// that carried the frame, and 0 for a frame that no rule names. A number stands still at
    /// 4,294,967,295. The counts then stand for the run with one slot more that carries the frame.
    ///
    /// Shown by: `edcan_sender_stops_after_the_first_attempt`, `attempt_off_by_one`.
    pub fn count(&mut self, frame: &Frame) -> u32
        ensures number { (rules : List Rule) (trace : List SlotNote) → AreCountsOf rules trace self.old
            → result ≡ min (next_attempt rules trace frame.now) greatest }
        ensures counted { (rules : List Rule) (trace : List SlotNote) (note : SlotNote) → AreCountsOf rules trace self.old
            → note.frame ≡ Some frame.now → AreCountsOf rules (note ∷ trace) self.new }
    {
        raise(&mut self.counts, &FrameIdentity::of(frame)).unwrap_or(0)
    }
}

/// Enters the identity of the frame that a rule names, if it names one.
fn enter(counts: &mut BTreeMap<FrameIdentity, u32>, rule: &Rule) -> Result<(), Memory>
    ensures { (rules : List Rule) → HasIdentities rules counts.old.entries → OnOk result (HasIdentities (rules ++ rule.now ∷ []) counts.new.entries) }
{
    match rule.place {
        Place::At { .. } => Ok(()),
        Place::FrameNth {
            class,
            number,
            node,
            ..
        } => {
            counts.insert(FrameIdentity::new(class, number, node), 0)?;
            Ok(())
        }
    }
}

/// Raises the count of an identity by one, where there is one, and gives it.
fn raise(counts: &mut BTreeMap<FrameIdentity, u32>, identity: &FrameIdentity) -> Option<u32>
    ensures answer { result ≡ option_map raised (get identity_cmp counts.old identity.now) }
    ensures raised { (other : FrameIdentity) → get identity_cmp counts.new other
        ≡ (if is_eq (identity_cmp identity.now other) then option_map raised (get identity_cmp counts.old other) else get identity_cmp counts.old other) }
{
    let count = counts.get_mut(identity)?;
    *count = count.saturating_add(1);
    Some(*count)
}
