ghost use Rattle.std.specs.Prelude.{◌≡◌, [], ℕ, true, false, List, Some, Ok, OnOk, IsTrue, if◌then◌else◌};
ghost use Rattle.cany_media.specs.Plan.{FaultParts, line_at, spans};
ghost use Rattle.cany_media.specs.Stretches.{AreInOrder, HasShared, IsFree, IsTableOf, found_at, next_at, place_at};

use crate::line::{Line, LineFault};
use cany_base::{Memory, Slot};
use std::alloc::Global;
use std::marker::Model;

/// Faults of one line, of which no two share a slot, in the order of their slots: so the one that
/// has a slot is found by halving.
#[derive(Drop)]
pub(crate) struct Stretches {
    faults: Vec<LineFault>,
}

impl Model for Stretches {
    ghost use Rattle.std.specs.Prelude.{List};
    ghost use Rattle.cany_media.specs.Plan.{FaultParts};
    ghost use Rattle.cany_media.specs.Stretches.{AreInOrder};

    ghost Value = { List FaultParts };

    ghost view = { λ s. s.faults.items };

    ghost invariant = { λ s. AreInOrder s.faults.items };
}

impl Stretches {
    pub(crate) fn none(alloc: Global) -> Stretches
        ensures { result ≡ [] }
    {
        Stretches {
            faults: Vec::new(alloc),
        }
    }

    /// The place of the first fault that does not end before the slot, or their number.
    fn place(&self, slot: Slot) -> usize
        ensures { result ≡ place_at self.now slot }
    {
        self.faults.partition_point(|fault| fault.to < slot)
    }

    /// The first fault that does not end before the slot.
    fn next(&self, slot: Slot) -> Option<LineFault>
        ensures next { result ≡ next_at self.now slot }
        ensures order { AreInOrder self.now }
    {
        let place = self.place(slot);
        let faults = self.faults.as_slice();
        if place < faults.len() {
            Some(faults[place])
        } else {
            None
        }
    }

    /// The fault that has the slot.
    fn at(&self, slot: Slot) -> Option<LineFault>
        ensures { result ≡ found_at self.now slot }
    {
        let fault = self.next(slot)?;
        if fault.from <= slot {
            Some(fault)
        } else {
            None
        }
    }

    /// Whether the fault shares no slot with one of these.
    fn is_free(&self, fault: &LineFault) -> bool
        ensures free { IsTrue result → IsFree self.now fault.now }
        ensures taken { result ≡ false → HasShared self.now fault.now }
    {
        match self.next(fault.from) {
            Some(other) => fault.to < other.from,
            None => true,
        }
    }

    /// Enters a fault that shares no slot with one of these.
    fn put(&mut self, fault: &LineFault) -> Result<(), Memory>
        requires { IsFree self.old fault.now }
        ensures { OnOk result ((slot : ℕ) → found_at self.new slot ≡ (if spans slot fault.now then Some fault.now else found_at self.old slot)) }
    {
        let place = self.place(fault.from);
        self.faults.insert(place, *fault)?;
        Ok(())
    }

    /// Enters a fault, unless it shares a slot with one of these. It answers whether it does not.
    pub(crate) fn enter(&mut self, fault: &LineFault) -> Result<bool, Memory>
        ensures taken { result ≡ Ok false → HasShared self.old fault.now }
        ensures free { result ≡ Ok true → IsFree self.old fault.now }
        ensures entered { result ≡ Ok true → (slot : ℕ) → found_at self.new slot ≡ (if spans slot fault.now then Some fault.now else found_at self.old slot) }
    {
        if !self.is_free(fault) {
            return Ok(false);
        }
        self.put(fault)?;
        Ok(true)
    }

    /// How the line is in a slot.
    pub(crate) fn line(&self, slot: Slot) -> Line
        ensures { (faults : List FaultParts) (line : ℕ) → IsTableOf faults line self.now → result ≡ line_at faults slot line }
    {
        match self.at(slot) {
            Some(fault) => fault.state,
            None => Line::Whole,
        }
    }
}
