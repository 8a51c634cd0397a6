ghost use Rattle.std.specs.Prelude.{◌≡◌, ◌+◌, [], ◌∷◌, take, IfOk};

use cany_base::{Memory, Params, Slot};
use circular_buffer::HeapCircularBuffer;
use std::alloc::Global;
use std::marker::Model;

/// The newest Lost or Partial slots of a run: one more than a window may have.
#[derive(Drop)]
pub(crate) struct ErrorWindow {
    /// Newest first.
    slots: HeapCircularBuffer<Slot>,
    errors: usize,
    span: u64,
}

impl Model for ErrorWindow {
    ghost use Rattle.std.specs.Prelude.{◌≡◌, ◌+◌};
    ghost use Rattle.can_fault.specs.Window.{Window};

    ghost Value = { Window };

    ghost view = { λ w. record { recent = w.slots.items; errors = w.errors; span = w.span } };

    ghost invariant = { λ w. w.slots.capacity ≡ w.errors + 1 };
}

impl ErrorWindow {
    ghost use Rattle.can_fault.specs.Window.{Window, is_crowded};

    /// The window of a run without slots.
    pub(crate) fn build(alloc: Global, params: &Params) -> Result<ErrorWindow, Memory>
        ensures { IfOk result (λ w. w ≡ record { recent = []; errors = params.now.errors; span = params.now.bound + params.now.lag }) }
    {
        let errors = params.errors as usize;
        let slots = HeapCircularBuffer::with_capacity(alloc, errors + 1)?;
        let span = params.bound + u64::from(params.lag);
        Ok(ErrorWindow {
            slots,
            errors,
            span,
        })
    }

    /// Notes a Lost or Partial slot, and says whether the window that ends there has too many of
    /// them.
    pub(crate) fn note(&mut self, slot: Slot) -> bool
        ensures noted { self.new ≡ record self.old { recent = take (self.old.errors + 1) (slot ∷ self.old.recent) } }
        ensures crowded { result ≡ is_crowded self.new slot }
    {
        self.slots.push_front(slot);
        match self.slots.get(self.errors) {
            Some(oldest) => slot.saturating_sub(*oldest) < self.span,
            None => false,
        }
    }
}
