ghost use Rattle.std.specs.Prelude.{◌≡◌, ◌<◌, true, [], drop, length, IfOk};
ghost use Rattle.std.specs.List.{AllByRecursion};
ghost use Rattle.cany_relcan.specs.Timers.{oldest_frame, oldest_from, oldest_start, with_timer, without_from};

use cany_base::{Frame, Memory, Slot};
use circular_buffer::HeapCircularBuffer;
use std::alloc::Global;
use std::marker::Model;

/// The timer of a message, which its first copy started.
#[derive(Clone, Copy)]
pub(crate) struct Timer {
    /// The copy.
    pub(crate) frame: Frame,
    /// The slot in which the node got it.
    pub(crate) first: Slot,
}

/// The timers of a node that run, in the order in which they were started. All run for the same
/// time, so they run out in that order. They stand in a ring, of which no more is touched than ever
/// runs at once. In most turns none is due, so when the oldest was started stands beside the ring.
#[derive(Drop)]
pub(crate) struct Timers {
    running: HeapCircularBuffer<Timer>,
    /// The slot in which the oldest was started, `Slot::MAX` where none runs.
    oldest: Slot,
}

impl Model for Timers {
    ghost use Rattle.std.specs.Prelude.{◌≡◌};
    ghost use Rattle.cany_relcan.specs.Timers.{IsAscending, TimersParts, oldest_start};

    ghost Value = { TimersParts };

    ghost view = { λ t. record { running = t.running.items; room = t.running.capacity } };

    ghost invariant = { λ t. IsAscending t.running.items × (t.oldest ≡ oldest_start t.running.items) };
}

impl Timers {
    /// No timers, with room for `room` of them at once.
    pub(crate) fn build(alloc: Global, room: usize) -> Result<Timers, Memory>
        ensures { IfOk result (λ timers. timers ≡ record { running = []; room = room }) }
    {
        let running = HeapCircularBuffer::with_capacity(alloc, room)?;
        Ok(Timers {
            running,
            oldest: Slot::MAX,
        })
    }

    /// Starts a timer, in a later slot than those that run.
    pub(crate) fn start(&mut self, timer: Timer)
        requires room { length self.old.running < self.old.room }
        requires later { AllByRecursion (λ t. t.first < timer.first) self.old.running }
        ensures { self.new ≡ with_timer timer self.old }
    {
        // The ring has room, as this call requires.
        let _ = self.running.push_back(timer);
        self.oldest = start_of_oldest(&self.running);
    }

    /// Ends the oldest timer that runs if it was started in this slot, and gives its frame.
    // A hint: in most turns none is due.
    #[inline(always)]
    pub(crate) fn end_of(&mut self, first: Slot) -> Option<Frame>
        ensures due { result ≡ oldest_from first self.old.running }
        ensures timers { self.new ≡ record self.old { running = without_from first self.old.running } }
    {
        if self.oldest != first {
            return None;
        }
        self.end_oldest()
    }

    /// Ends the oldest timer that runs, and gives its frame.
    #[inline(always)]
    fn end_oldest(&mut self) -> Option<Frame>
        ensures due { result ≡ oldest_frame self.old.running }
        ensures timers { self.new ≡ record self.old { running = drop 1 self.old.running } }
    {
        let oldest = self.running.pop_front()?;
        self.oldest = start_of_oldest(&self.running);
        Some(oldest.frame)
    }

    /// The slot in which the oldest timer that runs was started, `Slot::MAX` where none runs.
    pub(crate) fn oldest(&self) -> Slot
        ensures { result ≡ oldest_start self.now.running }
    {
        self.oldest
    }

    /// Whether no timer runs.
    pub(crate) fn are_none(&self) -> bool
        ensures { result ≡ true → self.now.running ≡ [] }
    {
        self.running.is_empty()
    }
}

/// The slot in which the first of these timers was started, `Slot::MAX` where there is none.
fn start_of_oldest(running: &HeapCircularBuffer<Timer>) -> Slot
    ensures { result ≡ oldest_start running.now.items }
{
    match running.front() {
        Some(oldest) => oldest.first,
        None => Slot::MAX,
    }
}
