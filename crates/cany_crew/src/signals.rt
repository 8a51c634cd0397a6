//! What workers tell one another outside the lock.

use crate::event_count::EventCount;
use std::sync::atomic::{AtomicBool, AtomicU64, Ordering};
use std::thread;

/// How long a worker waits for an event before it gives up, in milliseconds.
const PATIENCE_MILLIS: u64 = 2_000;

/// How long the worker of a node sleeps between two looks, in milliseconds.
const NODE_NAP_MILLIS: u64 = 10;

/// How long the worker of the bus sleeps between two looks, in milliseconds. By the first it tells
/// whether the nodes came soon.
const BUS_NAP_MILLIS: u64 = 1;

/// How often the worker of a node lets other threads run before it sleeps.
const MOST_YIELDS: u32 = 20;

/// What each worker looks at between its steps.
#[derive(Drop)]
pub(crate) struct Signals {
    halted: AtomicBool,
    over: AtomicBool,
    /// Whether the workers of nodes look for a slot before they sleep.
    looking: AtomicBool,
    turns: AtomicU64,
    /// At how many turns the bus is called.
    wanted: AtomicU64,
    /// The slots that ran, for the workers of nodes: a turn that cannot be made needs a notice, or
    /// a restart.
    pub(crate) slots: EventCount,
    /// The calls of the worker of the bus: a slot that cannot run needs nodes that read.
    pub(crate) calls: EventCount,
}

impl Signals {
    pub(crate) fn new() -> Signals {
        Signals {
            halted: AtomicBool::new(false),
            over: AtomicBool::new(false),
            looking: AtomicBool::new(false),
            turns: AtomicU64::new(0),
            wanted: AtomicU64::new(0),
            slots: EventCount::new(NODE_NAP_MILLIS, PATIENCE_MILLIS / NODE_NAP_MILLIS),
            calls: EventCount::new(BUS_NAP_MILLIS, PATIENCE_MILLIS / BUS_NAP_MILLIS),
        }
    }

    /// Whether a gate has refused a pass. Then each worker ends at its next step.
    pub(crate) fn are_halted(&self) -> bool {
        self.halted.load(Ordering::SeqCst)
    }

    /// A gate has refused a pass. Those that wait are to see it.
    pub(crate) fn halt(&self) {
        self.halted.store(true, Ordering::SeqCst);
        self.slots.advance();
        self.calls.advance();
    }

    /// Whether the worker of the bus has ended. Then no more notices come.
    pub(crate) fn are_over(&self) -> bool {
        self.over.load(Ordering::SeqCst)
    }

    /// The worker of the bus has ended. Those that wait for a slot are to see it.
    pub(crate) fn end(&self) {
        self.over.store(true, Ordering::SeqCst);
        self.slots.advance();
    }

    /// How many turns were counted.
    pub(crate) fn turns(&self) -> u64 {
        self.turns.load(Ordering::SeqCst)
    }

    /// Counts a turn that was made. The bus is called by the last turn for which it waits.
    pub(crate) fn count_turn(&self) {
        // Counted before `wanted` is looked at, while the bus stores `wanted` before it looks at
        // the count. So either this call sees what is wanted and calls, or the bus sees the turn.
        let before = self.turns.fetch_add(1, Ordering::SeqCst);
        if before.wrapping_add(1) == self.wanted() {
            self.calls.advance();
        }
    }

    /// At how many turns the bus is called.
    pub(crate) fn wanted(&self) -> u64 {
        self.wanted.load(Ordering::SeqCst)
    }

    /// Asks for a call of the bus when so many turns are counted.
    pub(crate) fn want(&self, turns: u64) {
        self.wanted.store(turns, Ordering::SeqCst);
    }

    /// Whether the workers of nodes are to look for a slot before they sleep.
    pub(crate) fn set_looking(&self, looking: bool) {
        self.looking.store(looking, Ordering::SeqCst);
    }

    /// Looks for a slot beyond those that were counted, and lets other threads run in between, as
    /// long as workers are to look.
    pub(crate) fn finds_slot_beyond(&self, counted: u64) -> bool {
        for _ in 0..MOST_YIELDS {
            if self.slots.read() != counted {
                return true;
            }
            if !self.looking.load(Ordering::SeqCst) {
                return false;
            }
            thread::yield_now();
        }
        false
    }
}
