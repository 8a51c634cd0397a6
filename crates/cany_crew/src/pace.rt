//! Whether it pays that the workers of nodes look for a slot before they sleep.

use crate::event_count::Waited;
use crate::signals::Signals;

/// For how many slots workers sleep before they look again, at least and at most.
const LEAST_REST: u64 = 32;

const MOST_REST: u64 = 4_096;

/// How many times as long they sleep after looks that did not pay.
const REST_GROWTH: u64 = 8;

/// How many waits of the bus have to end soon before the first that does not, if the looks have
/// paid.
const WORTH: u64 = 64;

/// What the worker of the bus has found out about looking. It sleeps while it waits for the nodes,
/// and where they have not come when its first nap is over, they stop to look: other programs want
/// the processors then, and a worker that lets others run may wait for milliseconds.
///
/// In the first slots all sleep, by which the system spreads them over the processors.
#[derive(Drop)]
pub(crate) struct Pace {
    looking: bool,
    /// How many slots are left before workers look again.
    left: u64,
    /// How many there were when they last began to sleep.
    rest: u64,
    /// How many waits have ended soon since they look.
    soon: u64,
}

impl Pace {
    pub(crate) fn new() -> Pace {
        Pace {
            looking: false,
            left: LEAST_REST,
            rest: LEAST_REST,
            soon: 0,
        }
    }

    /// A slot is to run. After the rest workers look from here on.
    pub(crate) fn begin_slot(&mut self, signals: &Signals) {
        if self.looking {
            return;
        }
        if self.left > 0 {
            self.left -= 1;
            return;
        }
        self.looking = true;
        self.soon = 0;
        signals.set_looking(true);
    }

    /// A wait of the bus has ended. Workers stop to look where the nodes came late.
    pub(crate) fn end_wait(&mut self, signals: &Signals, waited: Waited) {
        if !self.looking {
            return;
        }
        if let Waited::Soon = waited {
            self.soon = self.soon.saturating_add(1);
            return;
        }
        self.looking = false;
        signals.set_looking(false);
        self.rest = if self.soon >= WORTH {
            LEAST_REST
        } else {
            self.rest.saturating_mul(REST_GROWTH).min(MOST_REST)
        };
        self.left = self.rest;
    }
}
