//! Counts of events, by which workers wait for one another outside the lock.

use std::sync::Wait;
use std::sync::atomic::{AtomicU64, Ordering};
use std::time::Duration;

/// How a wait for an event ended.
#[derive(Clone, Copy)]
pub(crate) enum Waited {
    /// An event came before the first nap was over.
    Soon,
    /// An event came later.
    Late,
    /// None came for so long that the worker gives up.
    InVain,
}

/// A count of events that only rises. A worker whose step cannot be made waits here for the next
/// event, and takes no lock meanwhile.
#[derive(Drop)]
pub(crate) struct EventCount {
    events: AtomicU64,
    /// How many workers sleep, or are about to.
    sleepers: AtomicU64,
    /// How long a worker sleeps before it looks at the count again, in milliseconds. An event wakes
    /// it earlier.
    nap_millis: u64,
    /// After how many naps without an event it gives up.
    most_naps: u64,
}

impl EventCount {
    pub(crate) fn new(nap_millis: u64, most_naps: u64) -> EventCount {
        EventCount {
            events: AtomicU64::new(0),
            sleepers: AtomicU64::new(0),
            nap_millis,
            most_naps,
        }
    }

    /// How many events there were. A worker asks before it looks at anything else.
    pub(crate) fn read(&self) -> u64 {
        self.events.load(Ordering::SeqCst)
    }

    /// Counts an event, and wakes all that sleep.
    pub(crate) fn advance(&self) {
        // Counted before the sleepers are looked at, while a worker announces itself before its
        // sleep compares the count. So either this call sees the sleeper and wakes it, or that one
        // sees the event and does not sleep.
        self.events.fetch_add(1, Ordering::SeqCst);
        if self.sleepers.load(Ordering::SeqCst) > 0 {
            self.events.wake_all();
        }
    }

    /// Waits for an event beyond those that were counted.
    pub(crate) fn wait_beyond<R: Wait>(&self, rt: &R, counted: u64) -> Waited {
        if self.read() != counted {
            return Waited::Soon;
        }
        // A thread is parked by the low half of the count.
        let low = (counted & 0xffff_ffff) as u32;
        for naps in 0..self.most_naps {
            // Announced before the parking compares the count, as `advance` needs it.
            self.sleepers.fetch_add(1, Ordering::SeqCst);
            self.events
                .park_timeout(rt, low, Duration::from_millis(self.nap_millis));
            self.sleepers.fetch_sub(1, Ordering::SeqCst);
            if self.read() != counted {
                return if naps == 0 {
                    Waited::Soon
                } else {
                    Waited::Late
                };
            }
        }
        Waited::InVain
    }
}
