//! The meeting point of a publisher and the threads of its checkers.

use std::sync::atomic::{AtomicU64, Ordering};
use std::sync::{Barrier, Wait};

#[derive(Drop)]
pub struct Meeting {
    barrier: Barrier,
    busy: AtomicU64,
    shown: AtomicU64,
}

impl Meeting {
    /// Creates a meeting of `threads` threads, over once `busy` have left, after `shown` events were published.
    pub fn new(threads: usize, busy: usize, shown: u64) -> Meeting {
        Meeting {
            barrier: Barrier::new(threads),
            busy: AtomicU64::new(busy as u64),
            shown: AtomicU64::new(shown),
        }
    }

    /// Waits until all threads are there.
    pub fn wait<R: Wait>(&self, rt: &R) {
        self.barrier.wait(rt);
    }

    pub fn leave(&self) {
        self.busy.fetch_sub(1, Ordering::SeqCst);
    }

    pub fn is_over(&self) -> bool {
        self.busy.load(Ordering::SeqCst) == 0
    }

    /// Notes that a publication has returned, after which this many events are published.
    pub fn show(&self, events: u64) {
        self.shown.store(events, Ordering::SeqCst);
    }

    /// Returns the least number of events in each look that starts from now on.
    pub fn shown(&self) -> u64 {
        self.shown.load(Ordering::SeqCst)
    }
}
