//! Communication of two harts: how much hart 0 has published, and how far hart 1 is in a remote fence.

ghost use Rattle.std.specs.Prelude.{◌≡◌, ◌≤◌, IfOk};

use crate::hart::Learnt;
use pmp_share::{NoticeSender, ShareFault};
use std::sync::Wait;
use std::sync::atomic::{AtomicU64, Ordering};
use std::thread;

#[derive(Drop)]
pub struct Fence {
    shown: AtomicU64,
    looked: AtomicU64,
    learnt: AtomicU64,
}

/// Evidence that hart 1 has learnt of `events` events. Only a wait for that creates one.
#[derive(Drop)]
pub struct Fenced {
    events: u64,
}

/// Waits until the number is at least `least`, or hart 1 is gone.
fn wait_for<R: Wait>(
    rt: &R,
    number: &AtomicU64,
    least: u64,
    notices: &mut NoticeSender,
) -> Result<u64, ShareFault>
    ensures notices { notices.new.unit ≡ notices.old.unit }
    ensures reached { IfOk result (λ number. least ≤ number) }
{
    for _ in rt.forever() {
        let found = number.load(Ordering::SeqCst);
        if found >= least {
            return Ok(found);
        }
        if notices.is_abandoned() {
            break;
        }
        thread::yield_now();
    }
    Err(ShareFault::NoPlace)
}

impl Fence {
    pub fn new() -> Fence {
        Fence {
            shown: AtomicU64::new(0),
            looked: AtomicU64::new(0),
            learnt: AtomicU64::new(0),
        }
    }

    /// Shows that `events` events are published, and waits until hart 1 has loaded after that. A machine needn't.
    pub fn show<R: Wait>(
        &self,
        rt: &R,
        events: u64,
        notices: &mut NoticeSender,
    ) -> Result<(), ShareFault>
        ensures { notices.new.unit ≡ notices.old.unit }
    {
        self.shown.store(events, Ordering::SeqCst);
        wait_for(rt, &self.looked, events, notices)?;
        Ok(())
    }

    pub fn shown(&self) -> u64 {
        self.shown.load(Ordering::SeqCst)
    }

    /// Notes that hart 1 has loaded after `events` events were shown.
    pub fn look(&self, events: u64) {
        self.looked.store(events, Ordering::SeqCst);
    }

    /// Notes that hart 1 has learnt, which it can't say before.
    pub fn acknowledge(&self, learnt: Learnt) {
        self.learnt.store(learnt.events(), Ordering::SeqCst);
    }

    /// Waits until hart 1 has learnt of `events` events.
    pub fn wait<R: Wait>(
        &self,
        rt: &R,
        events: u64,
        notices: &mut NoticeSender,
    ) -> Result<Fenced, ShareFault>
        ensures notices { notices.new.unit ≡ notices.old.unit }
        ensures fenced { IfOk result (λ fenced. events ≤ fenced.events) }
    {
        Ok(Fenced {
            events: wait_for(rt, &self.learnt, events, notices)?,
        })
    }
}
