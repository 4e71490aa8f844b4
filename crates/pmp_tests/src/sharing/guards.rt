//! Guards, which end publishers where they are dropped.

use super::unit::{by_entry, look, page_load, publish, submit, unit_of_one};
use super::{ENTRY_ONE, ENTRY_ZERO};
use pmp_share::{Checker, PublisherGuard, ShareFault};
use std::alloc::Global;
use std::process::Abort;
use std::sync::atomic::{AtomicU64, Ordering};
use std::sync::{Arc, Wait};
use std::thread;
use std::thread::Threads;

/// The checker answers what it knew.
#[test]
fn a_dropped_guard_ends_its_publisher(rt: HostRuntime) {
    let (mut publisher, mut checker) = unit_of_one(&rt, rt.alloc());
    publish(&rt, &mut publisher, &ENTRY_ZERO, 2);
    look(&rt, &mut checker, by_entry(0), 2);
    drop(PublisherGuard::new(rt, publisher));
    look(&rt, &mut checker, by_entry(0), 2);
    assert!(rt; checker.copy_journal().err() == Some(ShareFault::NoPlace));
}

/// Says that it began by 1, and decides and counts until that is 2. Answers the most events.
fn most_seen<R: Wait + Abort>(rt: &R, mut checker: Checker, stage: &AtomicU64) -> u64 {
    let mut most = 0;
    for _ in rt.forever() {
        let is_last = stage.load(Ordering::SeqCst) == 2;
        let (_, count) = checker.decide(&page_load(rt));
        most = checker.count().max(count).max(most);
        if is_last {
            break;
        }
        let _ = stage.compare_exchange(0, 1, Ordering::SeqCst, Ordering::SeqCst);
    }
    most
}

/// Drops a guard, with a batch pending, while the checker is asked on a thread.
fn drop_while_asked<R: Threads + Wait + Abort + Copy + Drop + Send + 'static>(
    rt: &R,
    alloc: Global,
) {
    let (mut publisher, checker) = unit_of_one(rt, alloc);
    publish(rt, &mut publisher, &ENTRY_ZERO, 2);
    submit(rt, &mut publisher, &ENTRY_ONE);
    let stage = Arc::new(alloc, AtomicU64::new(0)).expect(rt, "memory");
    let (runtime, theirs) = (*rt, Arc::try_clone(&stage).expect(rt, "memory"));
    let asked = move || most_seen(&runtime, checker, &theirs);
    let thread = thread::spawn(rt, asked).ok().expect(rt, "a thread");
    for _ in rt.forever() {
        if stage.load(Ordering::SeqCst) == 1 {
            break;
        }
        thread::yield_now();
    }
    drop(PublisherGuard::new(*rt, publisher));
    stage.store(2, Ordering::SeqCst);
    assert!(rt; thread.join(rt) == 2);
}

/// So it is where an error leaves a publisher with a batch that was submitted and not published. A guard that publishes
/// it before the end shows it for a moment, so this is done again and again.
#[test]
fn a_dropped_guard_shows_nothing(rt: HostRuntime) {
    for _ in 0..500 {
        drop_while_asked(&rt, rt.alloc());
    }
}
