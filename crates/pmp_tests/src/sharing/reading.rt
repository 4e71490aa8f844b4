//! Counts and registers, which look as decisions do.

use super::unit::{end, publish};
use super::{ENTRY_ONE, ENTRY_ZERO};
use pmp_core::Csr;
use pmp_share::{Checker, Publisher, start};
use std::alloc::Global;
use std::process::Abort;
use std::sync::Wait;

/// A publisher and two checkers, with entry 0 published.
fn unit_of_two<R: Wait + Abort>(rt: &R, alloc: Global) -> (Publisher, Checker, Checker) {
    let (mut publisher, mut checkers) = start(rt, alloc, 2).expect(rt, "memory");
    let second = checkers.pop().expect(rt, "two checkers");
    let mut first = checkers.pop().expect(rt, "two checkers");
    assert!(rt; first.count() == 0);
    publish(rt, &mut publisher, &ENTRY_ZERO, 2);
    (publisher, first, second)
}

/// One that answered of what it looked at last would go on to count 0 events.
#[test]
fn a_count_looks_without_a_notice(rt: HostRuntime) {
    let (mut publisher, mut first, mut second) = unit_of_two(&rt, rt.alloc());
    assert!(rt; first.count() == 2 && first.count() == 2);
    assert!(rt; second.read(Csr::Cfg(0)) == (0x19, 2));
    publish(&rt, &mut publisher, &ENTRY_ONE, 4);
    assert!(rt; first.read(Csr::Cfg(0)) == (0x1900, 4));
    assert!(rt; second.count() == 4);
    end(&rt, publisher);
    assert!(rt; first.count() == 4);
}
