//! One unit and its tokens on one thread.

mod asking;
mod ending;
mod guards;
mod limits;
mod reading;
mod rings;
mod sending;
mod unit;

use pmp_core::{Csr, Event};
use unit::{BY_NO_ENTRY, Seat, Unit, by_entry};

/// Entry 0 reads a page.
const ENTRY_ZERO: [Event; 2] = [
    Event::Write(Csr::Addr(0), 0x200001ff),
    Event::Write(Csr::Cfg(0), 0x19),
];

/// Entry 1 reads it in its place. After the first event alone no entry would.
const ENTRY_ONE: [Event; 2] = [
    Event::Write(Csr::Cfg(0), 0x1900),
    Event::Write(Csr::Addr(1), 0x200001ff),
];

#[test]
fn learnt_batches_are_decided_in_whole(rt: HostRuntime) {
    let mut unit = Unit::start(&rt, rt.alloc());
    unit.look(&rt, Seat::First, BY_NO_ENTRY, 0);
    unit.publish(&rt, &ENTRY_ZERO, 2);
    unit.inform(&rt, Seat::First);
    unit.look(&rt, Seat::First, by_entry(0), 2);
    unit.publish(&rt, &ENTRY_ONE, 4);
    unit.inform(&rt, Seat::Second);
    unit.look(&rt, Seat::Second, by_entry(1), 4);
    unit.look(&rt, Seat::First, by_entry(1), 4);
    unit.close(&rt);
}

/// A checker that looked at nothing but what it learnt would answer in 0 and in 2 events.
#[test]
fn a_checker_looks_without_a_notice(rt: HostRuntime) {
    let mut unit = Unit::start(&rt, rt.alloc());
    unit.publish(&rt, &ENTRY_ZERO, 2);
    unit.inform(&rt, Seat::Second);
    unit.look(&rt, Seat::First, by_entry(0), 2);
    unit.publish(&rt, &ENTRY_ONE, 4);
    unit.look(&rt, Seat::First, by_entry(1), 4);
    unit.look(&rt, Seat::Second, by_entry(1), 4);
    unit.close(&rt);
}
