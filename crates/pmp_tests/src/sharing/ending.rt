//! Checkers whose publisher is ended: they are given no entrance any more, and decide in what they know.

use super::unit::{Seat, Unit, by_entry, look};
use super::{ENTRY_ONE, ENTRY_ZERO};
use pmp_share::ShareFault;

/// The first has looked at all, and the second learns the last events then.
#[test]
fn checkers_decide_after_the_end(rt: HostRuntime) {
    let mut unit = Unit::start(&rt, rt.alloc());
    unit.publish(&rt, &ENTRY_ZERO, 2);
    unit.look(&rt, Seat::Second, by_entry(0), 2);
    unit.publish(&rt, &ENTRY_ONE, 4);
    unit.look(&rt, Seat::First, by_entry(1), 4);
    let mut left = unit.end(&rt);
    look(&rt, &mut left.first, by_entry(1), 4);
    look(&rt, &mut left.second, by_entry(0), 2);
    let mut second = left.learn();
    look(&rt, &mut second, by_entry(1), 4);
    assert!(rt; second.copy_journal().err() == Some(ShareFault::NoPlace));
}

/// What is pending at the end isn't in the journal that comes back, and no checker sees it: not the first, which looks,
/// nor the second, which learns the last notice. A body that published it, or gave it back with the rest, is refused.
#[test]
fn what_is_pending_ends_unseen(rt: HostRuntime) {
    let mut unit = Unit::start(&rt, rt.alloc());
    unit.publish(&rt, &ENTRY_ZERO, 2);
    unit.publish(&rt, &[], 2);
    unit.look(&rt, Seat::First, by_entry(0), 2);
    unit.submit(&rt, &ENTRY_ONE);
    unit.submit(&rt, &[]);
    let mut left = unit.end(&rt);
    assert!(rt; left.journal.events() == ENTRY_ZERO.as_slice());
    assert!(rt; left.journal.ends() == [2, 2].as_slice());
    look(&rt, &mut left.first, by_entry(0), 2);
    let mut second = left.learn();
    look(&rt, &mut second, by_entry(0), 2);
}
