//! How many checkers and notices of a unit there are.

ghost use Rattle.std.specs.Prelude.{◌≤◌};
ghost use Rattle.pmp_share.specs.declared.opening.TheConstants.{CHECKERS};

use super::ENTRY_ZERO;
use super::unit::{end, publish, tell};
use pmp_share::{CHECKERS, ShareFault, start};
use std::alloc::Global;
use std::process::Abort;
use std::sync::Wait;

/// How many checkers and notices of a unit there are at once.
const PLACES: usize = 32;

/// With so many checkers, gives as many notices as there are places left, and no more. A place is free again once its
/// notice is dropped.
fn use_all_places<R: Wait + Abort>(rt: &R, alloc: Global, count: u8)
    requires { (1 ≤ count) × (count ≤ CHECKERS) }
{
    let (mut publisher, checkers) = start(rt, alloc, count).expect(rt, "memory");
    assert!(rt; checkers.len() == usize::from(count));
    let mut notices = Vec::new(alloc);
    for _ in usize::from(count)..PLACES {
        let notice = tell(rt, &mut publisher);
        notices.push(notice).ok().expect(rt, "memory");
    }
    assert!(rt; publisher.tell().err() == Some(ShareFault::NoPlace));
    drop(notices.pop());
    let notice = tell(rt, &mut publisher);
    notices.push(notice).ok().expect(rt, "memory");
    assert!(rt; publisher.tell().err() == Some(ShareFault::NoPlace));
    publish(rt, &mut publisher, &ENTRY_ZERO, 2);
    drop(notices);
    assert!(rt; tell(rt, &mut publisher).len() == 2);
    end(rt, publisher);
}

/// A unit is refused here that has a place more or fewer, or keeps the place of a notice that was dropped.
#[test]
fn so_many_checkers_and_notices_are_out_at_once(rt: HostRuntime) {
    use_all_places(&rt, rt.alloc(), 1);
    use_all_places(&rt, rt.alloc(), CHECKERS);
}
