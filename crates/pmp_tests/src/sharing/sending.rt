//! Publishers on threads of their own, to which guards take them.

ghost use Rattle.std.specs.Prelude.{◌≡◌};

use super::unit::{publish, tell};
use pmp_core::Event;
use pmp_share::{Checker, Notice, NoticeReceiver, NoticeSender, PublisherGuard, start};
use std::process::Abort;
use std::sync::Wait;
use std::thread;

/// How many notices are sent to a thread that runs on.
const NOTICES: u64 = 2_000;

/// Sends the notice as soon as there is room for it.
fn send<R: Wait>(rt: &R, notices: &mut NoticeSender, notice: Notice)
    requires { notice.unit ≡ notices.old.unit }
    ensures { notices.new.unit ≡ notices.old.unit }
{
    let mut unsent = notice;
    for _ in rt.forever() {
        match notices.send(unsent) {
            Ok(()) => break,
            Err(back) => unsent = back,
        }
        thread::yield_now();
    }
}

/// Sends a notice of each publication of one event, and gives the publisher back.
fn publish_there<R: Wait + Abort + Drop>(
    rt: R,
    guard: PublisherGuard<R>,
    mut notices: NoticeSender,
) -> PublisherGuard<R>
    requires { notices.unit ≡ guard.unit }
{
    let mut publisher = guard.into_publisher();
    for published in 1..=NOTICES {
        publish(&rt, &mut publisher, &[Event::Reset], published);
        let notice = tell(&rt, &mut publisher);
        send(&rt, &mut notices, notice);
    }
    PublisherGuard::new(rt, publisher)
}

/// Learns of each notice as it comes, once and in their order, until the sender is gone. A look behind that is at no
/// fewer events.
fn learn_all<R: Wait + Abort>(rt: &R, mut checker: Checker, mut notices: NoticeReceiver)
    requires { notices.unit ≡ checker.unit }
{
    let mut learnt = 0u64;
    for _ in rt.forever() {
        let is_last = notices.is_abandoned();
        if let Some(notice) = notices.receive() {
            learnt = learnt.wrapping_add(1);
            assert!(rt; notice.len() == learnt);
            checker.learn(notice);
            assert!(rt; checker.count() >= learnt);
        } else if is_last {
            break;
        }
        thread::yield_now();
    }
    assert!(rt; learnt == NOTICES);
}

/// Through a ring of two, while the publisher is on a thread. It comes back.
#[test]
fn each_notice_comes_once_and_in_order(rt: HostRuntime) {
    let (mut publisher, mut checkers) = start(&rt, rt.alloc(), 1).expect(&rt, "memory");
    let checker = checkers.pop().expect(&rt, "a checker");
    let (sender, receiver) = publisher.notice_ring(rt.alloc(), 2).expect(&rt, "a ring");
    let guard = PublisherGuard::new(rt, publisher);
    let firmware = move || -> PublisherGuard<HostRuntime>
        requires { sender.unit ≡ guard.unit }
    { publish_there(rt, guard, sender) };
    let thread = thread::spawn(&rt, firmware).ok().expect(&rt, "a thread");
    learn_all(&rt, checker, receiver);
    let journal = thread.join(&rt).into_publisher().into_journal(&rt);
    assert!(rt; journal.events().len() as u64 == NOTICES);
}
