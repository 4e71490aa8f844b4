//! Rings of notices.

ghost use Rattle.std.specs.Prelude.{◌≡◌};

use super::unit::{end, tell, unit_of_one};
use pmp_share::{Notice, NoticeSender};
use std::process::Abort;

/// Sends the notice, for which there is room.
fn send(rt: &impl Abort, notices: &mut NoticeSender, notice: Notice)
    requires { notice.unit ≡ notices.old.unit }
    ensures { notices.new.unit ≡ notices.old.unit }
{
    assert!(rt; notices.send(notice).is_ok());
}

#[test]
fn a_sender_sees_its_receiver_dropped(rt: HostRuntime) {
    let (mut publisher, _checker) = unit_of_one(&rt, rt.alloc());
    let (mut sender, receiver) = publisher.notice_ring(rt.alloc(), 1).expect(&rt, "memory");
    assert!(rt; !sender.is_abandoned());
    drop(receiver);
    assert!(rt; sender.is_abandoned());
    end(&rt, publisher);
}

#[test]
fn a_receiver_sees_its_sender_dropped(rt: HostRuntime) {
    let (mut publisher, _checker) = unit_of_one(&rt, rt.alloc());
    let (mut sender, mut receiver) = publisher.notice_ring(rt.alloc(), 1).expect(&rt, "memory");
    send(&rt, &mut sender, tell(&rt, &mut publisher));
    assert!(rt; !receiver.is_abandoned());
    drop(sender);
    assert!(rt; receiver.is_abandoned() && receiver.receive().is_some());
    end(&rt, publisher);
}
