//! The code of docs/USING.md in Rattle, line by line: checks/documents compares the two.

ghost use Rattle.std.specs.Prelude.{◌≡◌, IfOk};

use pmp_core::{Access, AccessFault, Csr, Event, Kind, Mode, Perms, RegFile};
use pmp_map::RunMap;
use pmp_share::{Batch, Checker, Notice, Publisher, ShareFault, start};
use std::alloc::Global;
use std::process::Abort;
use std::sync::Wait;

fn decide_on_one_thread() -> Result<bool, AccessFault> {
    let mut file = RegFile::reset();
    file.step(Event::Write(Csr::Addr(0), 0x200001ff));
    file.step(Event::Write(Csr::Cfg(0), 0x19));
    let map = RunMap::build(&file);
    let access = Access::new(Mode::U, Kind::Load, 0x80000ff8, 8)?;
    let decision = map.decide(&file, &access);
    Ok(decision.allowed)
}

#[test]
fn one_thread_decides(rt: HostRuntime) {
    assert!(rt; decide_on_one_thread() == Ok(true));
}

/// The firmware's hart.
fn run_firmware<R: Wait>(rt: &R, publisher: &mut Publisher) -> Result<Notice, ShareFault>
    ensures unit { publisher.new.unit ≡ publisher.old.unit }
    ensures told { IfOk result (λ notice. notice.unit ≡ publisher.old.unit) }
{
    let batch = Batch::of(&[
        Event::Write(Csr::Addr(0), 0x200001ff),
        Event::Write(Csr::Cfg(0), 0x19),
    ])
    .or(Err(ShareFault::Full))?;
    publisher.submit(&batch)?;
    publisher.publish(rt)?;
    publisher.tell()
}

/// The notice goes through a ring to the other hart.
fn run_by_ring(
    alloc: Global,
    publisher: &mut Publisher,
    checker: &mut Checker,
) -> Result<(), ShareFault>
    requires { checker.old.unit ≡ publisher.old.unit }
{
    let (mut sender, mut receiver) = publisher.notice_ring(alloc, 4)?;
    if let Err(notice) = sender.send(publisher.tell()?) {
        drop(notice);
    }
    if let Some(notice) = receiver.receive() {
        checker.learn(notice);
    }
    Ok(())
}

/// The other hart.
fn follow(rt: &impl Abort, checker: &mut Checker, notice: Notice)
    requires { notice.unit ≡ checker.old.unit }
    ensures { checker.new.unit ≡ checker.old.unit }
{
    let access = Access::new(Mode::U, Kind::Load, 0x80000ff8, 8).expect(rt, "a lawful access");
    let page = 0x80000000;
    checker.learn(notice);
    let (decision, events) = checker.decide(&access);
    assert!(rt; decision.allowed && events == 2);
    let (decisions, events) = checker.decide_group(&[access, access]);
    assert!(rt; decisions.len() == 2 && events == 2);
    let (rights, events) = checker.rights(Mode::U, page, 0x1000);
    assert!(rt; rights == Some(Perms::R) && events == 2);
    let events = checker.count();
    assert!(rt; events == 2);
    let (value, events) = checker.read(Csr::Addr(0));
    assert!(rt; value == 0x200001ff && events == 2);
}

#[test]
fn the_other_hart_learns(rt: HostRuntime) {
    let (mut publisher, mut checkers) = start(&rt, rt.alloc(), 1).expect(&rt, "memory");
    let mut checker = checkers.pop().expect(&rt, "a checker");
    let notice = run_firmware(&rt, &mut publisher).expect(&rt, "memory");
    follow(&rt, &mut checker, notice);
    assert!(rt; run_by_ring(rt.alloc(), &mut publisher, &mut checker).is_ok());
    let value = publisher.read(Csr::Addr(0));
    assert!(rt; value == 0x200001ff);
    let journal = checker.copy_journal().expect(&rt, "memory");
    assert!(rt; journal.events().len() == 2);
    publisher.end(&rt);
}
