//! The cases, one for each call.

ghost use Rattle.std.specs.Prelude.{◌≡◌, ◌+◌, ◌<◌};

use crate::growths::stop::{Stop, Tried};
use crate::growths::unit::{Unit, is_notice_of, submit_all};
use crate::growths::worked::{batch, decision_after, events, file_after, is_journal_of, page_load};
use pmp_core::{Access, Csr, Mode, Perms};
use pmp_share::{Checker, GROUP_ACCESSES, Notice, Publisher, ShareFault, start, start_from};
use std::alloc::Global;
use std::sync::Wait;

/// Each case once, by the word of the command line that stands for it.
pub static CASES: [&str; 14] = [
    "start",
    "start_from",
    "submit",
    "publish",
    "tell",
    "notice_ring",
    "copy_journal",
    "learn",
    "decide",
    "decide_at",
    "decide_group",
    "rights",
    "count",
    "read",
];

/// Whether the unit is new, with two checkers. Ends it.
fn is_new<R: Wait>(rt: &R, (publisher, checkers): (Publisher, Vec<Checker>)) -> bool {
    let counts = (publisher.journal_len(), publisher.pending_len());
    publisher.end(rt);
    counts == (0, 0) && checkers.len() == 2
}

/// Whether a notice comes by a ring.
fn rings(alloc: Global, publisher: &mut Publisher) -> Result<bool, ShareFault> {
    let (mut sender, mut receiver) = publisher.notice_ring(alloc, 1)?;
    let sent = sender.send(publisher.tell()?).is_ok();
    Ok(sent && matches!(receiver.receive(), Some(notice) if is_notice_of(&notice, 2)))
}

/// Whether a group of equal accesses has equal decisions.
fn decides_group(checker: &mut Checker, page: Access) -> bool {
    let (decisions, seen) = checker.decide_group(&[page; GROUP_ACCESSES]);
    decisions.as_slice() == [decision_after(2); GROUP_ACCESSES].as_slice() && seen == events(2)
}

/// Starts a unit as the case says.
fn starts<R: AllocGlobal + Wait>(case: &str, rt: &R) -> Result<bool, ShareFault> {
    let unit = if case == "start" {
        start(rt, rt.alloc(), 2)?
    } else {
        start_from(rt, rt.alloc(), &file_after(1).save(), 2)?
    };
    Ok(is_new(rt, unit))
}

/// Makes the call of a case of the publisher.
fn publishes<R: AllocGlobal + Wait>(
    case: &str,
    rt: &R,
    publisher: &mut Publisher,
) -> Result<bool, ShareFault> {
    match case {
        // Both vectors of pending batches have to grow.
        "submit" => match batch(6) {
            Ok(seventh) => {
                publisher.submit(&seventh)?;
                Ok(true)
            }
            Err(_) => Ok(false),
        },
        "publish" => Ok(publisher.publish(rt)? == events(6)),
        "tell" => Ok(is_notice_of(&publisher.tell()?, 2)),
        _ => rings(rt.alloc(), publisher),
    }
}

/// Learns from the notice, and then decides at its place, where the case says so.
fn learns(case: &str, checker: &mut Checker, notice: Notice) -> bool
    requires { checker.old.unit ≡ notice.unit }
{
    let Ok(page) = page_load() else {
        return false;
    };
    let len = notice.len();
    checker.learn(notice);
    if case == "decide_at" {
        checker.decide_at(len, &page) == Ok(decision_after(2))
    } else {
        checker.count() == events(2)
    }
}

/// Makes the call of a case that only asks the checker.
fn asks(case: &str, checker: &mut Checker) -> bool {
    let Ok(page) = page_load() else {
        return false;
    };
    match case {
        "decide" => checker.decide(&page) == (decision_after(2), events(2)),
        "decide_group" => decides_group(checker, page),
        "rights" => checker.rights(Mode::U, 0x80000000, 4096) == (Some(Perms::R), events(2)),
        "count" => checker.count() == events(2),
        "read" => checker.read(Csr::Cfg(0)) == (0x1900, events(2)),
        _ => false,
    }
}

/// Makes the call of a case, on a unit with two batches published and four pending, which the notice is of. Whether its
/// answer is right.
fn call<R: AllocGlobal + Wait>(
    case: &str,
    rt: &R,
    unit: &mut Unit,
    notice: Notice,
) -> Result<bool, ShareFault>
    requires { unit.old.checker.unit ≡ notice.unit }
{
    match case {
        "start" | "start_from" => starts(case, rt),
        "submit" | "publish" | "tell" | "notice_ring" => publishes(case, rt, &mut unit.publisher),
        "copy_journal" => Ok(is_journal_of(&unit.checker.copy_journal()?, 2)),
        "learn" | "decide_at" => Ok(learns(case, &mut unit.checker, notice)),
        _ => Ok(asks(case, &mut unit.checker)),
    }
}

/// How many batches are published behind a call that answered, and how many are pending.
fn left(case: &str) -> (u8, u8)
    ensures { result.0 + result.1 < 256 }
{
    match case {
        "submit" => (2, 5),
        "publish" => (6, 0),
        _ => (2, 4),
    }
}

/// A refused call has to leave the unit as it was, and no call may be refused behind it.
fn try_on<R: AllocGlobal + Wait>(case: &str, rt: &R, unit: &mut Unit) -> Tried
    requires { unit.old.checker.unit ≡ unit.old.publisher.unit }
{
    unit.publisher.submit(&batch(0)?)?;
    unit.publisher.submit(&batch(1)?)?;
    unit.publisher.publish(rt)?;
    let notice = unit.publisher.tell()?;
    submit_all(&mut unit.publisher, 2, 6)?;
    match call(case, rt, unit, notice) {
        Ok(true) => {
            let (published, pending) = left(case);
            unit.goes_on(rt, published, pending)
        }
        Ok(false) => Err(Stop::Wrong("the answer")),
        Err(ShareFault::Memory) => match unit.goes_on(rt, 2, 4) {
            Ok(()) => Err(Stop::Refused),
            Err(Stop::Outside) => Err(Stop::Wrong("a second refusal")),
            Err(stop) => Err(stop),
        },
        Err(_) => Err(Stop::Wrong("another refusal")),
    }
}

/// Tries the call of a case on a unit of its own, which is ended on every outcome.
pub fn try_once<R: AllocGlobal + Wait>(case: &str, rt: &R) -> Tried {
    let (publisher, mut checkers) = start(rt, rt.alloc(), 1)?;
    let Some(checker) = checkers.pop() else {
        publisher.end(rt);
        return Err(Stop::Wrong("no checker"));
    };
    let mut unit = Unit { publisher, checker };
    let tried = try_on(case, rt, &mut unit);
    let Unit {
        publisher,
        checker: _,
    } = unit;
    publisher.end(rt);
    tried
}
