//! A unit that threads share.

ghost use Rattle.std.specs.Prelude.{◌≡◌, IfOk};

use super::page_load;
use pmp_core::{Cause, Csr, Decision, Event, RegFile, Size};
use pmp_share::{
    Batch, BatchFull, Checker, Journal, Moved, Notice, Publisher, ShareFault, start, start_of,
};
use std::sync::Wait;

/// Publishes the two batches of the script, and returns a notice of them.
fn publish_both<R: Wait>(rt: &R, publisher: &mut Publisher) -> Result<Notice, ShareFault>
    ensures unit { publisher.new.unit ≡ publisher.old.unit }
    ensures told { IfOk result (λ notice. notice.unit ≡ publisher.old.unit) }
{
    let mut batch: Batch = Batch::new();
    let full: Result<(), BatchFull> = batch.push(Event::Write(Csr::Addr(0), 0x200001ff));
    full.or(Err(ShareFault::Full))?;
    batch
        .push(Event::Write(Csr::Cfg(0), 0x19))
        .or(Err(ShareFault::Full))?;
    publisher.submit(&batch)?;
    publisher.publish(rt)?;
    publisher.submit(&Batch::new())?;
    publisher.withdraw();
    publisher.tell()
}

#[test]
fn the_shared_unit_answers(rt: HostRuntime) {
    let started: Result<(Publisher, Vec<Checker>), ShareFault> = start(&rt, rt.alloc(), 1);
    let (mut publisher, mut checkers) = started.expect(&rt, "memory");
    let mut checker = checkers.pop().expect(&rt, "a checker");
    let notice: Notice = publish_both(&rt, &mut publisher).expect(&rt, "memory");
    let told: u64 = notice.len();
    let file: RegFile = notice.file();
    assert!(rt; told == 2 && file.size() == Size::Sixteen);
    assert!(rt; publisher.journal_len() == 2 && publisher.pending_len() == 0);
    checker.learn(notice);
    let access = page_load().expect(&rt, "a lawful access");
    let (decision, seen): (Decision, u64) = checker.decide(&access);
    assert!(rt; decision.cause == Cause::Rule(0) && seen == 2);
    let at: Result<Decision, Moved> = checker.decide_at(0, &access);
    assert!(rt; at == Err(Moved { seen: 2 }));
    let (decisions, seen) = checker.decide_group(&[access, access]);
    assert!(rt; decisions.len() == 2 && seen == 2);
    let journal: Journal = checker.copy_journal().expect(&rt, "memory");
    let Journal { events, ends } = journal;
    assert!(rt; events.len() == 2 && ends.as_slice() == [2].as_slice());
    publisher.end(&rt);
}

/// Its end is the value of a function that returns nothing.
fn end_at_once<R: Wait>(rt: &R, publisher: Publisher) {
    publisher.end(rt)
}

#[test]
fn a_unit_of_sixty_four_starts(rt: HostRuntime) {
    let started = start_of(&rt, rt.alloc(), Size::SixtyFour, 2);
    let (publisher, checkers) = started.expect(&rt, "memory");
    assert!(rt; checkers.len() == 2);
    end_at_once(&rt, publisher);
}
