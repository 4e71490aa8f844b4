//! A publisher with two checkers, and what tests have them do.

ghost use Rattle.std.specs.Prelude.{◌≡◌};
ghost use Rattle.pmp_share.specs.Known.{known};

use super::asking::{Told, ask_both};
use pmp_core::{Access, Cause, Decision, Event, Kind, Mode};
use pmp_share::{Batch, Checker, Journal, Moved, Notice, Publisher, start};
use std::alloc::Global;
use std::process::Abort;
use std::sync::Wait;

/// The entry allows the access.
pub fn by_entry(entry: u8) -> Decision {
    Decision {
        allowed: true,
        cause: Cause::Rule(entry),
    }
}

pub const BY_NO_ENTRY: Decision = Decision {
    allowed: false,
    cause: Cause::NoMatch,
};

/// A load from the page by user mode.
pub fn page_load(rt: &impl Abort) -> Access {
    Access::new(Mode::U, Kind::Load, 0x80000000, 4).expect(rt, "a lawful access")
}

pub fn submit(rt: &impl Abort, publisher: &mut Publisher, events: &[Event])
    ensures { publisher.new.unit ≡ publisher.old.unit }
{
    let batch = Batch::of(events).expect(rt, "room in the batch");
    publisher.submit(&batch).expect(rt, "memory");
}

/// Publishes these events too, after which there are so many.
pub fn publish<R: Wait + Abort>(rt: &R, publisher: &mut Publisher, events: &[Event], count: u64)
    ensures { publisher.new.unit ≡ publisher.old.unit }
{
    submit(rt, publisher, events);
    assert!(rt; publisher.publish(rt) == Ok(count));
}

/// Ends the publisher, and drops what it published.
pub fn end<R: Wait>(rt: &R, publisher: Publisher) {
    publisher.end(rt);
}

/// A publisher and one checker.
pub fn unit_of_one<R: Wait + Abort>(rt: &R, alloc: Global) -> (Publisher, Checker) {
    let (publisher, mut checkers) = start(rt, alloc, 1).expect(rt, "memory");
    let checker = checkers.pop().expect(rt, "a checker");
    (publisher, checker)
}

pub fn tell(rt: &impl Abort, publisher: &mut Publisher) -> Notice
    ensures same { publisher.new ≡ publisher.old }
    ensures told { result ≡ known publisher.old.unit publisher.old.published }
{
    publisher.tell().expect(rt, "a notice")
}

/// Asserts how the checker decides a load from the page, and in how many events. It has no handle with which to wait.
pub fn look(rt: &impl Abort, checker: &mut Checker, decision: Decision, count: u64)
    ensures { checker.new.unit ≡ checker.old.unit }
{
    let (decided, seen) = checker.decide(&page_load(rt));
    assert!(rt; decided == decision && seen == count);
}

/// One of two checkers.
#[derive(Clone, Copy)]
pub enum Seat {
    First,
    Second,
}

/// A publisher and two checkers of one unit.
pub struct Unit {
    publisher: Publisher,
    first: Checker,
    second: Checker,
    pub ghost first_unit: { first.unit ≡ publisher.unit },
    pub ghost second_unit: { second.unit ≡ publisher.unit },
}

/// Two checkers whose publisher has ended, a notice that it gave last, and what it published.
#[derive(Drop)]
pub struct Left {
    pub first: Checker,
    pub second: Checker,
    pub journal: Journal,
    pub late: Notice,
    pub ghost same_unit: { late.unit ≡ second.unit },
}

impl Unit {
    pub fn start<R: Wait + Abort>(rt: &R, alloc: Global) -> Unit {
        let (publisher, mut checkers) = start(rt, alloc, 2).expect(rt, "memory");
        let second = checkers.pop().expect(rt, "two checkers");
        let first = checkers.pop().expect(rt, "two checkers");
        Unit {
            publisher,
            first,
            second,
        }
    }

    pub fn submit(&mut self, rt: &impl Abort, events: &[Event]) {
        submit(rt, &mut self.publisher, events);
    }

    /// As the function `publish`.
    pub fn publish<R: Wait + Abort>(&mut self, rt: &R, events: &[Event], count: u64) {
        publish(rt, &mut self.publisher, events, count);
    }

    /// Has a checker learn of what is published.
    pub fn inform(&mut self, rt: &impl Abort, seat: Seat) {
        let notice = tell(rt, &mut self.publisher);
        match seat {
            Seat::First => self.first.learn(notice),
            Seat::Second => self.second.learn(notice),
        }
    }

    /// As the function `look`.
    pub fn look(&mut self, rt: &impl Abort, seat: Seat, decision: Decision, count: u64) {
        match seat {
            Seat::First => look(rt, &mut self.first, decision, count),
            Seat::Second => look(rt, &mut self.second, decision, count),
        }
    }

    /// Tells both checkers of what is published, publishes more events, after which there are so many, and asserts what
    /// both answer of a load from the page in what they were told.
    pub fn assert_both_answer<R: Wait + Abort>(
        &mut self,
        rt: &R,
        events: &[Event],
        count: u64,
        answer: Result<Decision, Moved>,
    ) {
        let told = Told {
            first: tell(rt, &mut self.publisher),
            second: tell(rt, &mut self.publisher),
        };
        publish(rt, &mut self.publisher, events, count);
        let access = page_load(rt);
        let (one, other) = ask_both(&mut self.first, &mut self.second, told, &access);
        assert!(rt; one == answer && other == answer);
    }

    /// Ends the publisher, and drops what is left.
    pub fn close<R: Wait + Abort>(self, rt: &R) {
        self.end(rt);
    }

    /// Ends the publisher.
    pub fn end<R: Wait + Abort>(self, rt: &R) -> Left {
        let Unit {
            mut publisher,
            first,
            second,
        } = self;
        let late = tell(rt, &mut publisher);
        let journal = publisher.into_journal(rt);
        Left {
            first,
            second,
            journal,
            late,
        }
    }
}

impl Left {
    /// The second checker, which has learnt the notice.
    pub fn learn(self) -> Checker {
        let Left {
            first: _,
            mut second,
            journal: _,
            late,
        } = self;
        second.learn(late);
        second
    }
}
