//! The two logs of events: one that grows, and one of fixed size that never asks for memory.

use crate::event_log::EventLog;
use crate::event_log::store::Store;
use crate::expectation::Expectation;
use crate::mark::Mark;
use arrayvec::ArrayVec;
use pmp_core::Event;
use std::alloc::{AllocError, Global};

/// A store for each kind of thing that is kept.
#[derive(Drop)]
pub struct Log<E, L, P, X, M> {
    events: E,
    lines: L,
    ends: P,
    expectations: X,
    marks: M,
}

/// A log of events that grows.
pub type GrowingLog = Log<Vec<Event>, Vec<u64>, Vec<usize>, Vec<Expectation>, Vec<Mark>>;

/// A log of events that never asks for memory, of fixed size for events, publications, expectations and marks.
pub type FixedLog<
    const EVENTS: usize,
    const PUBLICATIONS: usize,
    const EXPECTATIONS: usize,
    const MARKS: usize,
> = Log<
    ArrayVec<Event, EVENTS>,
    ArrayVec<u64, EVENTS>,
    ArrayVec<usize, PUBLICATIONS>,
    ArrayVec<Expectation, EXPECTATIONS>,
    ArrayVec<Mark, MARKS>,
>;

impl GrowingLog {
    /// Returns an empty log.
    pub fn new(alloc: Global) -> Self {
        Log {
            events: Vec::new(alloc),
            lines: Vec::new(alloc),
            ends: Vec::new(alloc),
            expectations: Vec::new(alloc),
            marks: Vec::new(alloc),
        }
    }
}

impl<
    const EVENTS: usize,
    const PUBLICATIONS: usize,
    const EXPECTATIONS: usize,
    const MARKS: usize,
> FixedLog<EVENTS, PUBLICATIONS, EXPECTATIONS, MARKS> {
    /// Returns an empty log.
    pub fn new() -> Self {
        Log {
            events: ArrayVec::new(),
            lines: ArrayVec::new(),
            ends: ArrayVec::new(),
            expectations: ArrayVec::new(),
            marks: ArrayVec::new(),
        }
    }
}

impl<
    E: Store<Event>,
    L: Store<u64>,
    P: Store<usize>,
    X: Store<Expectation>,
    M: Store<Mark>,
> EventLog for Log<E, L, P, X, M> {
    ghost kept = { λ log. record {
      events = E.items log.events;
      lines = L.items log.lines;
      ends = P.items log.ends;
      expectations = X.items log.expectations;
      marks = M.items log.marks;
    } };

    fn clear(&mut self) {
        self.events.keep(0);
        self.lines.keep(0);
        self.ends.keep(0);
        self.expectations.keep(0);
        self.marks.keep(0);
    }

    fn push(&mut self, line: u64, event: Event) -> Result<(), AllocError> {
        let count = self.lines().len();
        self.lines.push(line)?;
        let pushed = self.events.push(event);
        if pushed.is_err() {
            self.lines.keep(count);
        }
        pushed
    }

    fn end(&mut self) -> Result<(), AllocError> {
        let end = self.events().len();
        self.ends.push(end)
    }

    fn expect(&mut self, expectation: Expectation) -> Result<(), AllocError> {
        self.expectations.push(expectation)
    }

    fn mark(&mut self, mark: Mark) -> Result<(), AllocError> {
        self.marks.push(mark)
    }

    fn events(&self) -> &[Event] {
        self.events.as_slice()
    }

    fn lines(&self) -> &[u64] {
        self.lines.as_slice()
    }

    fn ends(&self) -> &[usize] {
        self.ends.as_slice()
    }

    fn expectations(&self) -> &[Expectation] {
        self.expectations.as_slice()
    }

    fn marks(&self) -> &[Mark] {
        self.marks.as_slice()
    }
}
