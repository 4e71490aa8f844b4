//! Journals: lists of batches as events and, beside them, ends.

ghost use Rattle.std.specs.Prelude.{◌≡◌, ℕ, ◌+◌, ◌-◌, ◌<◌, ◌≤◌, [], ◌∷◌, ◌++◌, length, take, drop, OnOk, OnErr};
ghost use Rattle.std.specs.Prelude.{slice_index, IfOk};
ghost use Rattle.pmp_core.specs.Histories.{joined};
ghost use Rattle.pmp_share.specs.Batches.{Batches, event_count};
ghost use Rattle.pmp_share.specs.Journals.{batches_of, ends_of, IsCut};

use pmp_core::Event;
use std::alloc::{AllocError, Global};
use std::marker::Model;

/// Batches, kept as their events and, for each batch, the number of events once it was added. A contract sees the list
/// of the batches.
#[derive(Drop)]
pub struct Journal {
    pub events: Vec<Event>,
    /// How many events there are once each batch was added. An empty batch repeats the number before it.
    pub ends: Vec<u64>,
}

impl Model for Journal {
    ghost Value = { Batches };

    ghost view = { λ journal. batches_of journal.ends.items journal.events.items };

    ghost invariant = { λ journal. IsCut journal.ends.items journal.events.items };
}

/// Returns where the given number of first batches end.
fn end_of(ends: &[u64], batches: usize) -> u64
    requires { batches ≤ length ends.now }
    ensures none { batches ≡ 0 → result ≡ 0 }
    ensures last { (k : ℕ) → batches ≡ k + 1 → result ≡ slice_index ends.now k }
{
    if batches == 0 {
        return 0;
    }
    ends[batches - 1]
}

/// Returns where one batch ends.
fn own_end(ends: &[u64], index: usize) -> u64
    requires { index < length ends.now }
    ensures { result ≡ slice_index ends.now index }
{
    ends[index]
}

/// Returns the events from one index up to another.
fn part_of(events: &[Event], start: u64, end: u64) -> &[Event]
    requires { (start ≤ end) × (end ≤ length events.now) }
    ensures { result.now ≡ take (end - start) (drop start events.now) }
{
    &events[start as usize..end as usize]
}

impl Journal {
    /// Returns a list of no batches.
    pub(crate) fn new(alloc: Global) -> Journal
        ensures { result ≡ [] }
    {
        Journal {
            events: Vec::new(alloc),
            ends: Vec::new(alloc),
        }
    }

    /// Returns how many batches it has.
    pub(crate) fn batches(&self) -> usize
        ensures { result ≡ length self.now }
    {
        let ends = self.ends.as_slice();
        ends.len()
    }

    /// Returns the events of all batches, in order.
    pub fn events(&self) -> &[Event]
        ensures { result.now ≡ joined self.now }
    {
        self.events.as_slice()
    }

    /// Returns the number of events once each batch was added, in order. The last is the number of all events; an empty
    /// batch repeats the number before it.
    pub fn ends(&self) -> &[u64]
        ensures { result.now ≡ ends_of self.now }
    {
        self.ends.as_slice()
    }

    /// Returns its events and its ends, as `events` and `ends` show them.
    pub fn into_parts(self) -> (Vec<Event>, Vec<u64>)
        ensures events { result.0.items ≡ joined self }
        ensures ends { result.1.items ≡ ends_of self }
    {
        (self.events, self.ends)
    }

    /// Returns a copy of it, with memory of its own.
    pub(crate) fn copy(&self) -> Result<Journal, AllocError>
        ensures { IfOk result (λ journal. journal ≡ self.now) }
    {
        let mut events = Vec::new(*self.events.allocator());
        events.extend_from_slice(self.events.as_slice())?;
        let mut ends = Vec::new(*self.ends.allocator());
        ends.extend_from_slice(self.ends.as_slice())?;
        Ok(Journal { events, ends })
    }

    /// Returns how many events they hold.
    pub(crate) fn event_count(&self) -> u64
        ensures { result ≡ event_count self.now }
    {
        self.events.len() as u64
    }

    /// Adds a batch after the others.
    pub(crate) fn push(&mut self, batch: &[Event]) -> Result<(), AllocError>
        ensures added { OnOk result (self.new ≡ self.old ++ batch.now ∷ []) }
        ensures refused { OnErr result (self.new ≡ self.old) }
    {
        self.ends.reserve(1)?;
        self.events.extend_from_slice(batch)?;
        let end = self.events.as_slice().len();
        self.ends.push_reserved(end as u64);
        Ok(())
    }

    /// Returns the events of one batch.
    pub(crate) fn batch(&self, index: usize) -> &[Event]
        requires { index < length self.now }
        ensures { take (index + 1) self.now ≡ take index self.now ++ result.now ∷ [] }
    {
        let ends = self.ends.as_slice();
        let events = self.events.as_slice();
        part_of(events, end_of(ends, index), own_end(ends, index))
    }

    /// Keeps the given number of first batches, or all if there are fewer.
    pub(crate) fn truncate(&mut self, batches: usize)
        ensures { self.new ≡ take batches self.old }
    {
        if batches >= self.batches() {
            return;
        }
        let events = end_of(self.ends.as_slice(), batches);
        self.events.truncate(events as usize);
        self.ends.truncate(batches);
    }

    /// Removes all batches.
    pub(crate) fn clear(&mut self)
        ensures { self.new ≡ [] }
    {
        self.events.clear();
        self.ends.clear();
    }
}
