//! Batches: groups of events that are published as a whole.

ghost use Rattle.std.specs.Prelude.{◌≡◌, ◌<◌, ◌≤◌, ◌↔◌, [], ◌∷◌, ◌++◌, List, length, Err, IfOk, OnOk, OnErr};
ghost use Rattle.pmp_core.specs.declared.event.Event.{Event};
ghost use Rattle.pmp_core.specs.declared.event.TheConstants.{BATCH_EVENTS};

use arrayvec::ArrayVec;
use pmp_core::{BATCH_EVENTS, Event};
use std::marker::Model;

/// A batch takes no more events: it has `BATCH_EVENTS` already.
#[derive(Clone, Copy, Debug, PartialEq, Eq)]
pub struct BatchFull;

/// Events in their order, at most `BATCH_EVENTS` of them. A contract sees them as a list.
#[derive(Drop)]
pub struct Batch {
    events: ArrayVec<Event, BATCH_EVENTS>,
}

impl Model for Batch {
    ghost Value = { List Event };

    ghost view = { λ batch. batch.events.items };
}

impl Batch {
    /// Returns a batch without events.
    pub fn new() -> Batch
        ensures { result ≡ [] }
    {
        Batch {
            events: ArrayVec::new(),
        }
    }

    /// Returns a batch of these events.
    pub fn of(events: &[Event]) -> Result<Batch, BatchFull>
        ensures made { IfOk result (λ batch. batch ≡ events.now) }
        ensures full { (result ≡ Err (record {})) ↔ (BATCH_EVENTS < length events.now) }
    {
        match ArrayVec::try_from(events) {
            Ok(events) => Ok(Batch { events }),
            Err(_) => Err(BatchFull),
        }
    }

    /// Adds an event after the others.
    pub fn push(&mut self, event: Event) -> Result<(), BatchFull>
        ensures added { OnOk result (self.new ≡ self.old ++ event ∷ []) }
        ensures refused { OnErr result (self.new ≡ self.old) }
        ensures full { (result ≡ Err (record {})) ↔ (length self.old ≡ BATCH_EVENTS) }
    {
        if self.events.is_full() {
            return Err(BatchFull);
        }
        self.events.push(event);
        Ok(())
    }

    /// Returns its events.
    pub fn events(&self) -> &[Event]
        ensures events { result.now ≡ self.now }
        ensures limit { length result.now ≤ BATCH_EVENTS }
    {
        &self.events
    }
}
