//! The batch that is open while a script is read.

ghost use Rattle.std.specs.Prelude.{◌≡◌, ◌<◌, Ok, OnOk, length};
ghost use Rattle.pmp_core.specs.declared.event.TheConstants.{BATCH_EVENTS};
ghost use Rattle.pmp_text.specs.EventLogs.{nothing_kept, with_end, with_event as pushed};
ghost use Rattle.pmp_text.specs.Outcomes.{Gives};
ghost use Rattle.pmp_text.specs.Steps.Progress.{longer, nothing_read, published};
ghost use Rattle.pmp_text.specs.Steps.Reading.{IsOpen, progress_of};

use crate::event_log::EventLog;
use crate::fault::Fault;
use pmp_core::Event;

/// The open batch: the last events of a log, after the published ones.
#[derive(Clone, Copy)]
pub struct OpenBatch {
    /// How many events are published.
    published: usize,
    /// The line of the open batch's first event.
    since: Option<u64>,
}

impl OpenBatch {
    /// Returns the batch of an empty log.
    pub fn new() -> Self
        ensures open { IsOpen nothing_kept result }
        ensures nothing { progress_of nothing_kept result ≡ nothing_read }
    {
        OpenBatch {
            published: 0,
            since: None,
        }
    }

    /// Publishes the open batch, and opens an empty one.
    pub fn publish<L: EventLog>(&mut self, log: &mut L) -> Result<(), Fault>
        requires { IsOpen (L.kept log.old) self.old }
        ensures open { OnOk result (IsOpen (L.kept log.new) self.new) }
        ensures ended { OnOk result (L.kept log.new ≡ with_end (L.kept log.old)) }
        ensures published { Gives (λ _. progress_of (L.kept log.new) self.new) result
            (Ok (published (progress_of (L.kept log.old) self.old))) }
    {
        log.end()?;
        self.published = log.events().len();
        self.since = None;
        Ok(())
    }

    /// Returns how many events the open batch has.
    pub fn count<L: EventLog>(&self, log: &L) -> usize
        requires { IsOpen (L.kept log.now) self.now }
        ensures { result ≡ length (progress_of (L.kept log.now) self.now).batch }
    {
        log.events().len() - self.published
    }

    /// Adds an event to the open batch, which has room for it.
    pub fn add<L: EventLog>(&mut self, log: &mut L, line: u64, event: Event) -> Result<(), Fault>
        requires open { IsOpen (L.kept log.old) self.old }
        requires room { length (progress_of (L.kept log.old) self.old).batch < BATCH_EVENTS }
        ensures open { OnOk result (IsOpen (L.kept log.new) self.new) }
        ensures pushed { OnOk result (L.kept log.new ≡ pushed (L.kept log.old) line event) }
        ensures added { Gives (λ _. progress_of (L.kept log.new) self.new) result
            (Ok (longer (progress_of (L.kept log.old) self.old) line event)) }
    {
        log.push(line, event)?;
        self.since = Some(self.since.unwrap_or(line));
        Ok(())
    }

    /// Returns the line of the open batch's first event.
    pub fn since(&self) -> Option<u64>
        ensures { result ≡ self.now.since }
    {
        self.since
    }
}
