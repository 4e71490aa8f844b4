//! Logs: the storage of a script's events.

ghost use Rattle.std.specs.Prelude.{◌≡◌, ◌++◌, ◌∷◌, [], OnErr, OnOk, length};
ghost use Rattle.pmp_text.specs.EventLogs.{Kept, nothing_kept, with_end, with_event, with_expectation, with_mark};

mod log;
mod store;

use crate::expectation::Expectation;
use crate::mark::Mark;
pub use log::{FixedLog, GrowingLog};
use pmp_core::Event;
use std::alloc::AllocError;

/// The storage of a script's events while it is read and from then on: vectors that grow, or arrays that may become
/// full. The events of each publication follow those of the previous ones.
pub trait EventLog {
    ghost kept: { Self → Kept };

    /// Discards everything.
    fn clear(&mut self)
        ensures { kept self.new ≡ nothing_kept };

    /// Appends an event with its line, or nothing.
    fn push(&mut self, line: u64, event: Event) -> Result<(), AllocError>
        ensures ok { OnOk result (kept self.new ≡ with_event (kept self.old) line event) }
        ensures err { OnErr result (kept self.new ≡ kept self.old) };

    /// Ends a publication after the last event, or does nothing.
    fn end(&mut self) -> Result<(), AllocError>
        ensures ok { OnOk result (kept self.new ≡ with_end (kept self.old)) }
        ensures err { OnErr result (kept self.new ≡ kept self.old) };

    /// Appends what is expected of a register, or nothing.
    fn expect(&mut self, expectation: Expectation) -> Result<(), AllocError>
        ensures ok { OnOk result (kept self.new ≡ with_expectation (kept self.old) expectation) }
        ensures err { OnErr result (kept self.new ≡ kept self.old) };

    /// Appends a moment that has a name, or nothing.
    fn mark(&mut self, mark: Mark) -> Result<(), AllocError>
        ensures ok { OnOk result (kept self.new ≡ with_mark (kept self.old) mark) }
        ensures err { OnErr result (kept self.new ≡ kept self.old) };

    /// Returns all events.
    fn events(&self) -> &[Event]
        ensures { result.now ≡ (kept self.now).events };

    /// Returns the line of each event.
    fn lines(&self) -> &[u64]
        ensures { result.now ≡ (kept self.now).lines };

    /// Returns, for each publication, how many events are published with it and those before it.
    fn ends(&self) -> &[usize]
        ensures { result.now ≡ (kept self.now).ends };

    /// Returns what is expected of registers.
    fn expectations(&self) -> &[Expectation]
        ensures { result.now ≡ (kept self.now).expectations };

    /// Returns the moments that have names.
    fn marks(&self) -> &[Mark]
        ensures { result.now ≡ (kept self.now).marks };
}
