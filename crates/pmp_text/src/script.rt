//! Scripts: the publications that a text describes, and why a text describes none.

ghost use Rattle.std.specs.Prelude.{◌≡◌, ◌<◌, ◌≤◌, [], length, take, None, Some, if◌then◌else◌, slice_index_or};
ghost use Rattle.pmp_core.specs.declared.event.TheConstants.{BATCH_EVENTS};
ghost use Rattle.pmp_core.specs.Histories.{joined};
ghost use Rattle.pmp_text.specs.Contents.{ScriptContents};
ghost use Rattle.pmp_text.specs.Moments.{moments_in};
ghost use Rattle.pmp_text.specs.Steps.Cuts.{AreCut, AreEnds, cut_from, last_end};

mod hart_field;
mod hart_registers;
mod head;
mod lines;
mod progress;
mod reader;
mod reading;
mod shorthand;
mod significant;
mod sized;
mod start;
mod statement;
mod version;
mod words;

use crate::event_log::EventLog;
use crate::expectation::Expectation;
use crate::mark::Mark;
use crate::moments::Moments;
pub use lines::split_first_line;
use pmp_core::{BATCH_EVENTS, Event, RegFile, Size};
pub use reader::{MAX_EVENTS, MAX_HEADED_SCRIPT, MAX_SCRIPT, is_headed, read_script_in};
pub use shorthand::read_rights;
pub use sized::{Script, ScriptFault, ScriptKind, read_script, unsized_fault};
pub(crate) use start::kept_value;
use std::marker::Model;
pub use words::Words;

/// The initial state of a script's unit, and its publications in order, which a log keeps with what is expected. Each
/// publication is a batch of at most [`BATCH_EVENTS`] events, perhaps empty.
#[derive(Drop)]
pub struct ReadScript<'a> {
    size: Size,
    /// The register file before the first event.
    start: RegFile,
    events: &'a [Event],
    /// The line of each event.
    lines: &'a [u64],
    /// For each publication, how many events are published with it and those before it.
    ends: &'a [usize],
    expectations: &'a [Expectation],
    /// None if the version has no names.
    marks: Option<&'a [Mark]>,
}

impl<'a> Model for ReadScript<'a> {
    ghost use Rattle.std.specs.Prelude.{length, option_map};
    ghost use Rattle.pmp_text.specs.Contents.{ScriptContents};
    ghost use Rattle.pmp_text.specs.Steps.Cuts.{AreCut, cut_from};

    ghost Value = { ScriptContents };

    ghost view = { λ script. record {
      size = script.size;
      start = script.start;
      batches = cut_from 0 script.ends.now script.events.now;
      lines = cut_from 0 script.ends.now script.lines.now;
      expectations = script.expectations.now;
      marks = option_map (λ marks. marks.now) script.marks;
    } };

    ghost invariant = { λ script. AreCut script.ends.now (length script.events.now) (length script.lines.now) };
}

/// Returns how many events the given number of first publications have.
fn end_of(ends: &[usize], publications: usize) -> usize
    requires { publications ≤ length ends.now }
    ensures { result ≡ last_end 0 (take publications ends.now) }
{
    if publications == 0 {
        return 0;
    }
    ends[publications - 1]
}

/// Returns the part of a list that the publication with this index has.
fn part_of<'a, T>(items: &'a [T], ends: &[usize], index: usize) -> &'a [T]
    requires index { index < length ends.now }
    requires ascending { AreEnds 0 ends.now }
    requires inside { last_end 0 ends.now ≤ length items.now }
    ensures part { result.now ≡ slice_index_or (cut_from 0 ends.now items.now) index [] }
    ensures limit { length result.now ≤ BATCH_EVENTS }
{
    let start = end_of(ends, index);
    let end = end_of(ends, index + 1);
    &items[start..end]
}

impl<'a> ReadScript<'a> {
    /// Returns the script that a log keeps, all of whose events are published; with expectations and names of moments
    /// if its version has them.
    pub(crate) fn new<L: EventLog>(
        size: Size,
        start: RegFile,
        log: &'a L,
        is_headed: bool,
    ) -> ReadScript<'a>
        requires { let kept = L.kept log.now in AreCut kept.ends (length kept.events) (length kept.lines) }
        ensures { let kept = L.kept log.now in result ≡ record {
          size = size;
          start = start;
          batches = cut_from 0 kept.ends kept.events;
          lines = cut_from 0 kept.ends kept.lines;
          expectations = if is_headed then kept.expectations else [];
          marks = if is_headed then Some kept.marks else None;
        } }
    {
        ReadScript {
            size,
            start,
            events: log.events(),
            lines: log.lines(),
            ends: log.ends(),
            expectations: if is_headed { log.expectations() } else { &[] },
            marks: is_headed.then_some(log.marks()),
        }
    }

    /// Returns the size of the unit that the script is for; for a hart with another number of entries, the size with
    /// room for them.
    pub fn size(&self) -> Size
        ensures { result ≡ self.now.size }
    {
        self.size
    }

    /// Returns the register file before the first event.
    pub fn start(&self) -> RegFile
        ensures { result ≡ self.now.start }
    {
        self.start
    }

    /// Returns what is expected of registers, in the order of lines.
    pub fn expectations(&self) -> &[Expectation]
        ensures { result.now ≡ self.now.expectations }
    {
        self.expectations
    }

    /// Returns the moments that words may name, without those from which a bit of `mseccfg` lasts.
    pub fn moments(&self) -> Moments<'a>
        ensures { result ≡ moments_in self.now }
    {
        Moments {
            publications: self.batches(),
            marks: self.marks,
            lasting: None,
        }
    }

    /// Returns how many publications there are.
    pub fn batches(&self) -> u64
        ensures { result ≡ length self.now.batches }
    {
        self.ends.len() as u64
    }

    /// Returns all events, those of each publication after those of the previous ones.
    pub fn events(&self) -> &[Event]
        ensures { result.now ≡ joined self.now.batches }
    {
        self.events
    }

    /// Returns how many events the given number of first publications have.
    pub fn events_before(&self, publications: u64) -> u64
        requires { publications ≤ length self.now.batches }
        ensures { result ≡ length (joined (take publications self.now.batches)) }
    {
        end_of(self.ends, publications as usize) as u64
    }

    /// Returns the line of each event of the publication with this index, from 0. Lines are numbered from 1.
    pub fn lines(&self, index: u64) -> &[u64]
        requires { index < length self.now.batches }
        ensures { result.now ≡ slice_index_or self.now.lines index [] }
    {
        part_of(self.lines, self.ends, index as usize)
    }

    /// Returns the events of the publication with this index, from 0.
    pub fn batch(&self, index: u64) -> &[Event]
        requires { index < length self.now.batches }
        ensures events { result.now ≡ slice_index_or self.now.batches index [] }
        ensures limit { length result.now ≤ BATCH_EVENTS }
    {
        part_of(self.events, self.ends, index as usize)
    }
}
