//! Scripts of versions 1 and 2, as values of their own.

ghost use Rattle.std.specs.Prelude.{◌≡◌, ◌<◌, ◌≤◌, [], IfOk, length, slice_index_or};
ghost use Rattle.pmp_core.specs.declared.event.TheConstants.{BATCH_EVENTS};
ghost use Rattle.pmp_text.specs.SizedScripts.{GivesSized, line_of, refusal_of_script, script_kind, sized};
ghost use Rattle.pmp_text.specs.SizedScripts.{sized_meaning, unsized_fault};
ghost use Rattle.pmp_text.specs.declared.script.sized.ScriptKind.TheVariants.{Memory};

use crate::event_log::GrowingLog;
use crate::fault::Fault;
use crate::refusal::Refusal;
use crate::script::reader::{MAX_SCRIPT, read_script_in};
use crate::script::significant::SignificantLines;
use crate::script::version::{Version, read_version};
use crate::script::{ReadScript, part_of};
use pmp_core::{BATCH_EVENTS, Event, Size};
use std::alloc::{AllocError, Global};
use std::marker::Model;

/// Why a script of version 1 or 2 is refused. [`Refusal`] says what each means.
#[derive(Clone, Copy, Debug, PartialEq, Eq)]
pub enum ScriptKind {
    BadVersion,
    BadLine,
    BadName,
    OddCfg,
    BadNumber,
    BatchFull,
    Unpublished,
    TooLong,
    Memory,
}

/// What is wrong with a script of version 1 or 2, and in which line.
#[derive(Clone, Copy, Debug, PartialEq, Eq)]
pub struct ScriptFault {
    pub kind: ScriptKind,
    /// The line, counted from 1, or 0 if the fault is of no line: `TooLong` and `Memory`.
    pub line: u64,
}

impl From<ScriptKind> for Refusal {
    ghost from_gives = { λ kind refusal. refusal ≡ refusal_of_script kind };

    fn from(kind: ScriptKind) -> Refusal {
        match kind {
            ScriptKind::BadVersion => Refusal::BadVersion,
            ScriptKind::BadLine => Refusal::BadLine,
            ScriptKind::BadName => Refusal::BadName,
            ScriptKind::OddCfg => Refusal::OddCfg,
            ScriptKind::BadNumber => Refusal::BadNumber,
            ScriptKind::BatchFull => Refusal::BatchFull,
            ScriptKind::Unpublished => Refusal::Unpublished,
            ScriptKind::TooLong => Refusal::TooLong,
            ScriptKind::Memory => Refusal::Memory,
        }
    }
}

impl ScriptKind {
    /// Returns the kind with the refusal's name, and for those that only version 3 has `BadVersion`.
    fn of(refusal: Refusal) -> ScriptKind
        ensures { result ≡ script_kind refusal }
    {
        match refusal {
            Refusal::BadLine => ScriptKind::BadLine,
            Refusal::BadName => ScriptKind::BadName,
            Refusal::OddCfg => ScriptKind::OddCfg,
            Refusal::BadNumber => ScriptKind::BadNumber,
            Refusal::BatchFull => ScriptKind::BatchFull,
            Refusal::Unpublished => ScriptKind::Unpublished,
            Refusal::TooLong => ScriptKind::TooLong,
            Refusal::Memory => ScriptKind::Memory,
            _ => ScriptKind::BadVersion,
        }
    }
}

impl From<Fault> for ScriptFault {
    ghost from_gives = { λ fault simple. simple ≡ line_of fault };

    fn from(fault: Fault) -> ScriptFault {
        ScriptFault {
            kind: ScriptKind::of(fault.refusal),
            line: fault.place.number(),
        }
    }
}

impl From<AllocError> for ScriptFault {
    ghost from_gives = { λ _ fault. fault ≡ record { kind = Memory; line = 0 } };

    fn from(_: AllocError) -> ScriptFault {
        ScriptFault {
            kind: ScriptKind::Memory,
            line: 0,
        }
    }
}

/// A script of version 1 or 2, which keeps its events. Its unit has 16 or 64 entries, and begins with reset.
#[derive(Drop)]
pub struct Script {
    size: Size,
    events: Vec<Event>,
    /// For each publication, how many events are published with it and those before it.
    ends: Vec<usize>,
}

impl Model for Script {
    ghost use Rattle.std.specs.Prelude.{length};
    ghost use Rattle.pmp_text.specs.SizedScripts.{SizedScript};
    ghost use Rattle.pmp_text.specs.Steps.Cuts.{AreCut, cut_from};

    ghost Value = { SizedScript };

    ghost view = { λ script. record {
      size = script.size;
      batches = cut_from 0 script.ends.items script.events.items;
    } };

    ghost invariant = { λ script. AreCut script.ends.items (length script.events.items) (length script.events.items) };
}

impl Script {
    /// Returns the size of the unit that the script is for.
    pub fn size(&self) -> Size
        ensures { result ≡ self.now.size }
    {
        self.size
    }

    /// Returns how many publications there are.
    pub fn batches(&self) -> u64
        ensures { result ≡ length self.now.batches }
    {
        self.ends.len() as u64
    }

    /// Returns the events of the publication with this index, from 0.
    pub fn batch(&self, index: u64) -> &[Event]
        requires { index < length self.now.batches }
        ensures events { result.now ≡ slice_index_or self.now.batches index [] }
        ensures limit { length result.now ≤ BATCH_EVENTS }
    {
        part_of(&self.events, &self.ends, index as usize)
    }
}

impl ReadScript<'_> {
    /// Returns a copy of its publications, with memory of its own.
    fn copied(&self, alloc: Global) -> Result<Script, AllocError>
        ensures { IfOk result (λ script. script ≡ sized self.now) }
    {
        Ok(Script {
            size: self.size,
            events: Vec::from_slice(alloc, self.events)?,
            ends: Vec::from_slice(alloc, self.ends)?,
        })
    }
}

/// Returns why a text is no script of version 1 or 2 if its length or its version says so: `TooLong` for more than
/// [`MAX_SCRIPT`] bytes, `BadVersion` for version 3.
pub fn unsized_fault(text: &[u8]) -> Option<ScriptFault>
    ensures { result ≡ unsized_fault text.now }
{
    if text.len() > MAX_SCRIPT {
        return Some(ScriptFault {
            kind: ScriptKind::TooLong,
            line: 0,
        });
    }
    let first = SignificantLines::new(text).next()?;
    match read_version(first.bytes) {
        Ok(Version::Headed) => Some(ScriptFault {
            kind: ScriptKind::BadVersion,
            line: first.number,
        }),
        _ => None,
    }
}

/// Returns the script of version 1 or 2 that a text describes, else its first fault. Version 3 is none here:
/// [`read_script_in`](crate::read_script_in) reads all three, into a log of the caller's.
///
/// The script takes memory for its events; if there is none, `Memory` is returned instead of any later fault.
#[tactic(auto, unfolding(crate::specs::SizedScripts::sized_meaning))]
pub fn read_script(alloc: Global, text: &[u8]) -> Result<Script, ScriptFault>
    ensures { GivesSized result (sized_meaning text.now) }
{
    if let Some(fault) = unsized_fault(text) {
        return Err(fault);
    }
    let mut log = GrowingLog::new(alloc);
    let script = read_script_in(&mut log, text)?;
    Ok(script.copied(alloc)?)
}
