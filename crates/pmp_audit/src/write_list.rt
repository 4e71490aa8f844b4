//! The effect of each event of a script on a register.

ghost use Rattle.std.specs.Prelude.{◌≡◌, ◌+◌, ◌^◌, ◌<◌, ◌≤◌, IfOk, IfErr, OnErr, [], length};
ghost use Rattle.pmp_core.specs.RegisterWrite.{step};
ghost use Rattle.pmp_text.specs.Cells.{AddsSome};
ghost use Rattle.pmp_text.specs.Sizes.{IsInLimits};
ghost use Rattle.pmp_audit.specs.Answers.{AreAdded, Declines};
ghost use Rattle.pmp_audit.specs.EventRows.{AreWritten};
ghost use Rattle.pmp_audit.specs.WriteList.{all_rows, placed, placed_events, event_rows, has_fault, event_summary};
ghost use Rattle.pmp_audit.specs.WriteList.{WritesSay, write_summary};
ghost use Rattle.pmp_audit.specs.AskedFile.{ScriptRefuses};

use crate::accepted_reason::{AcceptedAt, has_other_reason};
use crate::expectations::add_expectations;
use pmp_core::{Event, RegFile};
use pmp_text::laws::law_script_size;
use pmp_text::{EventLog, EventPlace, Fault, ReadScript, RowSink, add_effect, read_script_in};
use std::alloc::AllocError;

/// How many events a script has, how many of them are writes that the register doesn't read back as written, how often
/// it expects something of a register, and how often that differs. What is accepted counts neither as such a write nor
/// as such a difference.
#[derive(Clone, Copy, Debug, Default, PartialEq, Eq)]
pub struct WriteSummary {
    pub events: u64,
    pub not_stored: u64,
    pub expectations: u64,
    pub differing: u64,
}

/// Adds a row for each event of the script, in order: what it wrote, what the register read before and after, and why
/// that isn't what was written. After these it adds a row for each expectation: what the register reads there, and
/// whether that is as expected. `accepted` has reasons that don't count, each as `REASON` for every line or as
/// `REASON:LINE` for this one, which commas separate; empty, it accepts none. The log keeps the script's events;
/// `Memory` means that there is no room for them there, or none for the rows.
#[inline(never)]
pub fn add_writes<L: EventLog, R: RowSink>(
    log: &mut L,
    script: &[u8],
    accepted: &[u8],
    out: &mut R,
) -> Result<WriteSummary, Fault>
    ensures ok { IfOk result (AreAdded R.Adds (WritesSay accepted.now script.now) out.old out.new) }
    ensures err { IfErr result (Declines (ScriptRefuses script.now)) }
    ensures kept { OnErr result (R.Adds [] out.old out.new) }
{
    let script = read_script_in(log, script)?;
    law_script_size();
    let before = out.position();
    let summary = add_all(out, &script, accepted);
    if summary.is_err() {
        out.go_back(before);
    }
    Ok(summary?)
}

/// Adds the rows of a script's events, and after them those of its expectations.
fn add_all<R: RowSink>(
    out: &mut R,
    script: &ReadScript,
    accepted: &[u8],
) -> Result<WriteSummary, AllocError>
    requires { IsInLimits script.now.batches }
    ensures rows { IfOk result (λ _. R.Adds (all_rows script.now) out.old out.new) }
    ensures counted { IfOk result (λ summary. summary ≡ write_summary accepted.now script.now) }
    ensures err { OnErr result (AddsSome R.Adds out.old out.new) }
{
    let EventSummary { events, not_stored } = add_events(out, script, accepted)?;
    let differing = add_expectations(out, script, accepted)?;
    Ok(WriteSummary {
        events,
        not_stored,
        expectations: script.expectations().len() as u64,
        differing,
    })
}

/// How many events a script has, and how many of them are writes that the register doesn't read back as written, for a
/// reason that isn't accepted.
#[derive(Clone, Copy, Default)]
struct EventSummary {
    events: u64,
    not_stored: u64,
}

fn add_events<R: RowSink>(
    out: &mut R,
    script: &ReadScript,
    accepted: &[u8],
) -> Result<EventSummary, AllocError>
    requires { IsInLimits script.now.batches }
    ensures rows { IfOk result (λ _. R.Adds (event_rows script.now.start (placed_events script.now)) out.old out.new) }
    ensures counted { IfOk result
        (λ summary. summary ≡ event_summary accepted.now script.now.start (placed_events script.now)) }
    ensures err { OnErr result (AddsSome R.Adds out.old out.new) }
{
    let mut file = script.start();
    let mut summary = EventSummary::default();
    for index in 0..script.batches() {
        let publication = Publication {
            number: index + 1,
            lines: script.lines(index),
            events: script.batch(index),
            accepted,
        };
        summary = add_publication(out, &mut file, summary, publication)?;
    }
    Ok(summary)
}

/// The events of a publication, with its number, their lines, and the reasons that are accepted there.
#[derive(Clone, Copy)]
struct Publication<'a, 'r> {
    number: u64,
    lines: &'a [u64],
    events: &'a [Event],
    accepted: &'r [u8],
}

/// Adds the rows of a publication's events, and executes them. What comes before them is already counted.
fn add_publication<R: RowSink>(
    out: &mut R,
    file: &mut RegFile,
    before: EventSummary,
    publication: Publication<'_, '_>,
) -> Result<EventSummary, AllocError>
    requires room { before.events + length publication.events.now < 2 ^ 64 }
    requires within { before.not_stored ≤ before.events }
    ensures written { IfOk result (λ after. AreWritten R.Adds publication.entry.accepted.now
        (record { rows = out.old; file = file.old; summary = before })
        (record { rows = out.new; file = file.new; summary = after })
        (placed publication.entry.number publication.entry.lines.now publication.entry.events.now)) }
    ensures within { IfOk result (λ after. after.not_stored ≤ after.events) }
    ensures err { OnErr result (AddsSome R.Adds out.old out.new) }
{
    let mut summary = before;
    for (line, event) in publication.lines.iter().zip(publication.events) {
        let place = EventPlace {
            number: summary.events + 1,
            publication: publication.number,
            line: *line,
        };
        let after = add_effect(out, &place, file, *event)?;
        let accepted = AcceptedAt {
            reasons: publication.accepted,
            line: *line,
        };
        let is_fault = has_fault(accepted, file, &after, *event);
        summary = EventSummary {
            events: place.number,
            not_stored: summary.not_stored + u64::from(is_fault),
        };
        *file = after;
    }
    Ok(summary)
}

/// Whether the event, which meets the one file and leaves the other, is a write that the register then doesn't read
/// back, for a reason that isn't accepted.
fn has_fault(accepted: AcceptedAt<'_>, file: &RegFile, after: &RegFile, event: Event) -> bool
    ensures { after.now ≡ step file.now event
        → result ≡ has_fault accepted.entry.reasons.now file.now accepted.entry.line event }
{
    match event {
        Event::Write(csr, value) => {
            after.read(csr) != value && has_other_reason(accepted, file, csr, value)
        }
        Event::Reset => false,
    }
}
