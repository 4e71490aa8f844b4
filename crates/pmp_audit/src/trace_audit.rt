//! The accesses of a trace, each decided after the publications that it asks for.

ghost use Rattle.std.specs.Prelude.{◌≡◌, ◌<◌, ℕ, IfErr, IfOk, IfSome, List, Ok, length};
ghost use Rattle.pmp_text.specs.Scripts.{script_meaning};
ghost use Rattle.pmp_text.specs.Traces.{first_bare};
ghost use Rattle.pmp_audit.specs.Answers.{IsWritten, IsRefused};
ghost use Rattle.pmp_audit.specs.TraceAudit.{AuditSays, AuditRefuses};

use crate::answer::write_texts;
use crate::piece::{Piece, report_piece};
use crate::standing::Standing;
use pmp_text::{
    Fault, GrowingLog, MAX_TRACE, ReadScript, Refusal, Source, TraceRow, read_script_in,
};
use std::alloc::Global;
use std::io::Write;

/// How many accesses an audit decided, and how many of them it refused.
#[derive(Clone, Copy, Debug, Default, PartialEq, Eq)]
pub struct AuditSummary {
    pub rows: u64,
    pub faults: u64,
    /// The number of the first row whose start is 14 digits without `0x`: a decimal number, though rows write
    /// hexadecimal.
    pub bare: Option<u64>,
}

impl AuditSummary {
    /// Returns the summary of these rows, numbered from 1, of which `faults` were refused.
    pub(crate) fn of(rows: &[TraceRow], faults: u64) -> AuditSummary
        ensures { result ≡ record { rows = length rows.now; faults = faults; bare = first_bare 1 rows.now } }
    {
        AuditSummary {
            rows: rows.len() as u64,
            faults,
            bare: first_bare(rows),
        }
    }
}

/// Returns the number of the first of these rows whose start is bare.
fn first_bare(rows: &[TraceRow]) -> Option<u64>
    ensures { result ≡ first_bare 1 rows.now }
{
    let place = bare_place(rows)?;
    Some(1 + place as u64)
}

fn bare_place(rows: &[TraceRow]) -> Option<usize>
    ensures place { result ≡ first_bare 0 rows.now }
    ensures inside { IfSome result (λ place. place < length rows.now) }
{
    rows.iter().position(|row| row.is_bare)
}

/// Decides each row of the trace in the register file after the publications that it asks for, and writes a report row
/// for each, numbered from 1.
///
/// The script's fault comes before any of the trace. The report is complete before its first byte is written, so every
/// refusal but `Output` leaves the output untouched. The time grows with the sum of the events and the rows, not with
/// their product.
#[inline(never)]
pub fn audit_whole<W: Write>(
    alloc: Global,
    script: &[u8],
    trace: &[u8],
    writer: &mut W,
) -> Result<AuditSummary, Fault>
    ensures ok { IfOk result
        (IsWritten (AuditSays script.now trace.now) (W.contents writer.old) (W.contents writer.new)) }
    ensures err { IfErr result
        (IsRefused (AuditSays script.now trace.now) (W.contents writer.old) (W.contents writer.new)
        (AuditRefuses script.now trace.now)) }
{
    let mut log = GrowingLog::new(alloc);
    let script = read_script_in(&mut log, script)?;
    audit_trace(alloc, &script, trace, writer)
}

/// Audits the trace, whatever text the script was read from.
fn audit_trace<W: Write>(
    alloc: Global,
    script: &ReadScript,
    trace: &[u8],
    writer: &mut W,
) -> Result<AuditSummary, Fault>
    ensures ok { (text : List ℕ) → script_meaning text ≡ Ok script.now → IfOk result
        (IsWritten (AuditSays text trace.now) (W.contents writer.old) (W.contents writer.new)) }
    ensures err { (text : List ℕ) → script_meaning text ≡ Ok script.now → IfErr result
        (IsRefused (AuditSays text trace.now) (W.contents writer.old) (W.contents writer.new)
        (AuditRefuses text trace.now)) }
{
    if trace.len() > MAX_TRACE {
        return Err(Refusal::TooLong.whole().at_row(Source::Trace, 0));
    }
    let piece = Piece {
        script: &*script,
        text: trace,
        standing: Standing::beginning(1),
    };
    let report = report_piece(alloc, piece)?;
    let summary = report.behind.end(1)?;
    write_texts(writer, &report.texts)?;
    Ok(summary)
}
