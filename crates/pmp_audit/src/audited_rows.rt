//! The accesses of a trace, each decided and added as a row.

ghost use Rattle.std.specs.Prelude.{◌≡◌, ◌<◌, ◌^◌, [], IfErr, IfOk, List, Ok, OnErr, length, map, ℕ};
ghost use Rattle.pmp_text.specs.Cells.{AddsSome};
ghost use Rattle.pmp_text.specs.Scripts.{script_meaning};
ghost use Rattle.pmp_text.specs.TraceFaults.{IsInOrder, afters};
ghost use Rattle.pmp_text.specs.Traces.{row_fields};
ghost use Rattle.pmp_audit.specs.Answers.{AreAdded, Declines};
ghost use Rattle.pmp_audit.specs.AuditedRows.{AuditRowsSay, DecisionsSay};
ghost use Rattle.pmp_audit.specs.TraceAudit.{AuditRefuses};

use crate::replay::Replay;
use crate::trace_audit::AuditSummary;
use pmp_text::{
    Fault, GrowingLog, ReadScript, RowSink, TraceRow, add_answer, read_script_in, read_trace_by,
};
use std::alloc::{AllocError, Global};

/// Decides each row of the trace as [`audit_whole`](crate::audit_whole) does, and adds a row for each, numbered from 1.
///
/// The script's fault comes before any of the trace.
#[inline(never)]
pub fn add_audit<R: RowSink>(
    alloc: Global,
    script: &[u8],
    trace: &[u8],
    out: &mut R,
) -> Result<AuditSummary, Fault>
    ensures ok { IfOk result (AreAdded R.Adds (AuditRowsSay script.now trace.now) out.old out.new) }
    ensures err { IfErr result (Declines (AuditRefuses script.now trace.now)) }
    ensures kept { OnErr result (R.Adds [] out.old out.new) }
{
    let mut log = GrowingLog::new(alloc);
    let script = read_script_in(&mut log, script)?;
    add_trace(alloc, &script, trace, out)
}

/// Adds the rows of a trace, whatever text the script was read from.
fn add_trace<R: RowSink>(
    alloc: Global,
    script: &ReadScript,
    trace: &[u8],
    out: &mut R,
) -> Result<AuditSummary, Fault>
    ensures ok { (text : List ℕ) → script_meaning text ≡ Ok script.now → IfOk result
        (AreAdded R.Adds (AuditRowsSay text trace.now) out.old out.new) }
    ensures err { (text : List ℕ) → script_meaning text ≡ Ok script.now → IfErr result
        (Declines (AuditRefuses text trace.now)) }
    ensures kept { OnErr result (R.Adds [] out.old out.new) }
{
    let rows = read_trace_by(alloc, trace, &script.moments())?;
    let faults = add_decisions(out, script, &rows)?;
    Ok(AuditSummary::of(&rows, faults))
}

/// Adds a row for each access, or nothing, and returns how many are refused.
fn add_decisions<R: RowSink>(
    out: &mut R,
    script: &ReadScript,
    rows: &[TraceRow],
) -> Result<u64, AllocError>
    requires order { IsInOrder (length script.now.batches) 0 (afters (map row_fields rows.now)) }
    requires few { length rows.now < 2 ^ 64 }
    ensures ok { IfOk result (AreAdded R.Adds (DecisionsSay script.now rows.now) out.old out.new) }
    ensures kept { OnErr result (R.Adds [] out.old out.new) }
{
    let before = out.position();
    let faults = add_each(out, script, rows);
    if faults.is_err() {
        out.go_back(before);
    }
    faults
}

/// Adds a row for each access, or for some, and returns how many are refused.
fn add_each<R: RowSink>(
    out: &mut R,
    script: &ReadScript,
    rows: &[TraceRow],
) -> Result<u64, AllocError>
    requires order { IsInOrder (length script.now.batches) 0 (afters (map row_fields rows.now)) }
    requires few { length rows.now < 2 ^ 64 }
    ensures ok { IfOk result (AreAdded R.Adds (DecisionsSay script.now rows.now) out.old out.new) }
    ensures err { OnErr result (AddsSome R.Adds out.old out.new) }
{
    let mut replay = Replay::new(script);
    let mut rest = rows;
    let mut number = 0u64;
    let mut faults = 0u64;
    while let Some((row, more)) = rest.split_first() {
        replay.advance(row.after);
        let decision = replay.decide(&row.access);
        number += 1;
        add_answer(out, number, &row.access, &decision)?;
        faults += u64::from(!decision.allowed);
        rest = more;
    }
    Ok(faults)
}
