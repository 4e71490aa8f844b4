//! The report of rows, one after another.

ghost use Rattle.std.specs.Prelude.{◌≡◌, ◌++◌, IfOk, OnOk, length, if◌then◌else◌};
ghost use Rattle.pmp_text.specs.LongTraces.{report_text_from};
ghost use Rattle.pmp_text.specs.Reports.{report_row};
ghost use Rattle.pmp_audit.specs.Report.{refused_count};

use pmp_core::Decision;
use pmp_text::{TraceRow, write_row};
use std::alloc::AllocError;

/// Appends a report row for each row and its decision, numbered from 1, and returns how many accesses are refused.
pub fn list_decisions(
    report: &mut Vec<u8>,
    rows: &[TraceRow],
    decisions: &[Decision],
) -> Result<u64, AllocError>
    requires { length decisions.now ≡ length rows.now }
    ensures text { OnOk result
        (report.new.items ≡ report.old.items ++ report_text_from 1 rows.now decisions.now) }
    ensures refused { IfOk result (λ faults. faults ≡ refused_count decisions.now) }
{
    let mut faults = 0;
    for place in 0..rows.len() {
        faults += list_row(report, place as u64 + 1, &rows[place], &decisions[place])?;
    }
    Ok(faults)
}

/// Appends the row of an access with this decision, and returns how many accesses that refuses.
pub fn list_row(
    report: &mut Vec<u8>,
    number: u64,
    row: &TraceRow,
    decision: &Decision,
) -> Result<u64, AllocError>
    ensures row { OnOk result
        (report.new.items ≡ report.old.items ++ report_row number row.now.access decision.now) }
    ensures refused { IfOk result (λ faults. faults ≡ (if decision.now.allowed then 0 else 1)) }
{
    write_row(report, number, &row.access, decision)?;
    Ok(if decision.allowed { 0 } else { 1 })
}
