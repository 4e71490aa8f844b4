//! Why an access is decided as it is after some of a script's publications, and the findings in a script.

ghost use Rattle.std.specs.Prelude.{[], IfErr, IfOk, List, OnErr, OnOk};
ghost use Rattle.pmp_lint.specs.Why.{AreAnswerRuns};
ghost use Rattle.pmp_lint.specs.declared.answer_run.AnswerRun.{AnswerRun};
ghost use Rattle.pmp_text.specs.Cells.{AddsSome};
ghost use Rattle.pmp_audit.specs.Answers.{AreAdded, Declines};
ghost use Rattle.pmp_audit.specs.AskedFile.{FileRefuses, ScriptRefuses};
ghost use Rattle.pmp_audit.specs.Reasons.{FindingsSay, ReasonsSay, reasons_rows};

use crate::asked_count::asked_count;
use pmp_core::{Access, Decision};
use pmp_lint::{Because, add_history, add_lint, add_why, why};
use pmp_text::{EventLog, Fault, ReadScript, RowSink, When, read_script_in};
use std::alloc::AllocError;

/// Decides the access after the script's publications done at the given moment, or after all of them if that is none,
/// and adds a row that says why, and after it the rows of its decisions at all moments. The log keeps the script's
/// events; `Memory` means that there is no room for them there, or none for the rows.
#[inline(never)]
pub fn add_reasons<L: EventLog, R: RowSink>(
    log: &mut L,
    script: &[u8],
    access: &Access,
    after: Option<When>,
    out: &mut R,
) -> Result<Decision, Fault>
    ensures ok { IfOk result (AreAdded R.Adds (ReasonsSay script.now access.now after) out.old out.new) }
    ensures err { IfErr result (Declines (FileRefuses script.now after)) }
    ensures kept { OnErr result (R.Adds [] out.old out.new) }
{
    let script = read_script_in(log, script)?;
    let done = asked_count(&script, after)?;
    let reason = why(&script, done, access);
    add_rows(out, &script, access, &reason)?;
    Ok(reason.decision)
}

/// Adds the row of a reason, and those of the access's decisions at all moments, or nothing.
fn add_rows<R: RowSink>(
    out: &mut R,
    script: &ReadScript<'_>,
    access: &Access,
    reason: &Because,
) -> Result<(), AllocError>
    ensures ok { OnOk result ((runs : List AnswerRun) × AreAnswerRuns script.now access.now runs
        × R.Adds (reasons_rows access.now reason.now runs) out.old out.new) }
    ensures kept { OnErr result (R.Adds [] out.old out.new) }
{
    let before = out.position();
    let added = add_all(out, script, access, reason);
    if added.is_err() {
        out.go_back(before);
    }
    added
}

/// Adds these rows, or some of them.
fn add_all<R: RowSink>(
    out: &mut R,
    script: &ReadScript<'_>,
    access: &Access,
    reason: &Because,
) -> Result<(), AllocError>
    ensures ok { OnOk result ((runs : List AnswerRun) × AreAnswerRuns script.now access.now runs
        × R.Adds (reasons_rows access.now reason.now runs) out.old out.new) }
    ensures err { OnErr result (AddsSome R.Adds out.old out.new) }
{
    add_why(out, access, reason)?;
    add_history(out, script, access)
}

/// Adds a row for each finding of the script that isn't accepted, lint by lint, and returns their number. The log keeps
/// the script's events; `Memory` means that there is no room for them there, or none for the rows.
#[inline(never)]
pub fn add_findings<L: EventLog, R: RowSink>(
    log: &mut L,
    script: &[u8],
    accepted: &[u8],
    out: &mut R,
) -> Result<usize, Fault>
    ensures ok { IfOk result (AreAdded R.Adds (FindingsSay script.now accepted.now) out.old out.new) }
    ensures err { IfErr result (Declines (ScriptRefuses script.now)) }
    ensures kept { OnErr result (R.Adds [] out.old out.new) }
{
    Ok(add_lint(log, script, accepted, out)?)
}
