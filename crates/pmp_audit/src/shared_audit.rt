//! The accesses of a trace, decided by several threads that share one unit.

ghost use Rattle.std.specs.Prelude.{◌≡◌, ◌≤◌, ℕ, IfOk, IfErr, List, Ok};
ghost use Rattle.pmp_share.specs.declared.opening.TheConstants.{CHECKERS};
ghost use Rattle.pmp_text.specs.Scripts.{script_meaning};
ghost use Rattle.pmp_text.specs.Sizes.{IsInLimits};
ghost use Rattle.pmp_audit.specs.Answers.{IsWritten, IsRefused};
ghost use Rattle.pmp_audit.specs.SharedAudit.{SharedAuditRefuses};
ghost use Rattle.pmp_audit.specs.TraceAudit.{AuditSays};

mod asking;
mod deciding;
mod job;
mod merging;
mod rounds;
mod running;
mod working;

use crate::answer::write_answer;
use crate::gate::Gate;
use crate::report::list_decisions;
use crate::trace_audit::AuditSummary;
use deciding::decide_shared;
use pmp_core::laws::law_decided_by_ranges;
use pmp_text::laws::{law_legal_start, law_script_size};
use pmp_text::{Fault, GrowingLog, ReadScript, read_script_in, read_trace_by};
use std::alloc::Global;
use std::io::Write;
use std::sync::Wait;
use std::thread::Threads;

/// The workers of a shared audit, where their threads and memory come from, and the gate that they pass.
#[derive(Drop)]
pub struct Crew<'r, 'g, R, G> {
    pub rt: &'r R,
    pub alloc: Global,
    pub gate: &'g G,
    /// The number of workers.
    pub workers: u8,
}

/// Works as [`audit_whole`](crate::audit_whole), with workers that each have a checker of one unit and usually a thread
/// of their own.
///
/// The script's publications are executed one at a time. Before the first and after each, the rows that ask for exactly
/// these go to the workers: of the rows with the same `after`, worker `w` of `k` takes those whose index, from 0,
/// modulo `k` is `w`. The next publication follows once all of them are decided. If no thread can be created, a worker's
/// rows are decided on the calling thread, and so are those of workers that have few, if the gate doesn't wait.
///
/// Besides the refusals of `audit_whole` it may return `Share(NoPlace)` and `Moved`, both only if neither input has a
/// fault. In every case the workers have ended when it returns. It may wait.
#[inline(never)]
pub fn audit_by_workers<R: Threads + Wait + Sync, G: Gate + Sync, W: Write>(
    crew: &Crew<'_, '_, R, G>,
    script: &[u8],
    trace: &[u8],
    writer: &mut W,
) -> Result<AuditSummary, Fault>
    requires { (1 ≤ crew.now.workers) × (crew.now.workers ≤ CHECKERS) }
    ensures ok { IfOk result
        (IsWritten (AuditSays script.now trace.now) (W.contents writer.old) (W.contents writer.new)) }
    ensures err { IfErr result
        (IsRefused (AuditSays script.now trace.now) (W.contents writer.old) (W.contents writer.new)
        (SharedAuditRefuses script.now trace.now)) }
{
    let mut log = GrowingLog::new(crew.alloc);
    let script = read_script_in(&mut log, script)?;
    law_script_size();
    audit_trace(crew, &script, trace, writer)
}

/// Audits the trace, whatever text the script was read from.
fn audit_trace<R: Threads + Wait + Sync, G: Gate + Sync, W: Write>(
    crew: &Crew<'_, '_, R, G>,
    script: &ReadScript,
    trace: &[u8],
    writer: &mut W,
) -> Result<AuditSummary, Fault>
    requires workers { (1 ≤ crew.now.workers) × (crew.now.workers ≤ CHECKERS) }
    requires size { IsInLimits script.now.batches }
    ensures ok { (text : List ℕ) → script_meaning text ≡ Ok script.now → IfOk result
        (IsWritten (AuditSays text trace.now) (W.contents writer.old) (W.contents writer.new)) }
    ensures err { (text : List ℕ) → script_meaning text ≡ Ok script.now → IfErr result
        (IsRefused (AuditSays text trace.now) (W.contents writer.old) (W.contents writer.new)
        (SharedAuditRefuses text trace.now)) }
{
    let rows = read_trace_by(crew.alloc, trace, &script.moments())?;
    let decisions = decide_shared(crew, script, &rows)?;
    law_legal_start();
    law_decided_by_ranges();
    let mut report = Vec::new(crew.alloc);
    let faults = list_decisions(&mut report, &rows, &decisions)?;
    write_answer(writer, &report, Ok(AuditSummary::of(&rows, faults)))
}
