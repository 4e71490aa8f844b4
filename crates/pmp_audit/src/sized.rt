//! Answers about scripts of versions 1 and 2, with faults and sums as simple as those are.

ghost use Rattle.std.specs.Prelude.{◌≡◌, ◌≤◌, IfErr, IfOk, None, OnOk, Some};
ghost use Rattle.pmp_share.specs.declared.opening.TheConstants.{CHECKERS};
ghost use Rattle.pmp_text.specs.SizedScripts.{unsized_fault};
ghost use Rattle.pmp_text.specs.declared.script.sized.ScriptFault.{ScriptFault};
ghost use Rattle.pmp_audit.specs.AccessCheck.{CheckSays};
ghost use Rattle.pmp_audit.specs.Answers.{InCsv, IsRefused, IsWritten};
ghost use Rattle.pmp_audit.specs.AskedFile.{FileRefuses};
ghost use Rattle.pmp_audit.specs.SharedAudit.{SharedAuditRefuses};
ghost use Rattle.pmp_audit.specs.SizedAnswers.{IsRefusedSized, IsSized, audit_fault, counts_of, numbered_after};
ghost use Rattle.pmp_audit.specs.SizedAnswers.{AreCounted, input_answer, other_answer, script_answer};
ghost use Rattle.pmp_audit.specs.TraceAudit.{AuditRefuses, AuditSays};
ghost use Rattle.pmp_audit.specs.View.{ListingSays, ViewSays};
ghost use Rattle.pmp_audit.specs.declared.sized.AuditFault.TheVariants as sized;
ghost use Rattle.pmp_audit.specs.declared.view.Listing.TheVariants.{Runs};
ghost use Rattle.pmp_audit.specs.declared.view.View.TheVariants.{Registers};

use crate::access_check::add_check;
use crate::answer::write_answer;
use crate::gate::Gate;
use crate::shared_audit::{Crew, audit_by_workers};
use crate::trace_audit::{AuditSummary, audit_whole};
use crate::view::{AskedView, Listing, View, add_listing, append_view};
use pmp_core::{Access, Decision};
use pmp_share::{Moved, ShareFault};
use pmp_text::{
    Fault, GrowingLog, Place, Refusal, ScriptFault, Source, TraceFault, When, unsized_fault,
};
use std::alloc::Global;
use std::io::Write;
use std::sync::Wait;
use std::thread::Threads;
use thiserror::Error;

/// Why a script of version 1 or 2, or that and a trace, get no answer.
#[derive(Clone, Copy, Debug, PartialEq, Eq, Error)]
pub enum AuditFault {
    /// The script's own fault, except `Memory`.
    #[error("the script has a fault")]
    Script(ScriptFault),
    /// The trace's own fault, or that its input failed; not `Memory`.
    #[error("the trace has a fault")]
    Trace(TraceFault),
    /// The shared unit's refusal, except `Memory`.
    #[error("the shared unit has no place")]
    Share(ShareFault),
    /// More events were published than a worker's notice reported.
    #[error("more events were published than a worker was told of")]
    Moved(Moved),
    /// The script has fewer publications than were asked for.
    #[error("the script has fewer publications than were asked for")]
    BadAfter,
    /// Out of memory.
    #[error("out of memory")]
    Memory,
    /// The output can't be written.
    #[error("the output can't be written")]
    Output,
}

/// How many accesses an audit decided, and how many of them it refused.
#[derive(Clone, Copy, Debug, Default, PartialEq, Eq)]
pub struct Summary {
    pub rows: u64,
    pub faults: u64,
}

impl AuditFault {
    fn of_script(fault: Fault) -> AuditFault
        ensures { result ≡ script_answer fault.refusal fault }
    {
        match fault.refusal {
            Refusal::BadAfter | Refusal::NoMoment => AuditFault::BadAfter,
            _ => AuditFault::Script(ScriptFault::from(fault)),
        }
    }

    fn of_input(source: Source, fault: Fault) -> AuditFault
        ensures { result ≡ input_answer source fault }
    {
        match source {
            Source::Trace | Source::Policy => AuditFault::Trace(TraceFault::from(fault)),
            _ => AuditFault::of_script(fault),
        }
    }

    fn of_no_input(refusal: Refusal) -> AuditFault
        ensures { result ≡ other_answer refusal }
    {
        match refusal {
            Refusal::NoPlace => AuditFault::Share(ShareFault::NoPlace),
            Refusal::Full => AuditFault::Share(ShareFault::Full),
            Refusal::Output => AuditFault::Output,
            _ => AuditFault::Memory,
        }
    }
}

impl From<Fault> for AuditFault {
    ghost from_gives = { λ fault simple. simple ≡ audit_fault fault };

    fn from(fault: Fault) -> AuditFault {
        match fault.place {
            Place::In { source, .. } => AuditFault::of_input(source, fault),
            Place::Events(seen) => AuditFault::Moved(Moved { seen }),
            _ => AuditFault::of_no_input(fault.refusal),
        }
    }
}

impl AuditSummary {
    /// Returns the two numbers of it.
    fn counts(self) -> Summary
        ensures { result ≡ counts_of self }
    {
        Summary {
            rows: self.rows,
            faults: self.faults,
        }
    }
}

/// Refuses a text whose length or version is that of no script of version 1 or 2.
fn want_sized(script: &[u8]) -> Result<(), AuditFault>
    ensures ok { OnOk result (unsized_fault script.now ≡ None) }
    ensures err { IfErr result (λ fault.
        (first : ScriptFault) × (unsized_fault script.now ≡ Some first) × (fault ≡ sized.Script first)) }
{
    match unsized_fault(script) {
        Some(fault) => Err(AuditFault::Script(fault)),
        None => Ok(()),
    }
}

/// Decides the access after all publications of the script, and writes its report row, with the number 1.
///
/// The row is complete before its first byte is written, so every refusal but `Output` leaves the output untouched.
/// [`add_check`](crate::add_check) does so for a script of any version, and at any moment.
#[inline(never)]
pub fn check<W: Write>(
    alloc: Global,
    script: &[u8],
    access: &Access,
    writer: &mut W,
) -> Result<Decision, AuditFault>
    ensures ok { IfOk result (IsSized (InCsv (CheckSays script.now access.now None)) script.now
        (W.contents writer.old) (W.contents writer.new)) }
    ensures err { IfErr result (IsRefusedSized (InCsv (CheckSays script.now access.now None)) script.now
        (W.contents writer.old) (W.contents writer.new) (FileRefuses script.now None)) }
{
    want_sized(script)?;
    Ok(check_any(alloc, script, access, writer)?)
}

/// Decides the access after all publications of a script of any version, and writes its row.
fn check_any<W: Write>(
    alloc: Global,
    script: &[u8],
    access: &Access,
    writer: &mut W,
) -> Result<Decision, Fault>
    ensures ok { IfOk result (IsWritten (InCsv (CheckSays script.now access.now None))
        (W.contents writer.old) (W.contents writer.new)) }
    ensures err { IfErr result (IsRefused (InCsv (CheckSays script.now access.now None))
        (W.contents writer.old) (W.contents writer.new) (FileRefuses script.now None)) }
{
    let mut text = Vec::new(alloc);
    let made = add_check(&mut GrowingLog::new(alloc), script, access, None, &mut text);
    write_answer(writer, &text, made)
}

/// Decides each row of the trace in the register file after the publications that it asks for, and writes a report row
/// for each, numbered from 1.
///
/// The script's fault comes before any of the trace. The report is complete before its first byte is written, so every
/// refusal but `Output` leaves the output untouched. [`audit_whole`](crate::audit_whole) does so for a script of any
/// version, whose moments rows may name.
#[inline(never)]
pub fn audit<W: Write>(
    alloc: Global,
    script: &[u8],
    trace: &[u8],
    writer: &mut W,
) -> Result<Summary, AuditFault>
    ensures ok { IfOk result (IsSized (AreCounted script.now trace.now) script.now
        (W.contents writer.old) (W.contents writer.new)) }
    ensures err { IfErr result (IsRefusedSized (AuditSays script.now trace.now) script.now
        (W.contents writer.old) (W.contents writer.new) (AuditRefuses script.now trace.now)) }
{
    want_sized(script)?;
    let summary = audit_whole(alloc, script, trace, writer)?;
    Ok(summary.counts())
}

/// Works as [`audit`], with `k` workers, each with a checker of one unit and usually a thread of its own, as
/// [`audit_by_workers`](crate::audit_by_workers) does for a script of any version.
///
/// Besides the refusals of `audit` it may return `Share(NoPlace)` and `Moved`, both only if neither input has a fault.
/// In every case the workers have ended when it returns. It may wait.
#[inline(never)]
pub fn audit_shared<R: Threads + Wait + Sync, G: Gate + Sync, W: Write>(
    rt: &R,
    alloc: Global,
    gate: &G,
    k: u8,
    script: &[u8],
    trace: &[u8],
    writer: &mut W,
) -> Result<Summary, AuditFault>
    requires { (1 ≤ k) × (k ≤ CHECKERS) }
    ensures ok { IfOk result (IsSized (AreCounted script.now trace.now) script.now
        (W.contents writer.old) (W.contents writer.new)) }
    ensures err { IfErr result (IsRefusedSized (AuditSays script.now trace.now) script.now
        (W.contents writer.old) (W.contents writer.new) (SharedAuditRefuses script.now trace.now)) }
{
    want_sized(script)?;
    let crew = Crew {
        rt,
        alloc,
        gate,
        workers: k,
    };
    let summary = audit_by_workers(&crew, script, trace, writer)?;
    Ok(summary.counts())
}

/// Writes the runs after so many publications, or after all of them, a line for each: which bytes each entry owns, and
/// what it lets each mode do there. [`add_listing`] lists them for a script of any version, and at any moment.
#[inline(never)]
pub fn map_of<W: Write>(
    alloc: Global,
    script: &[u8],
    after: Option<u64>,
    writer: &mut W,
) -> Result<(), AuditFault>
    ensures ok { IfOk result (IsSized (InCsv (ListingSays Runs script.now (numbered_after after))) script.now
        (W.contents writer.old) (W.contents writer.new)) }
    ensures err { IfErr result (IsRefusedSized (InCsv (ListingSays Runs script.now (numbered_after after))) script.now
        (W.contents writer.old) (W.contents writer.new) (FileRefuses script.now (numbered_after after))) }
{
    want_sized(script)?;
    Ok(list_runs(alloc, script, after.map(When::Number), writer)?)
}

/// Writes the runs of a script of any version.
fn list_runs<W: Write>(
    alloc: Global,
    script: &[u8],
    after: Option<When>,
    writer: &mut W,
) -> Result<(), Fault>
    ensures ok { IfOk result (IsWritten (InCsv (ListingSays Runs script.now after))
        (W.contents writer.old) (W.contents writer.new)) }
    ensures err { IfErr result (IsRefused (InCsv (ListingSays Runs script.now after))
        (W.contents writer.old) (W.contents writer.new) (FileRefuses script.now after)) }
{
    let mut text = Vec::new(alloc);
    let made = add_listing(
        &mut GrowingLog::new(alloc),
        Listing::Runs,
        script,
        after,
        &mut text,
    );
    write_answer(writer, &text, made)
}

/// Writes the registers of a script of any version.
#[tactic(auto, using(crate::proofs::WrittenAnswers::answer_rules))]
fn show_registers<W: Write>(
    alloc: Global,
    script: &[u8],
    after: Option<When>,
    writer: &mut W,
) -> Result<(), Fault>
    ensures ok { IfOk result (IsWritten (ViewSays Registers None script.now after)
        (W.contents writer.old) (W.contents writer.new)) }
    ensures err { IfErr result (IsRefused (ViewSays Registers None script.now after)
        (W.contents writer.old) (W.contents writer.new) (FileRefuses script.now after)) }
{
    let mut text = Vec::new(alloc);
    let asked = AskedView {
        view: View::Registers,
        after,
        names: None,
    };
    let made = append_view(&mut GrowingLog::new(alloc), asked, script, &mut text);
    write_answer(writer, &text, made)
}

/// Writes the registers after so many publications, or after all of them, a line for each. [`append_view`] does so for
/// a script of any version, and at any moment.
#[inline(never)]
pub fn dump<W: Write>(
    alloc: Global,
    script: &[u8],
    after: Option<u64>,
    writer: &mut W,
) -> Result<(), AuditFault>
    ensures ok { IfOk result (IsSized (ViewSays Registers None script.now (numbered_after after)) script.now
        (W.contents writer.old) (W.contents writer.new)) }
    ensures err { IfErr result (IsRefusedSized (ViewSays Registers None script.now (numbered_after after)) script.now
        (W.contents writer.old) (W.contents writer.new) (FileRefuses script.now (numbered_after after))) }
{
    want_sized(script)?;
    Ok(show_registers(alloc, script, after.map(When::Number), writer)?)
}
