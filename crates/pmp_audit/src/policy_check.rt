//! The rows of a policy, each judged in all states that it asks about.

ghost use Rattle.std.specs.Prelude.{◌≡◌, ◌+◌, ◌^◌, ◌<◌, ◌≤◌, ◌∷◌, [], All, IfOk, IfErr, OnErr, OnOk, length, map};
ghost use Rattle.std.specs.Prelude.{ℕ, List, None, Ok, option_copied, option_map, slice_get};
ghost use Rattle.pmp_text.specs.Cells.{AddsSome};
ghost use Rattle.pmp_text.specs.Labels.{label_text};
ghost use Rattle.pmp_text.specs.Scripts.{script_meaning};
ghost use Rattle.pmp_text.specs.declared.lines.verdict.Verdict.{Verdict};
ghost use Rattle.pmp_text.specs.declared.lines.verdict.Verdict.TheVariants.{Broken};
ghost use Rattle.pmp_text.specs.Verdicts.{is_breach};
ghost use Rattle.pmp_audit.specs.Answers.{AreAdded, Declines};
ghost use Rattle.pmp_audit.specs.PolicyCheck.{PolicyRefuses, VerdictRefuses, VerdictSays};
ghost use Rattle.pmp_audit.specs.PolicyRows.{AreWritten, IsToldOf};
ghost use Rattle.pmp_audit.specs.PolicySweep.{rows_of};
ghost use Rattle.pmp_audit.specs.PolicyTexts.{PolicySays, told_rows};

mod breach_list;
mod question;
mod search;
mod steps;
mod sweep;

use crate::moments::moments_of;
use crate::policy_check::breach_list::breaches_of;
use crate::policy_check::steps::Steps;
use crate::policy_check::sweep::{Judged, judge, judge_rows};
use pmp_text::{
    Breach, EventLog, Fault, Label, PolicyFields, PolicyRow, ReadScript, RowSink, Source, Verdict,
    add_verdict, read_policy, read_script_in,
};
use std::alloc::{AllocError, Global};
pub use steps::Pace;

/// Which breaches of a row get rows.
#[derive(Clone, Copy, Debug, PartialEq, Eq)]
pub enum Breaches {
    /// The first one, by time and then by address.
    First,
    /// Each, in the state in which it begins: where the state before has no run of the same bytes that breaks the row.
    All,
}

/// When the rows of a policy are judged, and which breaches get rows.
#[derive(Clone, Copy, Debug, PartialEq, Eq)]
pub struct AskedVerdicts {
    pub pace: Pace,
    pub breaches: Breaches,
}

/// The text of a policy, what is asked of it, and where the memory for its rows comes from.
#[derive(Clone, Copy)]
pub struct AskedPolicy<'t> {
    pub alloc: Global,
    pub text: &'t [u8],
    pub asked: AskedVerdicts,
}

/// How many rows a policy has, and how many of them are broken, or unmet though they don't allow it.
#[derive(Clone, Copy, Debug, Default, PartialEq, Eq)]
pub struct PolicySummary {
    pub rows: u64,
    pub broken: u64,
    /// The number of the first row with an address of 14 digits without `0x`: a decimal number, though rows write
    /// hexadecimal.
    pub bare: Option<u64>,
}

/// Judges each row of the policy after the script's publications that it names, or after each of their events, and adds
/// a row for each, numbered from 1: that it holds, or its first breach by time and then by address, or that its moments
/// never come. With all breaches it adds a row for each of them.
///
/// The script's fault comes before any of the policy. The log keeps the script's events; `Memory` means that there is
/// no room for them there, or none for the rows. There is one pass over the states: a row is checked again only if a
/// byte of its range may have moved; otherwise it costs a comparison of two ranges per state.
#[inline(never)]
pub fn add_policy<L: EventLog, R: RowSink>(
    log: &mut L,
    script: &[u8],
    policy: AskedPolicy<'_>,
    out: &mut R,
) -> Result<PolicySummary, Fault>
    ensures ok { IfOk result (AreAdded R.Adds
        (PolicySays policy.entry.asked.breaches policy.entry.asked.pace script.now policy.entry.text.now)
        out.old out.new) }
    ensures err { IfErr result (Declines (PolicyRefuses script.now policy.entry.text.now)) }
    ensures kept { OnErr result (R.Adds [] out.old out.new) }
{
    let script = read_script_in(log, script)?;
    check_rows(&script, policy, out)
}

/// Judges the rows of the policy, whatever text the script was read from.
fn check_rows<R: RowSink>(
    script: &ReadScript,
    policy: AskedPolicy<'_>,
    out: &mut R,
) -> Result<PolicySummary, Fault>
    ensures ok { (text : List ℕ) → script_meaning text ≡ Ok script.now → IfOk result
        (AreAdded R.Adds (PolicySays policy.entry.asked.breaches policy.entry.asked.pace text policy.entry.text.now)
        out.old out.new) }
    ensures err { (text : List ℕ) → script_meaning text ≡ Ok script.now → IfErr result
        (Declines (PolicyRefuses text policy.entry.text.now)) }
    ensures kept { OnErr result (R.Adds [] out.old out.new) }
{
    let AskedPolicy { alloc, text, asked } = policy;
    let policy = read_policy(alloc, text, &moments_of(script))?;
    let steps = Steps {
        script,
        pace: asked.pace,
    };
    let judged = judge_rows(alloc, &steps, &policy.rows)?;
    let telling = Telling {
        alloc,
        steps,
        breaches: asked.breaches,
        labels: &policy.labels,
    };
    Ok(add_all(out, &telling, &judged)?)
}

/// Adds the verdict on one row, under this row number, and returns it. The log keeps the script's events; `Memory` means
/// that there is no room for them there, or none for the row.
///
/// The script's fault comes before any of the row.
pub fn append_verdict<L: EventLog, R: RowSink>(
    log: &mut L,
    pace: Pace,
    script: &[u8],
    number: u64,
    fields: PolicyFields,
    out: &mut R,
) -> Result<Verdict, Fault>
    ensures ok { IfOk result (AreAdded R.Adds (VerdictSays pace script.now number fields) out.old out.new) }
    ensures err { IfErr result (Declines (VerdictRefuses script.now number fields)) }
    ensures kept { OnErr result (R.Adds [] out.old out.new) }
{
    let script = read_script_in(log, script)?;
    let row = match PolicyRow::new(script.batches(), fields) {
        Ok(row) => row,
        Err(flaw) => return Err(flaw.at_row(Source::Policy, number)),
    };
    let script = &script;
    let steps = Steps { script, pace };
    let mut judged = [Judged::new(&steps, &row)];
    judge(&steps, &mut judged);
    let [one] = judged;
    let verdict = one.told();
    add_verdict(out, number, verdict, None)?;
    Ok(verdict)
}

/// What is told of judged rows: which of the breaches in a script's steps, and the labels of the rows that have one.
#[derive(Clone, Copy)]
struct Telling<'s, 'l> {
    alloc: Global,
    steps: Steps<'s>,
    breaches: Breaches,
    labels: &'l [Label],
}

/// Adds what is told of the rows, or nothing.
fn add_all<R: RowSink>(
    out: &mut R,
    telling: &Telling<'_, '_>,
    judged: &[Judged],
) -> Result<PolicySummary, AllocError>
    requires { All (λ row. row.to ≤ length telling.now.steps.script.now.batches) (rows_of judged.now) }
    ensures ok { IfOk result (AreWritten R.Adds
        (IsToldOf telling.now.breaches telling.now.steps.pace telling.now.steps.script.now) judged.now
        (map label_text telling.now.labels.now) out.old out.new) }
    ensures kept { OnErr result (R.Adds [] out.old out.new) }
{
    let before = out.position();
    let summary = add_verdicts(out, telling, judged);
    if summary.is_err() {
        out.go_back(before);
    }
    summary
}

/// Adds what is told of the rows, or of some.
fn add_verdicts<R: RowSink>(
    out: &mut R,
    telling: &Telling<'_, '_>,
    judged: &[Judged],
) -> Result<PolicySummary, AllocError>
    requires { All (λ row. row.to ≤ length telling.now.steps.script.now.batches) (rows_of judged.now) }
    ensures ok { IfOk result (AreWritten R.Adds
        (IsToldOf telling.now.breaches telling.now.steps.pace telling.now.steps.script.now) judged.now
        (map label_text telling.now.labels.now) out.old out.new) }
    ensures err { OnErr result (AddsSome R.Adds out.old out.new) }
{
    let mut summary = PolicySummary::default();
    for one in judged {
        add_told(out, telling, one, summary.rows)?;
        summary.rows += 1;
        summary.broken += u64::from(one.told().is_breach());
        summary.bare = summary.bare.or(one.row.is_bare.then_some(summary.rows));
    }
    Ok(summary)
}

/// Returns the label of the row at this index, from 0, if it has one.
fn label_at(labels: &[Label], index: u64) -> Option<&Label>
    ensures { option_map label_text (option_copied result) ≡ slice_get (map label_text labels.now) index }
{
    labels.get(index as usize)
}

/// Adds what is told of the row at this index, from 0, with the label that it has there, if any.
fn add_told<R: RowSink>(
    out: &mut R,
    telling: &Telling<'_, '_>,
    one: &Judged,
    index: u64,
) -> Result<(), AllocError>
    requires room { index + 1 < 2 ^ 64 }
    requires within { one.now.row.to ≤ length telling.now.steps.script.now.batches }
    ensures ok { OnOk result ((told : List Verdict)
        × IsToldOf telling.now.breaches telling.now.steps.pace telling.now.steps.script.now one.now told
        × R.Adds (told_rows (index + 1) (slice_get (map label_text telling.now.labels.now) index) told)
        out.old out.new) }
    ensures err { OnErr result (AddsSome R.Adds out.old out.new) }
{
    let label = label_at(telling.labels, index);
    match (telling.breaches, one.told()) {
        (Breaches::All, Verdict::Broken(_)) => {
            let all = breaches_of(telling.alloc, &telling.steps, &one.row)?;
            add_breaches(out, index + 1, &all, label)
        }
        (Breaches::All, Verdict::Holds) => add_verdict(out, index + 1, Verdict::Holds, label),
        (Breaches::All, Verdict::Unmet(is_waived)) => {
            add_verdict(out, index + 1, Verdict::Unmet(is_waived), label)
        }
        (Breaches::First, verdict) => add_verdict(out, index + 1, verdict, label),
    }
}

/// Adds a row for each breach, under this row number.
fn add_breaches<R: RowSink>(
    out: &mut R,
    number: u64,
    all: &[Breach],
    label: Option<&Label>,
) -> Result<(), AllocError>
    ensures ok { OnOk result (R.Adds
        (told_rows number (option_map label_text (option_copied label.entry)) (map Broken all.now)) out.old out.new) }
    ensures err { OnErr result (AddsSome R.Adds out.old out.new) }
{
    for breach in all {
        add_verdict(out, number, Verdict::Broken(*breach), label)?;
    }
    Ok(())
}
