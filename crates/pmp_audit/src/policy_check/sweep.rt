//! The rows of a policy, judged side by side in one pass over the states.

ghost use Rattle.std.specs.Prelude.{◌≡◌, ◌+◌, ◌<◌, ◌≤◌, ℕ, All, IfOk, None, false, length};
ghost use Rattle.pmp_core.specs.Moved.{AreAlikeBeside, IsMoved};
ghost use Rattle.pmp_core.specs.RegisterFile.{RegisterFile};
ghost use Rattle.pmp_text.specs.Contents.{ScriptContents};
ghost use Rattle.pmp_audit.specs.declared.policy_check.steps.Pace.{Pace};
ghost use Rattle.pmp_audit.specs.PolicyCheck.{IsFirstIn, IsVerdict, state_after};
ghost use Rattle.pmp_audit.specs.PolicySweep.{IsJudged, IsStateOf, IsVerdictBefore, rows_of, told_of};

use crate::policy_check::question::Question;
use crate::policy_check::search::first_run;
use crate::policy_check::steps::{State, Steps};
use pmp_core::Span;
use pmp_map::Run;
use pmp_text::{Breach, Coming, Demand, PolicyRow, Verdict};
use std::alloc::{AllocError, Global};

/// A row of a policy, and its verdict so far.
#[derive(Clone, Copy)]
pub struct Judged {
    pub row: PolicyRow,
    /// How many steps are done in the first state that the row asks about.
    from: u64,
    /// How many steps are done in the last state that the row asks about.
    to: u64,
    /// Its first breach, or none so far.
    verdict: Option<Breach>,
}

/// Whether a byte of the row's range may have moved.
#[inline(always)]
fn is_moved(row: &PolicyRow, moved: Option<Span>) -> bool
    ensures { result ≡ false → (byte : ℕ) → row.now.first ≤ byte → byte ≤ row.now.last → ¬ (IsMoved moved byte) }
{
    match moved {
        Some(span) => span.first <= row.last && row.first <= span.last,
        None => false,
    }
}

impl Judged {
    /// Returns the row before the first state.
    pub fn new(steps: &Steps<'_>, row: &PolicyRow) -> Judged
        requires { row.now.to ≤ length steps.now.script.now.batches }
        ensures judged { IsJudged steps.now.pace steps.now.script.now 0 result }
        ensures row { result.row ≡ row.now }
    {
        Judged {
            row: *row,
            from: steps.count(row.from),
            to: steps.count(row.to),
            verdict: None,
        }
    }

    /// Returns the verdict on the row. One whose moments don't come is judged in the last state, which isn't reported.
    pub fn told(&self) -> Verdict
        ensures { result ≡ told_of self.now }
    {
        match (self.row.coming, self.verdict) {
            (Coming::Met, None) => Verdict::Holds,
            (Coming::Met, Some(breach)) => Verdict::Broken(breach),
            (Coming::Unmet, _) => Verdict::Unmet(false),
            (Coming::Waived, _) => Verdict::Unmet(true),
        }
    }

    /// Returns the first run that breaks the row's demand in this state, if none did in the previous one and the row
    /// asked about that: then only bytes that moved can.
    #[inline(always)]
    fn broken_in(&self, state: &State) -> Option<Run>
        ensures { (self.now.from < state.now.done → (before : RegisterFile)
            × AreAlikeBeside before state.now.file state.now.moved × IsFirstIn before self.now.row None)
            → IsFirstIn state.now.file self.now.row result }
    {
        if self.from < state.done && !is_moved(&self.row, state.moved) {
            return None;
        }
        first_run(&state.file, &self.row, Question::IsBroken)
    }

    /// Returns the row's breach in this state, about which it asks, if it has none before.
    #[inline(always)]
    fn breach_in(&self, state: &State) -> Option<Breach>
        requires { (self.now.from ≤ state.now.done) × (state.now.done ≤ self.now.to) }
        ensures { (states : ℕ → RegisterFile) → IsStateOf states state.now
            → IsVerdictBefore states self.now.row self.now.from self.now.to state.now.done None
            → IsVerdictBefore states self.now.row self.now.from self.now.to (state.now.done + 1) result }
    {
        let done = state.done;
        if let Some(run) = self.broken_in(state) {
            return Some(Breach { done, run });
        }
        if self.row.demand == Demand::Held && done == self.to {
            let run = first_run(&state.file, &self.row, Question::IsNotHeld)?;
            return Some(Breach { done, run });
        }
        None
    }

    /// Looks for a breach in this state, unless there is one before, or the row doesn't ask about the state.
    #[inline(always)]
    fn ask(&mut self, state: &State)
        ensures judged { (pace : Pace) (script : ScriptContents) → IsStateOf (state_after pace script) state.now
            → IsJudged pace script state.now.done self.old → IsJudged pace script (state.now.done + 1) self.new }
        ensures row { self.new.row ≡ self.old.row }
    {
        if self.verdict.is_none() && self.from <= state.done && state.done <= self.to {
            self.verdict = self.breach_in(state);
        }
    }
}

/// Looks for a breach of each row in this state.
fn ask_all(rows: &mut [Judged], state: &State)
    ensures judged { (pace : Pace) (script : ScriptContents) → IsStateOf (state_after pace script) state.now
        → All (IsJudged pace script state.now.done) rows.old
        → All (IsJudged pace script (state.now.done + 1)) rows.new }
    ensures rows { rows_of rows.new ≡ rows_of rows.old }
{
    for row in rows.iter_mut() {
        row.ask(state);
    }
}

/// Judges the rows in all states that they ask about. A state costs what its step may have moved: only rows without a
/// breach that begin in it, or have such bytes, are checked.
pub fn judge(steps: &Steps<'_>, rows: &mut [Judged])
    requires { All (IsJudged steps.now.pace steps.now.script.now 0) rows.old }
    ensures judged { All (λ one. IsVerdict steps.now.pace steps.now.script.now one.row (told_of one)) rows.new }
    ensures rows { rows_of rows.new ≡ rows_of rows.old }
{
    let last = steps.count(steps.script.batches());
    let mut state = steps.start();
    ask_all(rows, &state);
    while state.done < last {
        steps.advance(&mut state);
        ask_all(rows, &state);
    }
}

/// The rows, judged in all states that they ask of.
pub fn judge_rows(
    alloc: Global,
    steps: &Steps<'_>,
    rows: &[PolicyRow],
) -> Result<Vec<Judged>, AllocError>
    requires { All (λ row. row.to ≤ length steps.now.script.now.batches) rows.now }
    ensures judged { IfOk result (λ all.
        All (λ one. IsVerdict steps.now.pace steps.now.script.now one.row (told_of one)) all.items) }
    ensures rows { IfOk result (λ all. rows_of all.items ≡ rows.now) }
{
    let mut all = Vec::new(alloc);
    for row in rows {
        all.push(Judged::new(steps, row))?;
    }
    judge(steps, &mut all);
    Ok(all)
}
