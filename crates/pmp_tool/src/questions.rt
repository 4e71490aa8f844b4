//! The rows that answer a question about a script.

ghost use Rattle.std.specs.Prelude.{◌≡◌, IfErr, IfOk, map};
ghost use Rattle.pmp_text.specs.MetNames.{given_names};
ghost use Rattle.pmp_text.specs.declared.script.reader.TheConstants.{MAX_HEADED_SCRIPT};
ghost use Rattle.pmp_audit.specs.Answers.{AreAdded};
ghost use Rattle.pmp_tool.specs.Inputs.{AreBytesOf, CantBeRead};
ghost use Rattle.pmp_tool.specs.NumberedInputs.{paths_for};
ghost use Rattle.pmp_tool.specs.Questions.{PathFails, PathSays, RowsFail, RowsSay, has_names, listed_at, name_allowed};
ghost use Rattle.pmp_tool.specs.Questions.{script_source, unscripted};
ghost use Rattle.pmp_tool.specs.declared.request.Question.TheVariants as question;

use crate::argument::Argument;
use crate::failure::Failure;
use crate::fault_line::FaultLine;
use crate::inputs::Inputs;
use crate::numbered_inputs::read_trace;
use crate::outcome::Outcome;
use crate::request::{Audit, Diff, Policy, Question};
use pmp_audit::{
    AskedPolicy, Moment, add_audit, add_check, add_diff, add_findings, add_listing, add_policy,
    add_reasons, add_writes,
};
use pmp_text::{
    AddressNames, GrowingLog, MAX_HEADED_SCRIPT, Refusal, RowSink, Source, When, is_headed,
};
use std::alloc::Global;

/// A question about the script at a path, and the names that addresses have, if they are given.
#[derive(Clone, Copy)]
pub struct Asking<'a> {
    pub alloc: Global,
    pub names: Option<AddressNames<'a>>,
    pub path: &'a str,
    pub question: Question<'a>,
}

/// Whether words may name moments of the script.
fn has_names(script: &[u8]) -> bool
    ensures { result ≡ has_names script.now }
{
    script.len() <= MAX_HEADED_SCRIPT && is_headed(script)
}

/// Refuses the word of an argument that names a moment if the script's version has no names.
pub fn allow_name(script: &[u8], argument: Argument, after: Option<When>) -> Result<(), FaultLine>
    ensures { result ≡ name_allowed script.now argument after }
{
    match after {
        Some(When::Labelled(_)) if !has_names(script) => Err(FaultLine::of_word(argument)),
        _ => Ok(()),
    }
}

/// Returns which script the question's is, if there are two.
pub fn script_source(question: Question<'_>) -> Source
    ensures { result ≡ script_source question.entry }
{
    match question {
        Question::Diff(_) => Source::Old,
        _ => Source::Script,
    }
}

/// Returns the moment that is asked for of a list.
fn listed_at(question: Question<'_>) -> Option<When>
    ensures { result ≡ listed_at question.entry }
{
    match question {
        Question::List(_, after) => after,
        _ => None,
    }
}

/// Returns the failure of a view whose script can't be read: that of its word for a moment, if that is no number.
pub fn unscripted(after: Option<When>, unread: Failure) -> Failure
    ensures { result ≡ unscripted after unread }
{
    match after {
        Some(When::Labelled(_)) => Failure::from(FaultLine::of_word(Argument::After)),
        _ => unread,
    }
}

/// Returns the bytes of the script at the path.
pub fn script_at<I: Inputs>(inputs: &mut I, path: &str) -> Result<Vec<u8>, Refusal>
    ensures read { IfOk result (λ bytes. AreBytesOf ((I.paths inputs.old).scripts path.now) bytes.items) }
    ensures unread { IfErr result (CantBeRead MAX_HEADED_SCRIPT ((I.paths inputs.old).scripts path.now)) }
    ensures paths { I.paths inputs.new ≡ I.paths inputs.old }
{
    Ok(inputs.script(path)?)
}

/// Adds the rows that answer a question about the script at its path.
pub fn add_answer<I: Inputs, R: RowSink>(
    asking: Asking<'_>,
    inputs: &mut I,
    rows: &mut R,
) -> Result<Outcome, Failure>
    ensures ok { IfOk result (AreAdded R.Adds (PathSays
        (paths_for (given_names asking.entry.names) (I.paths inputs.old)) asking.entry.path.now asking.entry.question)
        rows.old rows.new) }
    ensures err { IfErr result (PathFails
        (paths_for (given_names asking.entry.names) (I.paths inputs.old)) asking.entry.path.now asking.entry.question) }
    ensures paths { I.paths inputs.new ≡ I.paths inputs.old }
{
    match script_at(inputs, asking.path) {
        Ok(script) => add_rows(asking, &script, inputs, rows),
        Err(refusal) => Err(unscripted(
            listed_at(asking.question),
            Failure::unread(refusal, script_source(asking.question)),
        )),
    }
}

/// Adds the rows that answer a question about a script.
fn add_rows<I: Inputs, R: RowSink>(
    asking: Asking<'_>,
    script: &[u8],
    inputs: &mut I,
    rows: &mut R,
) -> Result<Outcome, Failure>
    ensures ok { IfOk result (AreAdded R.Adds (RowsSay
        (paths_for (given_names asking.entry.names) (I.paths inputs.old)) script.now asking.entry.question)
        rows.old rows.new) }
    ensures err { IfErr result (RowsFail
        (paths_for (given_names asking.entry.names) (I.paths inputs.old)) script.now asking.entry.question) }
    ensures paths { I.paths inputs.new ≡ I.paths inputs.old }
{
    let log = &mut GrowingLog::new(asking.alloc);
    match asking.question {
        Question::Check(asked) => {
            allow_name(script, Argument::After, asked.after)?;
            let decision = add_check(log, script, &asked.access, asked.after, rows)?;
            Ok(Outcome::Decided(decision, asked))
        }
        Question::Why(asked) => {
            allow_name(script, Argument::After, asked.after)?;
            let decision = add_reasons(log, script, &asked.access, asked.after, rows)?;
            Ok(Outcome::Explained(decision, asked.is_bare))
        }
        Question::Audit(audit) => asking.add_audit_rows(audit, script, inputs, rows),
        Question::Policy(policy) => asking.add_policy_rows(policy, script, inputs, rows),
        Question::List(listing, after) => {
            allow_name(script, Argument::After, after)?;
            add_listing(log, listing, script, after, rows)?;
            Ok(Outcome::Listed)
        }
        Question::Writes(accepted) => {
            let summary = add_writes(log, script, accepted.as_bytes(), rows)?;
            Ok(Outcome::Replayed(summary))
        }
        Question::Lint(accepted) => {
            let count = add_findings(log, script, accepted.as_bytes(), rows)?;
            Ok(Outcome::Found(count as u64))
        }
        Question::Diff(asked) => asking.add_diff_rows(asked, script, inputs, rows),
    }
}

impl<'a> Asking<'a> {
    /// Decides the accesses of a trace.
    fn add_audit_rows<I: Inputs, R: RowSink>(
        self,
        audit: Audit<'_>,
        script: &[u8],
        inputs: &mut I,
        rows: &mut R,
    ) -> Result<Outcome, Failure>
        ensures ok { IfOk result (AreAdded R.Adds (RowsSay
            (paths_for (given_names self.entry.names) (I.paths inputs.old)) script.now (question.Audit audit.entry))
            rows.old rows.new) }
        ensures err { IfErr result (RowsFail
            (paths_for (given_names self.entry.names) (I.paths inputs.old)) script.now (question.Audit audit.entry)) }
        ensures paths { I.paths inputs.new ≡ I.paths inputs.old }
    {
        let trace = read_trace(self.alloc, self.names, inputs, audit.trace)?;
        let summary = add_audit(self.alloc, script, &trace, rows)?;
        Ok(Outcome::Audited(summary))
    }

    /// Judges the rows of a policy.
    fn add_policy_rows<I: Inputs, R: RowSink>(
        self,
        policy: Policy<'_>,
        script: &[u8],
        inputs: &mut I,
        rows: &mut R,
    ) -> Result<Outcome, Failure>
        ensures ok { IfOk result (AreAdded R.Adds (RowsSay
            (paths_for (given_names self.entry.names) (I.paths inputs.old)) script.now (question.Policy policy.entry))
            rows.old rows.new) }
        ensures err { IfErr result (RowsFail
            (paths_for (given_names self.entry.names) (I.paths inputs.old)) script.now (question.Policy policy.entry)) }
        ensures paths { I.paths inputs.new ≡ I.paths inputs.old }
    {
        let text = read_trace(self.alloc, self.names, inputs, policy.path)?;
        let log = &mut GrowingLog::new(self.alloc);
        let asked = AskedPolicy {
            alloc: self.alloc,
            text: &text,
            asked: policy.asked,
        };
        let summary = add_policy(log, script, asked, rows)?;
        if policy.is_strict && summary.rows == 0 {
            return Err(Failure::from(Refusal::NoRows));
        }
        Ok(Outcome::Judged(summary))
    }

    /// Compares the script with a new one.
    fn add_diff_rows<I: Inputs, R: RowSink>(
        self,
        asked: Diff<'_>,
        script: &[u8],
        inputs: &mut I,
        rows: &mut R,
    ) -> Result<Outcome, Failure>
        ensures ok { IfOk result (AreAdded R.Adds (RowsSay
            (paths_for (given_names self.entry.names) (I.paths inputs.old)) script.now (question.Diff asked.entry))
            rows.old rows.new) }
        ensures err { IfErr result (RowsFail
            (paths_for (given_names self.entry.names) (I.paths inputs.old)) script.now (question.Diff asked.entry)) }
        ensures paths { I.paths inputs.new ≡ I.paths inputs.old }
    {
        allow_name(script, Argument::OldAfter, asked.old_after)?;
        let new = match script_at(inputs, asked.new) {
            Ok(new) => new,
            Err(refusal) => return Err(Failure::unread(refusal, Source::New)),
        };
        allow_name(&new, Argument::NewAfter, asked.new_after)?;
        let old = Moment {
            script,
            after: asked.old_after,
        };
        let new = Moment {
            script: &new,
            after: asked.new_after,
        };
        let count = add_diff(
            &mut GrowingLog::new(self.alloc),
            old,
            new,
            asked.changes,
            rows,
        )?;
        Ok(Outcome::Compared(count))
    }
}
