//! The rows of policies and findings as cases of tests.

ghost use Rattle.std.specs.Prelude.{◌≡◌, ◌++◌, IfOk, OnOk, map};
ghost use Rattle.pmp_text.specs.Columns.{column_value};
ghost use Rattle.pmp_forms.specs.Cases.{above_zero, between, breach_text, case_of, case_said, cases_of, counted_text};
ghost use Rattle.pmp_forms.specs.Cases.{finding_case, finding_text, finding_under, has_range, outcome_of, outcome_under};
ghost use Rattle.pmp_forms.specs.Cases.{owner_text, path_of, range_text, suite_said, verdict_case, verdict_message};

use crate::cells::{append_under, number_under, text_under};
use crate::table::Table;
use crate::texts::{append_all, bytes};
use pmp_lint::Lint;
use pmp_text::{AnswerRow, Cell, Column, Verdict, append_line, cell_under};
use std::alloc::{AllocError, Global};

/// What a script is checked for.
#[derive(Clone, Copy, Debug, PartialEq, Eq)]
pub enum Check {
    /// The demands of a policy, as `policy` does.
    Policy,
    /// What `lint` finds.
    Lint,
}

/// What rows are of, as cases of a test.
#[derive(Clone, Copy)]
pub struct Suite<'a> {
    pub check: Check,
    pub table: Table,
    /// The path of the script, or of the folder of scripts.
    pub script: &'a [u8],
    /// The path of the policy, or nothing.
    pub policy: &'a [u8],
    /// Whether verdicts count events, as with `--each-write`, and not publications.
    pub has_events: bool,
}

/// How a case ended.
#[derive(Clone, Copy, Debug, PartialEq, Eq)]
pub enum Outcome {
    Passed,
    Failed,
    Skipped,
}

/// A row as a case of a test.
#[derive(Drop)]
pub struct Case {
    pub outcome: Outcome,
    /// What is found, or none if it is a row of a policy.
    pub finding: Option<Lint>,
    /// The number of the policy's row, or the line of the script, from 1, if there is one.
    pub number: Option<u64>,
    /// The path of the script that it is about.
    pub path: Vec<u8>,
    pub title: Vec<u8>,
    /// Why it failed, if it did.
    pub message: Vec<u8>,
}

fn append_between(
    out: &mut Vec<u8>,
    before: &[u8],
    text: &[u8],
    behind: &[u8],
) -> Result<(), AllocError>
    ensures { OnOk result (out.new.items ≡ out.old.items ++ between before.now text.now behind.now) }
{
    if text.is_empty() {
        return Ok(());
    }
    append_all(out, &[before, text, behind])
}

/// Returns the path of the script that a row is about.
fn path_of(
    alloc: Global,
    suite: Suite<'_>,
    columns: &[Column],
    row: &AnswerRow,
) -> Result<Vec<u8>, AllocError>
    ensures { IfOk result (λ path. path.items
        ≡ path_of (suite_said suite.entry) (map column_value columns.now) row.now.cells) }
{
    let mut path = Vec::new(alloc);
    path.extend_from_slice(suite.script)?;
    if suite.table.has_hart {
        path.push(b'/')?;
        append_under(&mut path, "hart", columns, row)?;
    }
    Ok(path)
}

fn outcome_of(verdict: Verdict) -> Outcome
    ensures { result ≡ outcome_of verdict }
{
    match verdict {
        Verdict::Holds => Outcome::Passed,
        Verdict::Broken(_) | Verdict::Unmet(false) => Outcome::Failed,
        Verdict::Unmet(true) => Outcome::Skipped,
    }
}

/// Returns how the case of a policy's row ended.
fn outcome_under(columns: &[Column], row: &AnswerRow) -> Outcome
    ensures { result ≡ outcome_under (map column_value columns.now) row.now.cells }
{
    match cell_under("verdict", columns, row.cells()) {
        Some(Cell::Verdict(verdict)) => outcome_of(*verdict),
        _ => Outcome::Passed,
    }
}

/// Returns the owner in words.
fn owner_of(alloc: Global, owner: Option<u64>) -> Result<Vec<u8>, AllocError>
    ensures { IfOk result (λ text. text.items ≡ owner_text owner) }
{
    let mut text = Vec::new(alloc);
    match owner {
        Some(entry) => append_line(&mut text, format_args!("entry {entry}"))?,
        None => text.extend_from_slice(b"no entry")?,
    }
    Ok(text)
}

fn counted_word(has_events: bool) -> &'static [u8]
    ensures { result.now ≡ counted_text has_events }
{
    if has_events {
        b"event "
    } else {
        b"publication "
    }
}

/// Returns when a policy's row is broken, for which bytes, and by which entry.
fn breach_of(
    alloc: Global,
    has_events: bool,
    columns: &[Column],
    row: &AnswerRow,
) -> Result<Vec<u8>, AllocError>
    ensures { IfOk result (λ text. text.items
        ≡ breach_text (map column_value columns.now) row.now.cells has_events) }
{
    let done = text_under(alloc, "done", columns, row)?;
    let first = text_under(alloc, "first", columns, row)?;
    let last = text_under(alloc, "last", columns, row)?;
    let owner = owner_of(alloc, number_under("owner", columns, row))?;
    let mut text = Vec::new(alloc);
    append_all(
        &mut text,
        &[
            b"Broken after ",
            counted_word(has_events),
            done.as_slice(),
            b": bytes 0x",
            first.as_slice(),
            b" to 0x",
            last.as_slice(),
            b" of ",
            owner.as_slice(),
            b".",
        ],
    )?;
    Ok(text)
}

/// Returns why a policy's row fails: it is broken, or its moments don't come.
fn reason_of(
    alloc: Global,
    has_events: bool,
    columns: &[Column],
    row: &AnswerRow,
) -> Result<Vec<u8>, AllocError>
    ensures { IfOk result (λ text. text.items
        ≡ verdict_message (map column_value columns.now) row.now.cells has_events) }
{
    match cell_under("verdict", columns, row.cells()) {
        Some(Cell::Verdict(Verdict::Broken(_))) => breach_of(alloc, has_events, columns, row),
        _ => bytes(
            alloc,
            b"The row's moments don't come, or not in this order.",
        ),
    }
}

/// Returns what a row of findings finds.
fn finding_under(
    alloc: Global,
    columns: &[Column],
    row: &AnswerRow,
) -> Result<Option<Lint>, AllocError>
    ensures { IfOk result (λ lint. lint ≡ finding_under (map column_value columns.now) row.now.cells) }
{
    let name = text_under(alloc, "name", columns, row)?;
    Ok(Lint::read(&name))
}

/// Whether a row has a range.
fn has_range(columns: &[Column], row: &AnswerRow) -> bool
    ensures { result ≡ has_range (map column_value columns.now) row.now.cells }
{
    matches!(
        cell_under("first", columns, row.cells()),
        Some(Cell::Address(_))
    )
}

/// Returns the bytes of a row's range, if it has one.
fn range_of(alloc: Global, columns: &[Column], row: &AnswerRow) -> Result<Vec<u8>, AllocError>
    ensures { IfOk result (λ text. text.items ≡ range_text (map column_value columns.now) row.now.cells) }
{
    let mut text = Vec::new(alloc);
    if !has_range(columns, row) {
        return Ok(text);
    }
    let first = text_under(alloc, "first", columns, row)?;
    let last = text_under(alloc, "last", columns, row)?;
    append_all(
        &mut text,
        &[
            b" Bytes 0x",
            first.as_slice(),
            b" to 0x",
            last.as_slice(),
            b".",
        ],
    )?;
    Ok(text)
}

/// Appends the remedy of what is found, its entry, its bytes and its modes.
fn append_finding(out: &mut Vec<u8>, columns: &[Column], row: &AnswerRow) -> Result<(), AllocError>
    ensures { OnOk result
        (out.new.items ≡ out.old.items ++ finding_text (map column_value columns.now) row.now.cells) }
{
    if let Some(finding) = finding_under(*out.allocator(), columns, row)? {
        out.extend_from_slice(finding.remedy().as_bytes())?;
    }
    let entry = text_under(*out.allocator(), "entry", columns, row)?;
    append_between(out, b" Entry ", &entry, b".")?;
    let range = range_of(*out.allocator(), columns, row)?;
    out.extend_from_slice(&range)?;
    let modes = text_under(*out.allocator(), "modes", columns, row)?;
    append_between(out, b" Modes ", &modes, b".")
}

fn verdict_case(
    alloc: Global,
    suite: Suite<'_>,
    columns: &[Column],
    row: &AnswerRow,
) -> Result<Case, AllocError>
    ensures { IfOk result (λ case. case_said case
        ≡ verdict_case (suite_said suite.entry) (map column_value columns.now) row.now.cells) }
{
    let name = text_under(alloc, "name", columns, row)?;
    let mut title = text_under(alloc, "n", columns, row)?;
    append_between(&mut title, b" ", &name, b"")?;
    let comment = text_under(alloc, "comment", columns, row)?;
    let mut message = reason_of(alloc, suite.has_events, columns, row)?;
    append_between(&mut message, b" ", &comment, b"")?;
    Ok(Case {
        outcome: outcome_under(columns, row),
        finding: None,
        number: number_under("n", columns, row),
        path: path_of(alloc, suite, columns, row)?,
        title,
        message,
    })
}

/// Returns the line, unless it is 0.
fn above_zero(line: Option<u64>) -> Option<u64>
    ensures { result ≡ above_zero line }
{
    match line {
        Some(line) if line > 0 => Some(line),
        _ => None,
    }
}

fn finding_case(
    alloc: Global,
    suite: Suite<'_>,
    columns: &[Column],
    row: &AnswerRow,
) -> Result<Case, AllocError>
    ensures { IfOk result (λ case. case_said case
        ≡ finding_case (suite_said suite.entry) (map column_value columns.now) row.now.cells) }
{
    let mut title = text_under(alloc, "name", columns, row)?;
    title.push(b':')?;
    append_under(&mut title, "line", columns, row)?;
    let mut message = Vec::new(alloc);
    append_finding(&mut message, columns, row)?;
    Ok(Case {
        outcome: Outcome::Failed,
        finding: finding_under(alloc, columns, row)?,
        number: above_zero(number_under("line", columns, row)),
        path: path_of(alloc, suite, columns, row)?,
        title,
        message,
    })
}

fn case_of(alloc: Global, suite: Suite<'_>, row: &AnswerRow) -> Result<Case, AllocError>
    ensures { IfOk result (λ case. case_said case ≡ case_of (suite_said suite.entry) row.now) }
{
    let columns = suite.table.columns(alloc, row.kind())?;
    match suite.check {
        Check::Policy => verdict_case(alloc, suite, &columns, row),
        Check::Lint => finding_case(alloc, suite, &columns, row),
    }
}

/// Returns the rows as cases, in order.
pub fn cases_of(
    alloc: Global,
    suite: Suite<'_>,
    rows: &[AnswerRow],
) -> Result<Vec<Case>, AllocError>
    ensures { IfOk result (λ cases. map case_said cases.items ≡ cases_of (suite_said suite.entry) rows.now) }
{
    let mut cases = Vec::new(alloc);
    for row in rows {
        cases.push(case_of(alloc, suite, row)?)?;
    }
    Ok(cases)
}
