//! The form in which a command's rows are written.

ghost use Rattle.std.specs.Prelude.{◌≡◌, Bool, IfOk, List, true};
ghost use Rattle.pmp_text.specs.Cells.{RowValue, csv_text};
ghost use Rattle.pmp_forms.specs.Cases.{suite_said};
ghost use Rattle.pmp_tool.specs.RowFormats.{check_of, formed, suite_for, table_for};

use pmp_forms::{
    Check, Suite, Table, append_csv, append_json, append_junit, append_markdown, append_sarif,
};
use pmp_text::{AnswerRow, RowKind};
use std::alloc::{AllocError, Global};

/// A form of rows.
#[derive(Clone, Copy)]
pub enum RowFormat {
    Csv,
    Json,
    Markdown,
    Junit,
    Sarif,
}

/// The form that is asked for, and what the rows are.
#[derive(Clone, Copy)]
pub struct AskedFormat<'a> {
    pub format: RowFormat,
    /// The kind of all rows, or of most.
    pub kind: RowKind,
    /// Whether each row ends with the names of its addresses.
    pub has_names: bool,
    /// Whether verdicts count events, and not publications.
    pub has_events: bool,
    /// The path of the script.
    pub script: &'a str,
    /// The path of the policy, or nothing.
    pub policy: &'a str,
}

/// Returns what a pipeline takes the rows for, if it takes such rows.
pub fn check_of(kind: RowKind) -> Option<Check>
    ensures { result ≡ check_of kind }
{
    match kind {
        RowKind::Verdict => Some(Check::Policy),
        RowKind::Finding => Some(Check::Lint),
        _ => None,
    }
}

impl<'a> AskedFormat<'a> {
    fn table(self, has_hart: bool) -> Table
        ensures { result ≡ table_for self.entry has_hart }
    {
        Table {
            kind: self.kind,
            has_hart,
            has_names: self.has_names,
        }
    }

    /// Returns what a pipeline reads of the rows.
    fn suite(self, check: Check, has_hart: bool) -> Suite<'a>
        ensures { suite_said result ≡ suite_for self.entry check has_hart }
    {
        Suite {
            check,
            table: self.table(has_hart),
            script: self.script.as_bytes(),
            policy: self.policy.as_bytes(),
            has_events: self.has_events,
        }
    }
}

/// Whether rows are printed as CSV.
pub fn is_csv(asked: Option<AskedFormat<'_>>) -> bool
    ensures { result ≡ true → (has_hart : Bool) (rows : List RowValue) → formed asked.entry has_hart rows
        ≡ csv_text rows }
{
    match asked {
        None => true,
        Some(asked) => matches!(asked.format, RowFormat::Csv),
    }
}

/// Returns rows in the form that is asked for, or as CSV.
pub fn formed(
    alloc: Global,
    asked: Option<AskedFormat<'_>>,
    has_hart: bool,
    rows: &[AnswerRow],
) -> Result<Vec<u8>, AllocError>
    ensures { IfOk result (λ text. text.items ≡ formed asked.entry has_hart rows.now) }
{
    let mut text = Vec::new(alloc);
    let Some(asked) = asked else {
        append_csv(&mut text, rows)?;
        return Ok(text);
    };
    let table = asked.table(has_hart);
    match (asked.format, check_of(asked.kind)) {
        (RowFormat::Json, _) => append_json(&mut text, table, rows)?,
        (RowFormat::Markdown, _) => append_markdown(&mut text, table, rows)?,
        (RowFormat::Junit, Some(check)) => {
            append_junit(&mut text, asked.suite(check, has_hart), rows)?;
        }
        (RowFormat::Sarif, Some(check)) => {
            append_sarif(&mut text, asked.suite(check, has_hart), rows)?;
        }
        _ => append_csv(&mut text, rows)?,
    }
    Ok(text)
}
