//! Cases as JUnit's XML.

ghost use Rattle.std.specs.List.{flat_map};
ghost use Rattle.std.specs.Prelude.{◌≡◌, ◌++◌, ◌≤◌, IfOk, OnOk, length, map};
ghost use Rattle.pmp_forms.specs.Cases.{case_said, cases_of, suite_said};
ghost use Rattle.pmp_forms.specs.Junit.{case_text, count_of, counts_text, ending, failure_text, is_forbidden, is_same};
ghost use Rattle.pmp_forms.specs.Junit.{junit_text, no_findings, opening, shown, suite_name, suite_text};
ghost use Rattle.pmp_forms.specs.Junit.{tag_text, xml, xml_byte};

use crate::cases::{Case, Check, Outcome, Suite, cases_of};
use crate::texts::{append_all, bytes};
use pmp_text::{AnswerRow, append_line};
use std::alloc::{AllocError, Global};

fn is_forbidden(byte: u8) -> bool
    ensures { result ≡ is_forbidden byte }
{
    byte < 32 && !matches!(byte, b'\t' | b'\n' | b'\r')
}

fn append_byte(out: &mut Vec<u8>, byte: u8) -> Result<(), AllocError>
    ensures { OnOk result (out.new.items ≡ out.old.items ++ xml_byte byte) }
{
    match byte {
        b'&' => out.extend_from_slice(b"&amp;")?,
        b'<' => out.extend_from_slice(b"&lt;")?,
        b'>' => out.extend_from_slice(b"&gt;")?,
        b'"' => out.extend_from_slice(b"&quot;")?,
        _ if is_forbidden(byte) => out.push(b'?')?,
        _ => out.push(byte)?,
    }
    Ok(())
}

fn append_escaped(out: &mut Vec<u8>, text: &[u8]) -> Result<(), AllocError>
    ensures { OnOk result (out.new.items ≡ out.old.items ++ flat_map xml_byte text.now) }
{
    for byte in text {
        append_byte(out, *byte)?;
    }
    Ok(())
}

/// Returns a text as an attribute's value has it.
fn xml(alloc: Global, text: &[u8]) -> Result<Vec<u8>, AllocError>
    ensures { IfOk result (λ all. all.items ≡ xml text.now) }
{
    let text = String::from_utf8_lossy(alloc, text)?;
    let mut all = Vec::new(alloc);
    append_escaped(&mut all, text.as_bytes())?;
    Ok(all)
}

fn append_failure(out: &mut Vec<u8>, message: &[u8]) -> Result<(), AllocError>
    ensures { OnOk result (out.new.items ≡ out.old.items ++ failure_text message.now) }
{
    let message = xml(*out.allocator(), message)?;
    append_all(
        out,
        &[
            b"><failure message=\"",
            message.as_slice(),
            b"\"/></testcase>\n",
        ],
    )
}

fn append_ending(out: &mut Vec<u8>, case: &Case) -> Result<(), AllocError>
    ensures { OnOk result (out.new.items ≡ out.old.items ++ ending (case_said case.now)) }
{
    match case.outcome {
        Outcome::Passed => Ok(out.extend_from_slice(b"/>\n")?),
        Outcome::Failed => append_failure(out, &case.message),
        Outcome::Skipped => {
            Ok(out.extend_from_slice(b"><skipped message=\"unmet\"/></testcase>\n")?)
        }
    }
}

fn append_opening(out: &mut Vec<u8>, case: &Case) -> Result<(), AllocError>
    ensures { OnOk result (out.new.items ≡ out.old.items ++ opening (case_said case.now)) }
{
    let path = xml(*out.allocator(), &case.path)?;
    let title = xml(*out.allocator(), &case.title)?;
    append_all(
        out,
        &[
            b"<testcase classname=\"",
            path.as_slice(),
            b"\" name=\"",
            title.as_slice(),
            b"\"",
        ],
    )
}

fn append_cases(out: &mut Vec<u8>, cases: &[Case]) -> Result<(), AllocError>
    ensures { OnOk result (out.new.items ≡ out.old.items ++ flat_map case_text (map case_said cases.now)) }
{
    for case in cases {
        append_opening(out, case)?;
        append_ending(out, case)?;
    }
    Ok(())
}

fn no_findings(alloc: Global, script: &[u8]) -> Result<Case, AllocError>
    ensures { IfOk result (λ case. case_said case ≡ no_findings script.now) }
{
    Ok(Case {
        outcome: Outcome::Passed,
        finding: None,
        number: None,
        path: bytes(alloc, script)?,
        title: bytes(alloc, b"no findings")?,
        message: Vec::new(alloc),
    })
}

/// Returns the cases of rows, or if there are no findings, a case that says so.
fn shown(alloc: Global, suite: Suite<'_>, rows: &[AnswerRow]) -> Result<Vec<Case>, AllocError>
    ensures { IfOk result (λ cases. map case_said cases.items
        ≡ shown (suite_said suite.entry) (cases_of (suite_said suite.entry) rows.now)) }
{
    let mut cases = cases_of(alloc, suite, rows)?;
    if cases.is_empty() && matches!(suite.check, Check::Lint) {
        cases.push(no_findings(alloc, suite.script)?)?;
    }
    Ok(cases)
}

fn is_same(one: Outcome, other: Outcome) -> bool
    ensures { result ≡ is_same one other }
{
    matches!(
        (one, other),
        (Outcome::Passed, Outcome::Passed)
            | (Outcome::Failed, Outcome::Failed)
            | (Outcome::Skipped, Outcome::Skipped)
    )
}

fn count_of(outcome: Outcome, cases: &[Case]) -> usize
    ensures { result ≡ count_of outcome (map case_said cases.now) }
{
    let mut count = 0usize;
    for case in cases {
        if is_same(outcome, case.outcome) {
            count += 1;
        }
    }
    count
}

fn suite_name(check: Check) -> &'static str
    ensures { result.now ≡ suite_name check }
{
    match check {
        Check::Policy => "pmp policy",
        Check::Lint => "pmp lint",
    }
}

/// How many cases a suite has, and how many of them failed or were skipped.
#[derive(Clone, Copy)]
struct Counts {
    tests: usize,
    failures: usize,
    skipped: usize,
}

fn append_counts(out: &mut Vec<u8>, name: &str, counts: Counts) -> Result<(), AllocError>
    ensures { OnOk result (out.new.items ≡ out.old.items
        ++ counts_text name.now counts.tests counts.failures counts.skipped) }
{
    let Counts {
        tests,
        failures,
        skipped,
    } = counts;
    append_line(
        out,
        format_args!(
            "<testsuite name=\"{name}\" tests=\"{tests}\" failures=\"{failures}\" skipped=\"{skipped}\">\n"
        ),
    )
}

fn append_tag(out: &mut Vec<u8>, check: Check, cases: &[Case]) -> Result<(), AllocError>
    ensures { OnOk result (out.new.items ≡ out.old.items ++ tag_text check (map case_said cases.now)) }
{
    let counts = Counts {
        tests: cases.len(),
        failures: count_of(Outcome::Failed, cases),
        skipped: count_of(Outcome::Skipped, cases),
    };
    append_counts(out, suite_name(check), counts)
}

fn append_suite(out: &mut Vec<u8>, check: Check, cases: &[Case]) -> Result<(), AllocError>
    ensures { OnOk result (out.new.items ≡ out.old.items ++ suite_text check (map case_said cases.now)) }
{
    out.extend_from_slice(b"<?xml version=\"1.0\" encoding=\"UTF-8\"?>\n<testsuites>\n")?;
    append_tag(out, check, cases)?;
    append_cases(out, cases)?;
    Ok(out.extend_from_slice(b"</testsuite>\n</testsuites>\n")?)
}

/// Appends rows of a policy or findings as a suite of JUnit's XML, with a case for each row; if there are no findings,
/// one case says so.
///
/// A finding is a failure, and so is a row that is broken, or unmet unless it waives that; then it is skipped. The only
/// error is that memory runs out;
/// then a part may have been appended.
pub fn append_junit(
    out: &mut Vec<u8>,
    suite: Suite<'_>,
    rows: &[AnswerRow],
) -> Result<(), AllocError>
    ensures { OnOk result (out.new.items ≡ out.old.items ++ junit_text (suite_said suite.entry) rows.now) }
{
    let cases = shown(*out.allocator(), suite, rows)?;
    append_suite(out, suite.check, &cases)
}
