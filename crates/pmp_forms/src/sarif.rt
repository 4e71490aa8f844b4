//! Cases as SARIF 2.1.0.

ghost use Rattle.std.specs.List.{flat_map};
ghost use Rattle.std.specs.Prelude.{◌≡◌, ◌++◌, IfOk, OnOk, map};
ghost use Rattle.pmp_forms.specs.Cases.{case_said, cases_of, suite_said};
ghost use Rattle.pmp_forms.specs.Sarif.{after_comma, elements, finding_location, found_text, json_string, level};
ghost use Rattle.pmp_forms.specs.Sarif.{line_of, lint_rule, location, locations, log_text, message, most_row, region};
ghost use Rattle.pmp_forms.specs.Sarif.{result_text, results_of, row_location, row_name, row_rule, row_rules, rule_name};
ghost use Rattle.pmp_forms.specs.Sarif.{rule_text, rules_of, sarif_text};
ghost use Rattle.pmp_forms.specs.Texts.{text_items};

use crate::cases::{Case, Check, Outcome, Suite, cases_of};
use crate::texts::{append_all, bytes};
use percent_encoding::{AsciiSet, NON_ALPHANUMERIC, ascii_set, percent_encode};
use pmp_lint::Lint;
use pmp_text::{AnswerRow, append_line};
use serde_json::Value;
use std::alloc::{AllocError, Global};

/// The bytes of a path that a URI has as `%` and two digits: all but letters, digits, `/`, `.`, `-`, `_` and `~`.
pub const ESCAPED: AsciiSet = ascii_set!(
    NON_ALPHANUMERIC
        .remove(b'/')
        .remove(b'.')
        .remove(b'-')
        .remove(b'_')
        .remove(b'~')
);

#[tactic(auto, unfolding(crate::specs::Sarif::json_string))]
fn json_string(alloc: Global, text: &[u8]) -> Result<Vec<u8>, AllocError>
    ensures { IfOk result (λ all. all.items ≡ json_string text.now) }
{
    let value = Value::String(String::from_utf8_lossy(alloc, text)?);
    let text = value.to_string(alloc)?;
    bytes(alloc, text.as_bytes())
}

fn append_after_comma(out: &mut Vec<u8>, text: &[u8]) -> Result<(), AllocError>
    ensures { OnOk result (out.new.items ≡ out.old.items ++ after_comma text.now) }
{
    out.extend_from_slice(b",\n")?;
    Ok(out.extend_from_slice(text)?)
}

fn append_others(out: &mut Vec<u8>, texts: &[Vec<u8>]) -> Result<(), AllocError>
    ensures { OnOk result (out.new.items ≡ out.old.items ++ flat_map after_comma (text_items texts.now)) }
{
    for text in texts {
        append_after_comma(out, text)?;
    }
    Ok(())
}

/// Appends elements of an array, each on a line of its own.
fn append_elements(out: &mut Vec<u8>, texts: &[Vec<u8>]) -> Result<(), AllocError>
    ensures { OnOk result (out.new.items ≡ out.old.items ++ elements (text_items texts.now)) }
{
    match texts {
        [first, others @ ..] => {
            out.extend_from_slice(first)?;
            append_others(out, others)?;
            Ok(out.push(b'\n')?)
        }
        [] => Ok(()),
    }
}

fn rule_text(alloc: Global, id: &[u8], description: &[u8]) -> Result<Vec<u8>, AllocError>
    ensures { IfOk result (λ all. all.items ≡ rule_text id.now description.now) }
{
    let id = json_string(alloc, id)?;
    let description = json_string(alloc, description)?;
    let mut all = Vec::new(alloc);
    append_all(
        &mut all,
        &[
            b"{\"id\":",
            id.as_slice(),
            b",\"shortDescription\":{\"text\":",
            description.as_slice(),
            b"}}",
        ],
    )?;
    Ok(all)
}

fn lint_rule(alloc: Global, lint: Lint) -> Result<Vec<u8>, AllocError>
    ensures { IfOk result (λ all. all.items ≡ lint_rule lint) }
{
    rule_text(alloc, lint.name().as_bytes(), lint.remedy().as_bytes())
}

fn lint_rules(alloc: Global, lints: &[Lint]) -> Result<Vec<Vec<u8>>, AllocError>
    ensures { IfOk result (λ all. text_items all.items ≡ map lint_rule lints.now) }
{
    let mut all = Vec::new(alloc);
    for lint in lints {
        all.push(lint_rule(alloc, *lint)?)?;
    }
    Ok(all)
}

/// Returns the name of the rule of a policy's row.
fn row_name(alloc: Global, number: u64) -> Result<Vec<u8>, AllocError>
    ensures { IfOk result (λ all. all.items ≡ row_name number) }
{
    let mut all = Vec::new(alloc);
    append_line(&mut all, format_args!("policy/{number}"))?;
    Ok(all)
}

fn row_rule(alloc: Global, number: u64) -> Result<Vec<u8>, AllocError>
    ensures { IfOk result (λ all. all.items ≡ row_rule number) }
{
    let name = row_name(alloc, number)?;
    let mut description = Vec::new(alloc);
    append_line(
        &mut description,
        format_args!("Row {number} of the policy holds."),
    )?;
    rule_text(alloc, &name, &description)
}

/// Returns the greatest number of a row.
fn most_row(cases: &[Case]) -> u64
    ensures { result ≡ most_row (map case_said cases.now) }
{
    let mut most = 0;
    for case in cases {
        most = most.max(case.number.unwrap_or(0));
    }
    most
}

fn row_rules(alloc: Global, most: u64) -> Result<Vec<Vec<u8>>, AllocError>
    ensures { IfOk result (λ all. text_items all.items ≡ row_rules most) }
{
    let mut all = Vec::new(alloc);
    for index in 0..most {
        let rule = row_rule(alloc, index + 1)?;
        all.push(rule)?;
    }
    Ok(all)
}

fn rules_of(alloc: Global, check: Check, cases: &[Case]) -> Result<Vec<Vec<u8>>, AllocError>
    ensures { IfOk result (λ all. text_items all.items ≡ rules_of check (map case_said cases.now)) }
{
    match check {
        Check::Policy => row_rules(alloc, most_row(cases)),
        Check::Lint => lint_rules(alloc, &Lint::ALL),
    }
}

fn rule_name(alloc: Global, case: &Case) -> Result<Vec<u8>, AllocError>
    ensures { IfOk result (λ all. all.items ≡ rule_name (case_said case.now)) }
{
    match case.finding {
        Some(finding) => bytes(alloc, finding.name().as_bytes()),
        None => row_name(alloc, case.number.unwrap_or(0)),
    }
}

fn level(outcome: Outcome) -> &'static [u8]
    ensures { result.now ≡ level outcome }
{
    match outcome {
        Outcome::Failed => b"error",
        _ => b"warning",
    }
}

/// Appends what was found, before its remedy.
fn append_found(out: &mut Vec<u8>, finding: Option<Lint>) -> Result<(), AllocError>
    ensures { OnOk result (out.new.items ≡ out.old.items ++ found_text finding) }
{
    match finding {
        Some(finding) => append_all(out, &[finding.says().as_bytes(), b" "]),
        None => Ok(()),
    }
}

fn message(alloc: Global, case: &Case) -> Result<Vec<u8>, AllocError>
    ensures { IfOk result (λ all. all.items ≡ json_string (message (case_said case.now))) }
{
    let mut all = Vec::new(alloc);
    append_all(&mut all, &[case.title.as_slice(), b": "])?;
    append_found(&mut all, case.finding)?;
    all.extend_from_slice(&case.message)?;
    json_string(alloc, &all)
}

fn append_region(out: &mut Vec<u8>, line: Option<u64>) -> Result<(), AllocError>
    ensures { OnOk result (out.new.items ≡ out.old.items ++ region line) }
{
    match line {
        Some(line) => append_line(out, format_args!(",\"region\":{{\"startLine\":{line}}}")),
        None => Ok(()),
    }
}

/// Returns the place of a line of a file.
fn location(alloc: Global, path: &[u8], line: Option<u64>) -> Result<Vec<u8>, AllocError>
    ensures { IfOk result (λ all. all.items ≡ location path.now line) }
{
    let mut uri = String::new(alloc);
    percent_encode(path, ESCAPED).append_to(&mut uri)?;
    let uri = json_string(alloc, uri.as_bytes())?;
    let mut region = Vec::new(alloc);
    append_region(&mut region, line)?;
    let mut all = Vec::new(alloc);
    append_all(
        &mut all,
        &[
            b"{\"physicalLocation\":{\"artifactLocation\":{\"uri\":",
            uri.as_slice(),
            b"}",
            region.as_slice(),
            b"}}",
        ],
    )?;
    Ok(all)
}

/// Returns where a finding is, in its script.
fn finding_location(alloc: Global, case: &Case) -> Result<Vec<u8>, AllocError>
    ensures { IfOk result (λ all. all.items ≡ finding_location (case_said case.now)) }
{
    let at = location(alloc, &case.path, case.number)?;
    let mut all = Vec::new(alloc);
    append_all(&mut all, &[b",\"locations\":[", at.as_slice(), b"]"])?;
    Ok(all)
}

/// Returns where a policy's row is, and which script it is about.
fn row_location(alloc: Global, policy: &[u8], case: &Case) -> Result<Vec<u8>, AllocError>
    ensures { IfOk result (λ all. all.items ≡ row_location policy.now (case_said case.now)) }
{
    let at = location(alloc, policy, line_of(case.number))?;
    let script = location(alloc, &case.path, None)?;
    let mut all = Vec::new(alloc);
    append_all(
        &mut all,
        &[
            b",\"locations\":[",
            at.as_slice(),
            b"],\"relatedLocations\":[",
            script.as_slice(),
            b"]",
        ],
    )?;
    Ok(all)
}

/// Returns the line of a policy that has the row with this number, where each row is one line.
fn line_of(number: Option<u64>) -> Option<u64>
    ensures { result ≡ line_of number }
{
    match number {
        Some(number) => Some(number.saturating_add(1)),
        None => None,
    }
}

fn locations(alloc: Global, policy: &[u8], case: &Case) -> Result<Vec<u8>, AllocError>
    ensures { IfOk result (λ all. all.items ≡ locations policy.now (case_said case.now)) }
{
    match case.finding {
        Some(_) => finding_location(alloc, case),
        None => row_location(alloc, policy, case),
    }
}

fn result_text(alloc: Global, policy: &[u8], case: &Case) -> Result<Vec<u8>, AllocError>
    ensures { IfOk result (λ all. all.items ≡ result_text policy.now (case_said case.now)) }
{
    let name = rule_name(alloc, case)?;
    let rule = json_string(alloc, &name)?;
    let message = message(alloc, case)?;
    let locations = locations(alloc, policy, case)?;
    let mut all = Vec::new(alloc);
    append_all(
        &mut all,
        &[
            b"{\"ruleId\":",
            rule.as_slice(),
            b",\"level\":\"",
            level(case.outcome),
            b"\",\"message\":{\"text\":",
            message.as_slice(),
            b"}",
            locations.as_slice(),
            b"}",
        ],
    )?;
    Ok(all)
}

/// Adds the result of a case, if it has one.
fn add_result(
    alloc: Global,
    results: &mut Vec<Vec<u8>>,
    policy: &[u8],
    case: &Case,
) -> Result<(), AllocError>
    ensures { OnOk result
        (text_items results.new.items ≡ text_items results.old.items ++ results_of policy.now (case_said case.now)) }
{
    if matches!(case.outcome, Outcome::Passed) {
        return Ok(());
    }
    Ok(results.push(result_text(alloc, policy, case)?)?)
}

fn results_of(alloc: Global, policy: &[u8], cases: &[Case]) -> Result<Vec<Vec<u8>>, AllocError>
    ensures { IfOk result (λ all. text_items all.items ≡ flat_map (results_of policy.now) (map case_said cases.now)) }
{
    let mut results = Vec::new(alloc);
    for case in cases {
        add_result(alloc, &mut results, policy, case)?;
    }
    Ok(results)
}

fn append_log(out: &mut Vec<u8>, rules: &[Vec<u8>], results: &[Vec<u8>]) -> Result<(), AllocError>
    ensures { OnOk result
        (out.new.items ≡ out.old.items ++ log_text (text_items rules.now) (text_items results.now)) }
{
    append_all(
        out,
        &[
            b"{\n\"$schema\":\"https://json.schemastore.org/sarif-2.1.0.json\",\n\"version\":\"2.1.0\",\n",
            b"\"runs\":[{\n\"tool\":{\"driver\":{\"name\":\"pmp\",\"rules\":[\n",
        ],
    )?;
    append_elements(out, rules)?;
    out.extend_from_slice(b"]}},\n\"results\":[\n")?;
    append_elements(out, results)?;
    Ok(out.extend_from_slice(b"]\n}]\n}\n")?)
}

/// Appends rows of a policy or findings as a log of SARIF 2.1.0: the rules, and each result on a line of its own.
///
/// A finding has the level `error`, and so has a row that is broken, or unmet unless it waives that; then it has
/// `warning`. A row that holds is no result. A finding is at its line of the script, and a policy's row at its own, where
/// the policy has a row a line. The only error is that memory runs out; then a part may have been appended.
pub fn append_sarif(
    out: &mut Vec<u8>,
    suite: Suite<'_>,
    rows: &[AnswerRow],
) -> Result<(), AllocError>
    ensures { OnOk result (out.new.items ≡ out.old.items ++ sarif_text (suite_said suite.entry) rows.now) }
{
    let cases = cases_of(*out.allocator(), suite, rows)?;
    let rules = rules_of(*out.allocator(), suite.check, &cases)?;
    let results = results_of(*out.allocator(), suite.policy, &cases)?;
    append_log(out, &rules, &results)
}
