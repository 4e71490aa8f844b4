//! Reading a policy: its rows, or its first fault.

ghost use Rattle.std.specs.Prelude.{◌≡◌, ◌≤◌, [], All, IfOk, if◌then◌else◌, map};
ghost use Rattle.pmp_text.specs.Labels.{label_in, labels_behind, labels_said, policy_labels, rows_said};
ghost use Rattle.pmp_text.specs.Outcomes.{Gives};
ghost use Rattle.pmp_text.specs.Policies.{is_labeled, is_policy_header, policy_meaning, policy_rows_meaning};
ghost use Rattle.pmp_text.specs.Tables.{behind_header};
ghost use Rattle.pmp_text.specs.declared.fault.Source.TheVariants as source;

use crate::fault::{Fault, Source};
use crate::moments::Moments;
use crate::policy::row_fields::{is_labeled_header, is_plain_header, read_policy_row};
use crate::policy::{Label, Policy};
use crate::refusal::Refusal;
use crate::trace::{MAX_TRACE, Records};
use std::alloc::Global;

/// Reads the rows after the header, perhaps with names and comments.
fn read_rows(
    alloc: Global,
    records: &mut Records<'_>,
    labeled: bool,
    moments: &Moments<'_>,
) -> Result<Policy, Fault>
    ensures given { Gives rows_said result (policy_rows_meaning labeled moments.now records.old.left) }
    ensures within { IfOk result (λ policy. All (λ row. row.to ≤ moments.now.publications) policy.rows.items) }
    ensures labels { IfOk result (λ policy.
        labels_said policy ≡ (if labeled then map label_in records.old.left else [])) }
{
    let mut rows = Vec::new(alloc);
    let mut labels = Vec::new(alloc);
    while records.read()? {
        match read_policy_row(labeled, records.fields(), moments) {
            Ok(row) => rows.push(row)?,
            Err(flaw) => return Err(flaw.at_row(Source::Policy, rows.len() as u64 + 1)),
        }
        if labeled {
            labels.push(Label::read(alloc, records.fields())?)?;
        }
    }
    Ok(Policy { rows, labels })
}

/// Reads the header, and the rows after it.
fn read_records(
    alloc: Global,
    records: &mut Records<'_>,
    moments: &Moments<'_>,
) -> Result<Policy, Fault>
    ensures given { Gives rows_said result
        (behind_header source.Policy is_policy_header (policy_rows_meaning (is_labeled records.old.left) moments.now)
        records.old.left) }
    ensures within { IfOk result (λ policy. All (λ row. row.to ≤ moments.now.publications) policy.rows.items) }
    ensures labels { IfOk result (λ policy. labels_said policy ≡ labels_behind records.old.left) }
{
    if !records.read()? {
        return Err(Refusal::BadHeader.whole().at_row(Source::Policy, 0));
    }
    let labeled = is_labeled_header(records.fields());
    if !labeled && !is_plain_header(records.fields()) {
        return Err(Refusal::BadHeader.whole().at_row(Source::Policy, 0));
    }
    read_rows(alloc, records, labeled, moments)
}

/// Returns the policy that a text describes, for a script with these moments, else its first fault. The time is linear
/// in the text, and only the rows and one record take memory: if they can't grow, `Memory` is returned instead of any
/// later fault.
pub fn read_policy(alloc: Global, text: &[u8], moments: &Moments<'_>) -> Result<Policy, Fault>
    ensures given { Gives rows_said result (policy_meaning moments.now text.now) }
    ensures within { IfOk result (λ policy. All (λ row. row.to ≤ moments.now.publications) policy.rows.items) }
    ensures labels { IfOk result (λ policy. labels_said policy ≡ policy_labels text.now) }
{
    if text.len() > MAX_TRACE {
        return Err(Refusal::TooLong.whole().at_row(Source::Policy, 0));
    }
    read_records(alloc, &mut Records::open(alloc, text), moments)
}
