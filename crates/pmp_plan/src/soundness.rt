//! The test whether a plan is sound, before entries are sought.

ghost use Rattle.std.specs.Prelude.{◌≡◌, All, IfErr, MatchOption, OnOk, Some, slice_get};
ghost use Rattle.pmp_plan.specs.PlanFaults.{IsSound, Refuses};
ghost use Rattle.pmp_plan.specs.PlanRules.{HasRule};
ghost use Rattle.pmp_plan.specs.declared.plan_row.PlanRow.{PlanRow};

use crate::choices::has_rule;
use crate::fault::in_row;
use crate::plan_row::PlanRow;
use crate::row_faults::check_rows;
use crate::security::Security;
use pmp_core::Hart;
use pmp_text::{Fault, Refusal};

/// Returns the first row whose rights no rule, or no rule that can be held, gives.
fn unruled(security: Security, rows: &[PlanRow<'_>]) -> Option<usize>
    ensures { MatchOption result (All (λ (row : PlanRow). HasRule security row.demand) rows.now)
        (λ index. (row : PlanRow) × (slice_get rows.now index ≡ Some row) × ¬ (HasRule security row.demand)) }
{
    for (index, row) in rows.iter().enumerate() {
        if !has_rule(security, row.demand) {
            return Some(index);
        }
    }
    None
}

/// Checks a plan by itself.
#[tactic(auto, using(crate::specs::PlanFaults::not_held))]
pub fn check_plan(hart: Hart, security: Security, rows: &[PlanRow<'_>]) -> Result<(), Fault>
    ensures ok { OnOk result (IsSound hart security rows.now) }
    ensures err { IfErr result (Refuses hart security rows.now) }
{
    check_rows(hart, rows)?;
    if security != Security::NONE && !hart.has_smepmp() {
        return Err(Fault::from(Refusal::NotHeld));
    }
    match unruled(security, rows) {
        Some(index) => Err(in_row(index, Refusal::BadPair.whole())),
        None => Ok(()),
    }
}
