//! What is wrong with the rows of a plan themselves.

ghost use Rattle.std.specs.Prelude.{◌≡◌, All, IfErr, IsTrue, MatchOption, OnOk, false};
ghost use Rattle.std.specs.List.{AllPairs};
ghost use Rattle.pmp_plan.specs.declared.security.Security.{Security};
ghost use Rattle.pmp_plan.specs.PlanFaults.{AreApart, AreOverlapping, HaveCommonByte, IsFit, Refuses, is_inside};
ghost use Rattle.pmp_plan.specs.PlanFaults.{IsUnfit};

use crate::fault::{in_row, two_rows};
use crate::plan_row::PlanRow;
use pmp_core::Hart;
use pmp_text::{Fault, Flaw, Refusal};

/// Whether two rows have no byte in common.
fn are_apart(one: &PlanRow<'_>, other: &PlanRow<'_>) -> bool
    ensures yes { IsTrue result → AreApart one.now other.now }
    ensures no { result ≡ false → HaveCommonByte one.now other.now }
{
    one.last < other.first || other.last < one.first
}

/// Returns the first two rows that have a byte in common.
pub fn overlap(rows: &[PlanRow<'_>]) -> Option<(usize, usize)>
    ensures { MatchOption result (AllPairs AreApart rows.now) (λ pair. AreOverlapping rows.now pair.0 pair.1) }
{
    for row in 0..rows.len() {
        for other in row + 1..rows.len() {
            if !are_apart(&rows[row], &rows[other]) {
                return Some((row, other));
            }
        }
    }
    None
}

/// Whether a byte address is inside a grain, and not at its beginning.
fn is_inside(hart: Hart, byte: u64) -> bool
    ensures { result ≡ is_inside hart byte }
{
    let bits = hart.grain() + 2;
    byte >> bits << bits != byte
}

/// Returns what is wrong with a row by itself.
fn flaw_of(hart: Hart, row: &PlanRow<'_>) -> Option<Flaw>
    ensures { MatchOption result (IsFit hart row.now) (IsUnfit hart row.now) }
{
    if is_inside(hart, row.first) {
        return Some(Refusal::TooFine.part(0));
    }
    if is_inside(hart, row.last + 1) {
        return Some(Refusal::TooFine.part(1));
    }
    if row.last / 4 >= hart.word_addresses() {
        return Some(Refusal::PastEnd.whole());
    }
    None
}

/// Checks that the rows are those of a plan for the hart: no two have a byte in common, and each begins and ends at
/// grain boundaries, below the end of its addresses.
#[tactic(auto, using(std::proofs::lemmas::List::take_all))]
pub fn check_rows(hart: Hart, rows: &[PlanRow<'_>]) -> Result<(), Fault>
    ensures apart { OnOk result (AllPairs AreApart rows.now) }
    ensures fit { OnOk result (All (IsFit hart) rows.now) }
    ensures err { (security : Security) → IfErr result (Refuses hart security rows.now) }
{
    if let Some((row, other)) = overlap(rows) {
        return Err(two_rows(row, other));
    }
    for (index, row) in rows.iter().enumerate() {
        if let Some(flaw) = flaw_of(hart, row) {
            return Err(in_row(index, flaw));
        }
    }
    Ok(())
}
