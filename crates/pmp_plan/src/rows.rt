//! The bytes that the rows of a plan name.

ghost use Rattle.std.specs.Prelude.{◌≡◌, ◌<◌, ◌≤◌, ℕ, MatchOption, false, true};
ghost use Rattle.pmp_core.specs.declared.access.TheConstants.{ADDRESS_LIMIT};
ghost use Rattle.pmp_plan.specs.Plans.{is_in, is_named};

use crate::plan_row::PlanRow;
use pmp_core::ADDRESS_LIMIT;

/// Returns the first row that has the byte, if there is one.
pub fn row_at<'a>(rows: &[PlanRow<'a>], byte: u64) -> Option<PlanRow<'a>>
    ensures { MatchOption result (is_named rows.now byte ≡ false) (λ row. (is_in byte row ≡ true)
        × ((other : ℕ) → is_in other row ≡ true → is_named rows.now other ≡ true)) }
{
    for row in rows {
        if row.has(byte) {
            return Some(*row);
        }
    }
    None
}

/// Returns the last of the contiguous bytes from this one on that no row has.
pub fn unnamed_to(rows: &[PlanRow<'_>], byte: u64) -> u64
    requires inside { byte < ADDRESS_LIMIT }
    requires unnamed { is_named rows.now byte ≡ false }
    ensures proper { byte ≤ result }
    ensures inside { result < ADDRESS_LIMIT }
    ensures unnamed { (other : ℕ) → byte ≤ other → other ≤ result → is_named rows.now other ≡ false }
{
    let mut last = ADDRESS_LIMIT - 1;
    for row in rows {
        if byte < row.first {
            last = last.min(row.first - 1);
        }
    }
    last
}
