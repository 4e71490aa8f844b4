//! The storage of a plan's rows.

ghost use Rattle.std.specs.Prelude.{◌≡◌, ◌++◌, ◌∷◌, [], List, OnOk};
ghost use Rattle.pmp_plan.specs.declared.plan_row.PlanRow.{PlanRow};

use crate::plan_row::PlanRow;
use arrayvec::ArrayVec;
use std::alloc::AllocError;

/// The storage of a plan's rows: a vector that grows, or an array that may become full.
pub trait RowList<'a> {
    ghost kept: { Self → List PlanRow };

    /// Discards all rows.
    fn clear(&mut self)
        ensures { kept self.new ≡ [] };

    /// Appends a row.
    fn push(&mut self, row: PlanRow<'a>) -> Result<(), AllocError>
        ensures { OnOk result (kept self.new ≡ kept self.old ++ row.entry ∷ []) };

    /// Returns all rows.
    fn rows(&self) -> &[PlanRow<'a>]
        ensures { result.now ≡ kept self.now };
}

impl<'a> RowList<'a> for Vec<PlanRow<'a>> {
    ghost kept = { λ rows. rows.items };

    fn clear(&mut self) {
        self.clear();
    }

    fn push(&mut self, row: PlanRow<'a>) -> Result<(), AllocError> {
        self.push(row).map_err(|_| AllocError)
    }

    fn rows(&self) -> &[PlanRow<'a>] {
        self.as_slice()
    }
}

impl<'a, const N: usize> RowList<'a> for ArrayVec<PlanRow<'a>, N> {
    ghost kept = { λ rows. rows.items };

    fn clear(&mut self) {
        self.clear();
    }

    fn push(&mut self, row: PlanRow<'a>) -> Result<(), AllocError> {
        self.try_push(row).map_err(|_| AllocError)
    }

    fn rows(&self) -> &[PlanRow<'a>] {
        self.as_slice()
    }
}
