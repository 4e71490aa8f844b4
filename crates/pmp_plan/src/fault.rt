//! The faults of plans.

ghost use Rattle.std.specs.Prelude.{◌≡◌};
ghost use Rattle.pmp_names.specs.AddressNames.{next_row};
ghost use Rattle.pmp_plan.specs.PlanFaults.{in_row, too_few, two_rows};

use pmp_text::{Fault, Flaw, Place, Refusal, Source};

/// Returns the number of the row with this index, from 1.
fn number(index: usize) -> u64
    ensures { result ≡ next_row index }
{
    (index as u64).saturating_add(1)
}

/// Returns the fault of the row with this index.
pub fn in_row(index: usize, flaw: Flaw) -> Fault
    ensures { result ≡ in_row index flaw }
{
    flaw.at_row(Source::Plan, number(index))
}

/// Returns the fault of the rows with these indexes, which have a byte in common.
pub fn two_rows(one: usize, other: usize) -> Fault
    ensures { result ≡ two_rows one other }
{
    Fault {
        refusal: Refusal::Overlap,
        place: Place::PlanRows(number(one), number(other)),
    }
}

/// Returns the fault of a plan for which this number of entries was found, more than the hart has; the row with this
/// index takes the most of them, unless it takes none.
pub fn too_few(found: usize, index: usize, takes: usize) -> Fault
    ensures { result ≡ too_few found index takes }
{
    if takes == 0 {
        return Fault::from(Refusal::FewEntries);
    }
    Fault {
        refusal: Refusal::FewEntries,
        place: Place::PlanEntries {
            row: number(index),
            takes: takes as u64,
            found: found as u64,
        },
    }
}
