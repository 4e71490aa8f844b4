//! The laws of findings, each the contract of a function that does nothing.

ghost use Rattle.pmp_lint.specs.EndStateLaw.{OwnsNothingLaw};
ghost use Rattle.pmp_lint.specs.Report.{OneListOfFindingsLaw};

/// A script has exactly one list of findings, in one order.
pub fn law_one_list_of_findings()
    ensures { OneListOfFindingsLaw }
{}

/// An entry owns no byte exactly if none of the runs of all bytes is the entry's.
pub fn law_owns_nothing()
    ensures { OwnsNothingLaw }
{}
