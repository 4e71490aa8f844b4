//! The laws of runs, each the contract of a function that does nothing.

ghost use Rattle.std.specs.Prelude.{◌≡◌, ◌+◌, ◌*◌, ◌≤◌, List, length};
ghost use Rattle.pmp_core.specs.RegisterFile.{HasAddresses, RegisterFile};
ghost use Rattle.pmp_map.specs.declared.run.Run.{Run};
ghost use Rattle.pmp_map.specs.declared.compared.Aspect.{Aspect};
ghost use Rattle.pmp_map.specs.declared.compared_run.ComparedRun.{ComparedRun};
ghost use Rattle.pmp_map.specs.ComparedRuns.{AreComparedRuns};
ghost use Rattle.pmp_map.specs.Runs.{AreRuns};
ghost use Rattle.pmp_map.specs.RunsLaw.{InsideRunLaw, AcrossRunsLaw};
ghost use Rattle.pmp_map.specs.OpenBytesLaw.{HeldByteLaw, OneAnswerLaw, OpenByteLaw};
ghost use Rattle.pmp_map.specs.AnswerLaw.{AnswerLaw, NoAccessLaw, NoAccessFaultLaw, ReadingLaw};

use pmp_core::laws::{law_matching_entry, law_protected};

/// Entries have exactly one list of runs.
pub fn law_one_list_of_runs()
    ensures { (file : RegisterFile) (one other : List Run) → AreRuns file one → AreRuns file other
        → one ≡ other }
{}

/// Each entry adds at most two cuts, so there is at most one more run than twice the number of entries.
#[tactic(auto, using(crate::proofs::Entries::few_runs_of_entries))]
pub fn law_few_runs()
    ensures { (file : RegisterFile) (runs : List Run) → HasAddresses file → AreRuns file runs
        → length runs ≤ 2 * length file.entries + 1 }
{}

/// An access inside one run is decided by the rule of the run's owner, or, without an owner, as if no entry matches.
pub fn law_inside_run()
    ensures { InsideRunLaw }
{}

/// An access from one run into a later one is refused, as a partial match of the lowest owner of all runs it touches.
#[tactic(auto, using(crate::proofs::DecidedRuns::across_runs))]
pub fn law_across_runs()
    ensures { AcrossRunsLaw }
{}

/// Two register files have exactly one list of longest ranges of bytes that each of them treats alike.
pub fn law_one_list_of_compared_runs()
    ensures { (aspect : Aspect) (old new : RegisterFile) (one other : List ComparedRun)
        → AreComparedRuns aspect old new one → AreComparedRuns aspect old new other → one ≡ other }
{}

/// A byte is open to what its owner's rule allows, or the default if it has no owner, and to nothing else.
pub fn law_open_byte()
    ensures answered { OpenByteLaw }
    ensures once { OneAnswerLaw }
{}

/// A held byte that is closed to a mode and a kind stays closed to them through every list of writes. Its owner and all
/// entries before it are frozen, or no entry matches it and all entries are frozen.
pub fn law_held_byte()
    ensures { HeldByteLaw }
{
    law_matching_entry();
    law_protected();
}

/// Different decisions on one access have different numbers, none of which is that of no access, a fault with the code
/// of its kind. A number is below 1,024 exactly if the access is allowed; divided by 1,024 it gives the code of the
/// fault, and the remainder is what decided.
#[tactic(auto, using(crate::proofs::Numbering::answer_laws))]
pub fn law_answers()
    ensures different { AnswerLaw }
    ensures access { NoAccessLaw }
    ensures fault { NoAccessFaultLaw }
    ensures reading { ReadingLaw }
{}
