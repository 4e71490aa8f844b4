//! The laws of scripts, traces and policies, each the contract of a function that does nothing.

ghost use Rattle.pmp_text.specs.Faults.{FirstFaultLaw, LeastFaultLaw};
ghost use Rattle.pmp_text.specs.Names.{NamesReadBackLaw};
ghost use Rattle.pmp_text.specs.PolicyFaults.{FirstPolicyFaultLaw, LeastPolicyFaultLaw};
ghost use Rattle.pmp_text.specs.Sizes.{EventLinesLaw, ScriptSizeLaw};
ghost use Rattle.pmp_text.specs.TraceFaults.{FirstRowFaultLaw, LeastRowFaultLaw, RowOrderLaw};
ghost use Rattle.pmp_text.specs.Versions.{LegalStartLaw, NoHeadLaw, VersionOneLaw, VersionTwoLaw};

use pmp_core::laws::law_sizes;

/// The fault of a script's lines is that of the first faulty line: a significant line has it, and no significant line
/// before it has any.
pub fn law_least_fault()
    ensures first { FirstFaultLaw }
    ensures answered { LeastFaultLaw }
{}

/// A script has no more events, and no more publications, than their limit.
pub fn law_script_size()
    ensures { ScriptSizeLaw }
{}

/// Each publication of a script has as many lines as events.
#[tactic(auto, using(crate::proofs::EventLines::event_lines))]
pub fn law_event_lines()
    ensures { EventLinesLaw }
{}

/// The fault of a trace's rows is that of the first faulty row: a row has it, and no row before it has any.
pub fn law_least_row_fault()
    ensures first { FirstRowFaultLaw }
    ensures answered { LeastRowFaultLaw }
{}

/// The rows of a trace without a fault ask for no more publications than there are, and never for fewer than the
/// previous row.
#[tactic(auto, using(crate::proofs::LeastRows::trace_in_order))]
pub fn law_rows_in_order()
    ensures { RowOrderLaw }
{}

/// The fault of a policy's rows is that of the first faulty row: a row has it, and no row before it has any.
pub fn law_least_policy_fault()
    ensures first { FirstPolicyFaultLaw }
    ensures answered { LeastPolicyFaultLaw }
{}

/// A register's name as dumps write it reads back as that register.
#[tactic(auto, using(crate::proofs::RegisterNames::read_back))]
pub fn law_names_read_back()
    ensures { NamesReadBackLaw }
{}

/// A script of version 1 means what it would mean if there were no other version: the same fault, or else the same
/// publications, in a unit of sixteen entries, and with every trace the same report.
#[tactic(auto, using(crate::proofs::Versions::version_one))]
pub fn law_version_one()
    ensures { VersionOneLaw }
{}

/// A script of version 1 without a fault that writes no register of entries above the sixteenth may just as well
/// declare version 2: it has the same publications, and with every trace the same report.
pub fn law_version_two()
    ensures { VersionTwoLaw }
{
    law_sizes();
}

/// A script of version 1 or 2 begins with the reset of the unit of its size, and expects nothing.
pub fn law_no_head()
    ensures { NoHeadLaw }
{}

/// A script's unit begins with a register file that its hart can have.
pub fn law_legal_start()
    ensures { LegalStartLaw }
{}
