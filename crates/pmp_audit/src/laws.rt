//! The laws of reports and entry lists, each the contract of a function that does nothing.

ghost use Rattle.pmp_audit.specs.Laws.{DraftHoldsLaw, OneDifferenceLaw, OneDraftLaw, OneEntryListLaw};
ghost use Rattle.pmp_audit.specs.Laws.{OneListOfDecisionsLaw, OnePolicyAnswerLaw, OneReportLaw, SinceLaw};

use pmp_core::laws::{law_one_decision, law_one_span, law_protected};
use pmp_map::laws::law_one_list_of_compared_runs;

/// Rows have one list of decisions that are each the manual's, no matter how they are computed.
#[tactic(auto, using(crate::proofs::OneReport::one_list_of_decisions))]
pub fn law_one_list_of_decisions()
    ensures { OneListOfDecisionsLaw }
{
    law_one_decision();
}

/// A script and a trace have exactly one report and one summary.
pub fn law_one_report()
    ensures { OneReportLaw }
{
    law_one_list_of_decisions();
}

/// A script and a policy have exactly one answer and one summary.
pub fn law_one_policy_answer()
    ensures { OnePolicyAnswerLaw }
{}

/// A script has exactly one draft of a policy.
pub fn law_one_draft()
    ensures { OneDraftLaw }
{}

/// A script breaks no row of its draft of a policy.
pub fn law_draft_holds()
    ensures { DraftHoldsLaw }
{}

/// Two scripts have exactly one list of differences.
pub fn law_one_difference()
    ensures { OneDifferenceLaw }
{
    law_one_list_of_compared_runs();
}

/// If an entry is frozen, it has been so, with its configuration and its bytes, ever since the publication in SINCE;
/// and if it is held, what it and the entries before it decide has been protected since HOLDS.
pub fn law_since()
    ensures { SinceLaw }
{
    law_protected();
}

/// A script has exactly one entry list after each number of publications.
pub fn law_one_entry_list()
    ensures { OneEntryListLaw }
{
    law_one_span();
}
