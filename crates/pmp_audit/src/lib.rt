//! The answers: accesses decided after a script's publications, the resulting registers, and the effect of each write.
#![tactic(auto)]

mod accepted_reason;
mod access_check;
mod answer;
mod asked_count;
mod audited_rows;
mod expectations;
mod fault;
mod gate;
pub mod laws;
mod long_audit;
mod moments;
mod piece;
mod policy_check;
mod policy_draft;
mod reasons;
mod replay;
mod report;
mod script_diff;
mod shared_audit;
mod since;
mod sized;
mod standing;
mod trace_audit;
mod view;
mod write_list;

pub use accepted_reason::are_reasons;
pub use access_check::add_check;
pub use audited_rows::add_audit;
pub use gate::{Gate, OpenGate};
pub use long_audit::{Jobs, PIECE, Pieces, audit_long};
pub use policy_check::{
    AskedPolicy, AskedVerdicts, Breaches, Pace, PolicySummary, add_policy, append_verdict,
};
pub use policy_draft::append_policy_from;
pub use reasons::{add_findings, add_reasons};
pub use script_diff::{AskedChanges, Moment, add_diff};
pub use shared_audit::{Crew, audit_by_workers};
pub use sized::{AuditFault, Summary, audit, audit_shared, check, dump, map_of};
pub use trace_audit::{AuditSummary, audit_whole};
pub use view::{AskedView, Listing, View, add_listing, append_view};
pub use write_list::{WriteSummary, add_writes};
