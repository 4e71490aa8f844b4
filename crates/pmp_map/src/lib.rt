//! The interval map of a PMP register file: the runs of bytes that one entry owns, and decisions by them.
//!
//! `Tables` is the map in plain numbers: where each run begins, and its answers. `RunMap` is the map of a register
//! file, which a contract sees. The definitions that the contracts cite are in `specs/` and in those of `pmp_core`.
//!
//! An answer is a number: `i` for the rule of entry `i`, 256 + `i` for a split by entry `i`, 512 if no entry
//! matches, and 1,024 times the exception code of a refusal.
#![tactic(auto)]

mod answer;
mod around;
mod byte_lock;
mod compared;
mod compared_run;
mod cuts;
mod hold;
pub mod laws;
mod mode_rights;
mod painting;
mod range_rights;
mod request;
mod row;
mod run;
mod run_map;
mod search;
mod tables;

pub use answer::{NO_CAUSE, answer_number, cause_number, no_access};
pub use around::{owned_run, run_around};
pub use byte_lock::ByteLock;
pub use compared::{Aspect, Compared};
pub use compared_run::{ComparedRun, compared_run_from};
pub use hold::is_held;
pub use mode_rights::{ModeRights, whole_cause};
pub use range_rights::rights_in;
pub use request::{access_of, kind_of, mode_of};
pub use run::{RUNS, Run};
pub use run_map::RunMap;
pub use tables::Tables;
