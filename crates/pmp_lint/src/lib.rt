//! The remarks of an experienced reader about a script, and the reasons why an access is decided as it is.
#![tactic(auto)]

mod accepted;
mod answer_run;
mod because;
mod because_row;
mod decider;
mod end_state;
mod entry_numbers;
mod finding;
mod late_writes;
pub mod laws;
mod lint;
mod mseccfg_bits;
mod open_between;
mod report;
mod stretch;
mod subject;
mod told;
mod trail;
mod write_and_execute;

pub use accepted::{NameAt, is_accepted};
pub use answer_run::{AnswerRun, add_history};
pub use because::{Because, why};
pub use because_row::add_why;
pub use decider::{Decider, RuleBits};
pub use finding::Finding;
pub use lint::Lint;
pub use report::add_lint;
