//! Captures of real harts as scripts: QEMU's trace, registers as shown by debuggers, and Spike's commit log.
#![tactic(auto)]

mod debuggers;
mod fault;
mod format;
mod given;
mod importer;
pub mod laws;
mod lines;
mod log_text;
mod options;
mod qemu;
mod said;
mod spike;
mod survey;
mod whole_log;

pub use format::Format;
pub use given::Given;
pub use log_text::append_import;
pub use options::Options;
pub use survey::Survey;
pub use whole_log::{MOST_LINES, import, survey_log};
