//! The rows of commands in the forms in which they are written: CSV, JSON, Markdown, JUnit's XML and SARIF.
#![tactic(auto)]

mod cases;
mod cells;
mod csv;
mod json;
mod junit;
mod markdown;
mod sarif;
mod table;
mod texts;

pub use cases::{Check, Suite};
pub use csv::append_csv;
pub use json::append_json;
pub use junit::append_junit;
pub use markdown::append_markdown;
pub use sarif::append_sarif;
pub use table::Table;
