//! Traces: the accesses that a text lists, and why a text, of these or of a policy, lists none.

mod numbered;
mod plain;
mod reader;
mod records;
mod row_fields;
mod rows;

pub use numbered::{Row, TraceFault, TraceKind, read_trace};
pub(crate) use plain::is_apart;
use pmp_core::Access;
pub use reader::{MAX_TRACE, read_trace_by};
pub use records::Records;
pub use rows::{Position, RowReader};

/// An access, and how many publications of the script are done before it.
#[derive(Clone, Copy, PartialEq, Eq)]
pub struct TraceRow {
    pub after: u64,
    pub access: Access,
    /// Whether the start is 14 digits without `0x`: a decimal number, though rows write hexadecimal.
    pub is_bare: bool,
}
