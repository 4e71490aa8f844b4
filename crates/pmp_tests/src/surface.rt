//! Every call, type, match and field of the libraries for harts of RV64 with 16 or 64 entries, as a caller writes them,
//! and what they answer on one script. A signature, a variant or a field that drifts is a test that doesn't compile.
//!
//! One match isn't whole: `Csr` has `Mseccfgh` too, of RV32.

mod audits;
mod shared_unit;
mod texts;
mod unit;

use pmp_core::{Access, AccessFault, Kind, Mode};
use pmp_text::{ScriptKind, TraceKind};

/// Two publications: entry 0 makes a page readable, then entry 1 does instead.
const SCRIPT: &[u8] = b"pmp 1\nwrite pmpaddr0 0x200001ff\nwrite pmpcfg0 0x19\npublish\n\
    write pmpcfg0 0x1900\nwrite pmpaddr1 0x200001ff\npublish\n";

const TRACE: &[u8] = b"after,mode,kind,start,length\n0,U,load,0x80000000,4\n1,U,load,0x80000000,4\n\
    1,U,store,0x80000000,4\n2,U,load,0x80000000,4\n";

const REPORT: &[u8] = b"1,fault,5,none,\n2,allow,,rule,0\n3,fault,7,rule,0\n4,allow,,rule,1\n";

/// Returns the number that users see.
fn number_of_script(kind: ScriptKind) -> u8 {
    match kind {
        ScriptKind::BadVersion => 10,
        ScriptKind::BadLine => 11,
        ScriptKind::BadName => 12,
        ScriptKind::OddCfg => 13,
        ScriptKind::BadNumber => 14,
        ScriptKind::BatchFull => 15,
        ScriptKind::Unpublished => 16,
        ScriptKind::TooLong => 17,
        ScriptKind::Memory => 40,
    }
}

fn number_of_trace(kind: TraceKind) -> u8 {
    match kind {
        TraceKind::BadLength => 3,
        TraceKind::PastEnd => 4,
        TraceKind::TooLong => 17,
        TraceKind::BadHeader => 20,
        TraceKind::BadRow => 21,
        TraceKind::BadAfter => 22,
        TraceKind::Order => 23,
        TraceKind::Memory => 40,
        TraceKind::Input => 41,
    }
}

/// Returns the access of all rows of the trace but one.
fn page_load() -> Result<Access, AccessFault> {
    Access::new(Mode::U, Kind::Load, 0x80000000, 4)
}
