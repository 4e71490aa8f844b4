//! A long audit of a trace that is cut at every limit.

use pmp_audit::{AuditSummary, Jobs, Pieces, audit_long, audit_whole};
use pmp_text::{Fault, Place, Refusal, Source};
use std::thread::Threads;

/// One publication: entry 0 lets all modes read a page.
const SCRIPT: &[u8] = b"pmp 1\nwrite pmpaddr0 0x200001ff\nwrite pmpcfg0 0x19\npublish\n";

/// A trace with each form of line end, with blank lines, and without a line end after its last row.
const TRACE: &[u8] =
    b"\nafter,mode,kind,start,length\r\n0,U,load,0x80000000,4\n\n\r1,U,load,0x80000000,4\r\
    1,M,fetch,0,4\n1,\"S\",store,0x80000ffc,8";

/// The same, followed by a row that asks for fewer publications than the previous one.
const FALLING: &[u8] =
    b"\nafter,mode,kind,start,length\r\n0,U,load,0x80000000,4\n\n\r1,U,load,0x80000000,4\r\
    1,M,fetch,0,4\n1,\"S\",store,0x80000ffc,8\n0,U,load,0,4\n1,U,load,0,4\n";

/// A piece of this many bytes has room for the longest line, the header, and the line ends around it.
const ROOM: usize = 30;

/// The refusal of a line that is longer than a piece.
const LONG_LINE: Fault = Fault {
    refusal: Refusal::TooLong,
    place: Place::In {
        source: Source::Trace,
        number: 0,
        part: None,
    },
};

/// Returns the result and the report of an audit with pieces of at most `limit` bytes and `jobs` of them at a time.
fn audit_by_pieces<R: AllocGlobal + Threads + Sync>(
    rt: &R,
    jobs: usize,
    limit: usize,
    trace: &[u8],
) -> (Result<AuditSummary, Fault>, Vec<u8>) {
    let mut reader = trace;
    let alloc = rt.alloc();
    let mut report = Vec::new(alloc);
    let pieces = Pieces {
        jobs: Jobs {
            rt,
            alloc,
            count: jobs,
        },
        first: 1,
        limit,
    };
    let answer = audit_long(&pieces, SCRIPT, &mut reader, &mut report);
    (answer, report)
}

/// Whether these are whole rows of that report, from its first one on.
fn are_rows_of(rows: &[u8], report: &[u8]) -> bool {
    report.starts_with(rows) && (rows.is_empty() || rows.ends_with(b"\n"))
}

/// Wherever pieces end, and with any number of jobs, the audit answers like an audit of the whole trace, unless the
/// pieces are too short for a line: then whole rows of that answer were written.
#[test]
fn cuts_show_nowhere(rt: HostRuntime) {
    let mut whole = Vec::new(rt.alloc());
    let wanted = audit_whole(rt.alloc(), SCRIPT, TRACE, &mut whole);
    for limit in 1..TRACE.len() + 3 {
        for jobs in [1, 3] {
            let (answer, report) = audit_by_pieces(&rt, jobs, limit, TRACE);
            if limit < ROOM && answer == Err(LONG_LINE) {
                assert!(rt; are_rows_of(&report, &whole));
            } else {
                assert!(rt; answer == wanted && report == whole);
            }
        }
    }
}

/// A row that asks for fewer publications than the previous row is refused wherever pieces end, after rows of the
/// answer to the trace without it.
#[test]
fn order_goes_over_cuts(rt: HostRuntime) {
    let order = Refusal::Order.part(0).at_row(Source::Trace, 5);
    let mut whole = Vec::new(rt.alloc());
    let sound = audit_whole(rt.alloc(), SCRIPT, TRACE, &mut whole);
    assert!(rt; sound.is_ok());
    for limit in ROOM..FALLING.len() + 3 {
        for jobs in [1, 3] {
            let (answer, report) = audit_by_pieces(&rt, jobs, limit, FALLING);
            assert!(rt; answer == Err(order));
            assert!(rt; are_rows_of(&report, &whole));
        }
    }
}
