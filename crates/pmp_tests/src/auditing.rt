//! An audit by several workers that pass a gate.

use pmp_audit::{AuditSummary, Crew, Gate, audit_by_workers};
use pmp_text::Fault;
use std::alloc::{AllocError, Global};
use std::sync::Wait;
use std::sync::atomic::{AtomicBool, AtomicU64, Ordering};
use std::thread::Threads;

/// Two publications: entry 0 makes a page readable, then entry 1 does instead.
const SCRIPT: &[u8] = b"pmp 1\nwrite pmpaddr0 0x200001ff\nwrite pmpcfg0 0x19\npublish\n\
    write pmpcfg0 0x1900\nwrite pmpaddr1 0x200001ff\npublish\n";

/// How long a worker waits for the others: far longer than they take on a busy machine.
const TURNS: u32 = 1_000_000_000;

const WORKERS: u64 = 8;

/// The rows before this one ask for no publication, and all from it on for two: the workers start anew with it.
const SECOND: u64 = 12;

/// The number of rows.
const ROWS: u64 = 31;

/// A gate that checks each row that passes, and holds the worker until a row of each worker has passed.
#[derive(Drop)]
struct Meeting {
    calls: AtomicU64,
    /// A bit for each row.
    rows: AtomicU64,
    /// Of each worker, the last row that it passed.
    last: [AtomicU64; 8],
    is_wrong: AtomicBool,
    missed: AtomicBool,
}

impl Meeting {
    fn new() -> Meeting {
        Meeting {
            calls: zero(),
            rows: zero(),
            last: zeros(),
            is_wrong: AtomicBool::new(false),
            missed: AtomicBool::new(false),
        }
    }

    /// Whether it is the worker's turn, the row is new, and it is above the worker's last one.
    fn is_next(&self, worker: u8, row: u64) -> bool {
        let first = if row < SECOND { 1 } else { SECOND };
        let bit = 1 << (row % 64);
        let is_turn = u64::from(worker) == row.wrapping_sub(first) % WORKERS;
        let is_new = self.rows.fetch_or(bit, Ordering::SeqCst) & bit == 0;
        let place = usize::from(worker % 8);
        is_turn && is_new && self.last[place].swap(row, Ordering::SeqCst) < row
    }

    fn wait(&self) {
        for _ in 0..TURNS {
            if self.calls.load(Ordering::SeqCst) >= WORKERS || self.missed.load(Ordering::SeqCst) {
                return;
            }
        }
        self.missed.store(true, Ordering::SeqCst);
    }
}

impl Gate for Meeting {
    fn pass(&self, worker: u8, row: u64) {
        if !self.is_next(worker, row) {
            self.is_wrong.store(true, Ordering::SeqCst);
        }
        self.calls.fetch_add(1, Ordering::SeqCst);
        self.wait();
    }
}

fn zero() -> AtomicU64 {
    AtomicU64::new(0)
}

fn zeros() -> [AtomicU64; 8] {
    [
        zero(),
        zero(),
        zero(),
        zero(),
        zero(),
        zero(),
        zero(),
        zero(),
    ]
}

/// Returns the given number of rows, the first of which ask for no publication, and the others for two.
fn trace_of(alloc: Global, first: u64, rows: u64) -> Result<Vec<u8>, AllocError> {
    let mut trace = Vec::new(alloc);
    trace.extend_from_slice(b"after,mode,kind,start,length\n".as_slice())?;
    for row in 0..rows {
        let text = if row < first {
            b"0,U,load,0x80000000,4\n".as_slice()
        } else {
            b"2,U,load,0x80000000,4\n".as_slice()
        };
        trace.extend_from_slice(text)?;
    }
    Ok(trace)
}

/// Audits the rows by eight workers; the `first` rows ask for no publication.
fn audit_all<R: Threads + Wait + Sync, G: Gate + Sync>(
    rt: &R,
    alloc: Global,
    gate: &G,
    first: u64,
) -> Result<AuditSummary, Fault> {
    let trace = trace_of(alloc, first, ROWS)?;
    let mut report = Vec::new(alloc);
    let crew = Crew {
        rt,
        alloc,
        gate,
        workers: 8,
    };
    audit_by_workers(&crew, SCRIPT, trace.as_slice(), &mut report)
}

/// Returns the summary of all rows decided, with the given number of them refused.
fn with_faults(faults: u64) -> Result<AuditSummary, Fault> {
    Ok(AuditSummary {
        rows: ROWS,
        faults,
        bare: None,
    })
}

/// Each row passes the gate once, by the worker whose turn it is, before that worker's next row, in both rounds. A body
/// that runs its workers one after another, or fewer of them, fails here: the first waits for the others in vain. So
/// does one that passes the gate twice for a row, or not at all, or by another worker, or out of order.
#[test]
fn workers_overlap(rt: HostRuntime) {
    let gate = Meeting::new();
    let answer = audit_all(&rt, rt.alloc(), &gate, SECOND - 1);
    assert!(rt; answer == with_faults(11));
    assert!(rt;
        !gate.missed.load(Ordering::SeqCst),
        "a worker waited in vain"
    );
    assert!(rt; !gate.is_wrong.load(Ordering::SeqCst), "another row");
    assert!(rt; gate.calls.load(Ordering::SeqCst) == ROWS);
    assert!(rt; gate.rows.load(Ordering::SeqCst) == 0xffff_fffe);
}

/// A gate that checks each row that passes, and holds no worker.
#[derive(Drop)]
struct Turns {
    calls: AtomicU64,
    /// The worker and the row that passed last.
    last: AtomicU64,
    is_wrong: AtomicBool,
}

impl Gate for Turns {
    fn pass(&self, worker: u8, row: u64) {
        let turn = u64::from(worker) * 64 + row % 64;
        if self.last.swap(turn, Ordering::SeqCst) >= turn {
            self.is_wrong.store(true, Ordering::SeqCst);
        }
        self.calls.fetch_add(1, Ordering::SeqCst);
    }

    fn may_wait(&self) -> bool {
        false
    }
}

/// If the gate doesn't wait, workers with few rows take turns: each decides all of its rows before the next one begins.
#[test]
fn workers_take_turns(rt: HostRuntime) {
    let gate = Turns {
        calls: zero(),
        last: zero(),
        is_wrong: AtomicBool::new(false),
    };
    let answer = audit_all(&rt, rt.alloc(), &gate, ROWS);
    assert!(rt; answer == with_faults(31));
    assert!(rt; !gate.is_wrong.load(Ordering::SeqCst), "out of turn");
    assert!(rt; gate.calls.load(Ordering::SeqCst) == ROWS);
}
