//! Answers about a script, and why there are none.

use super::{REPORT, SCRIPT, TRACE, number_of_script, number_of_trace, page_load};
use pmp_audit::{AuditFault, Gate, OpenGate, Summary, audit, audit_shared, check, dump, map_of};
use pmp_core::Decision;
use pmp_share::{Moved, ShareFault};
use pmp_text::{ScriptFault, TraceFault};
use std::sync::Wait;
use std::test::Fail;
use std::thread::Threads;

fn number_of_share(fault: ShareFault) -> u8 {
    match fault {
        ShareFault::NoPlace => 30,
        ShareFault::Full => 31,
        ShareFault::Memory => 40,
    }
}

/// Returns the number of a fault, and the line or the row.
fn number_of(fault: AuditFault) -> (u8, u64) {
    match fault {
        AuditFault::Script(ScriptFault { kind, line }) => (number_of_script(kind), line),
        AuditFault::Trace(TraceFault { kind, row }) => (number_of_trace(kind), row),
        AuditFault::Share(fault) => (number_of_share(fault), 0),
        AuditFault::Moved(Moved { seen: _ }) => (32, 0),
        AuditFault::BadAfter => (22, 0),
        AuditFault::Memory => (40, 0),
        AuditFault::Output => (42, 0),
    }
}

/// Audits the trace by so many workers, or on one thread.
fn audit_by<R: AllocGlobal + Threads + Wait + Sync, G: Gate + Sync>(
    rt: &R,
    gate: &G,
    k: Option<u8>,
    out: &mut Vec<u8>,
) -> Result<Summary, AuditFault> {
    match k {
        Some(k) if k >= 1 && k <= 8 => audit_shared(rt, rt.alloc(), gate, k, SCRIPT, TRACE, out),
        _ => audit(rt.alloc(), SCRIPT, TRACE, out),
    }
}

#[test]
fn audits_answer(rt: HostRuntime) {
    for k in [None, Some(1), Some(2), Some(8)] {
        let mut out = Vec::new(rt.alloc());
        let Summary { rows, faults } = audit_by(&rt, &OpenGate, k, &mut out)
            .ok()
            .expect(&rt, "a report");
        assert!(rt; rows == 4 && faults == 2 && out.as_slice() == REPORT);
    }
}

#[test]
fn one_access_and_the_file_are_answered(rt: HostRuntime) -> Result<(), Fail> {
    let mut out = Vec::new(rt.alloc());
    let decision: Result<Decision, AuditFault> = check(rt.alloc(), SCRIPT, &page_load()?, &mut out);
    assert!(rt; decision.is_ok_and(|decision| decision.allowed));
    assert!(rt; out.as_slice() == b"1,allow,,rule,1\n".as_slice());
    let mut out = Vec::new(rt.alloc());
    assert!(rt; map_of(rt.alloc(), SCRIPT, Some(0), &mut out).is_ok());
    assert!(rt; out.as_slice() == b"00000000000000,ffffffffffffff,-,rwx,---\n".as_slice());
    let mut out = Vec::new(rt.alloc());
    assert!(rt; dump(rt.alloc(), SCRIPT, Some(1), &mut out).is_ok());
    assert!(rt;
        out.starts_with(b"pmpcfg0 0x0000000000000019\npmpcfg2 0x0000000000000000\n".as_slice())
    );
    Ok(())
}

/// Each kind of fault, with its line or its row, and an output that is untouched.
#[test]
fn audits_are_refused(rt: HostRuntime) {
    let mut out = Vec::new(rt.alloc());
    let late = dump(rt.alloc(), SCRIPT, Some(3), &mut out).err();
    assert!(rt; late.map(number_of) == Some((22, 0)));
    let faulty = map_of(rt.alloc(), b"pmp 1\nwrite x 0\n", None, &mut out).err();
    assert!(rt; faulty.map(number_of) == Some((12, 2)));
    let headed = map_of(rt.alloc(), b"pmp 3\nwrite x 0\n", None, &mut out).err();
    assert!(rt; headed.map(number_of) == Some((10, 1)));
    let row = b"after,mode,kind,start,length\n3,U,load,0x0,4\n";
    let trace = audit(rt.alloc(), SCRIPT, row, &mut out).err();
    assert!(rt; trace.map(number_of) == Some((22, 1)));
    let both = audit(rt.alloc(), b"pmp 1\nreset\n", b"", &mut out).err();
    assert!(rt; both.map(number_of) == Some((16, 2)) && out.is_empty());
    assert!(rt; number_of(AuditFault::Share(ShareFault::Full)) == (31, 0));
    assert!(rt; number_of(AuditFault::Moved(Moved { seen: 4 })) == (32, 0));
}
