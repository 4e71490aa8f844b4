//! Readers that never end, and readers that fail.

use pmp_text::{
    GrowingLog, InputFault, MAX_SCRIPT, MAX_TRACE, Moments, Refusal, Source, read_bytes,
    read_script_in, read_trace_by,
};
use std::alloc::Global;
use std::io;
use std::io::{ErrorKind, Read};
use std::process::Abort;

/// Gives up to seven bytes at a read. Once it has given `most`, it fails at one read, and ends at the next.
#[derive(Drop)]
struct Failing {
    given: u64,
    most: u64,
    kind: ErrorKind,
    failed: bool,
    reads: u64,
}

impl Read for Failing {
    fn read(&mut self, buf: &mut [u8]) -> io::Result<usize> {
        self.reads = self.reads.saturating_add(1);
        if self.failed {
            return Ok(0);
        }
        if self.given >= self.most {
            self.failed = true;
            return Err(io::Error::from(self.kind));
        }
        let count = buf.len().min(7);
        self.given = self.given.saturating_add(count as u64);
        Ok(count)
    }
}

/// A reader that never ends gives one byte above the limit and no more. A failed read isn't tried again: a second try
/// would find the end, and what was read before would count as the whole.
#[test]
fn takes_no_more_than_it_needs(rt: HostRuntime) {
    for (most, kind, given, reads, fault) in [
        (u64::MAX, ErrorKind::Other, 101, 15, InputFault::TooLong),
        (98, ErrorKind::Other, 98, 15, InputFault::Input),
        (98, ErrorKind::Interrupted, 98, 15, InputFault::Input),
        (0, ErrorKind::Other, 0, 1, InputFault::Input),
    ] {
        let mut reader = Failing {
            given: 0,
            most,
            kind,
            failed: false,
            reads: 0,
        };
        let answer = read_bytes(rt.alloc(), &mut reader, 100);
        assert!(rt; answer.err() == Some(fault));
        assert!(rt; reader.given == given && reader.reads == reads);
    }
}

/// Returns the given number of blocks of 4,096 line feeds, and one more.
fn line_feeds(rt: &impl Abort, alloc: Global, blocks: usize) -> Vec<u8> {
    let mut text = Vec::new(alloc);
    text.push(b'\n').ok().expect(rt, "memory");
    for _ in 0..blocks {
        text.extend_from_slice(&[b'\n'; 4096])
            .ok()
            .expect(rt, "memory");
    }
    text
}

/// One byte above the limit. Code that looked at the text would report that there is no version, and no header.
#[test]
fn longer_texts_are_too_long(rt: HostRuntime) {
    let script = line_feeds(&rt, rt.alloc(), MAX_SCRIPT / 4096);
    let long = Refusal::TooLong.whole();
    assert!(rt;
        read_script_in(&mut GrowingLog::new(rt.alloc()), script.as_slice()).err()
            == Some(long.at_row(Source::Script, 0))
    );
    let trace = line_feeds(&rt, rt.alloc(), MAX_TRACE / 4096);
    let moments = Moments {
        publications: 0,
        marks: None,
        lasting: None,
    };
    assert!(rt;
        read_trace_by(rt.alloc(), trace.as_slice(), &moments).err()
            == Some(long.at_row(Source::Trace, 0))
    );
}
