//! Writing all bytes to a writer that may fail.

use pmp_text::{OutputFault, write_out};
use std::io;
use std::io::{ErrorKind, Write};

/// Takes up to seven bytes at a write and holds `room`. After that a write takes none; or it fails, and the next would
/// take more. The first flush fails, or doesn't.
#[derive(Drop)]
struct Tight {
    held: Vec<u8>,
    room: usize,
    when_full: Option<ErrorKind>,
    fails: bool,
    writes: u64,
    flushes: u64,
}

impl Write for Tight {
    fn write(&mut self, buf: &[u8]) -> io::Result<usize> {
        self.writes = self.writes.saturating_add(1);
        let room = self.room.saturating_sub(self.held.len());
        let count = buf.len().min(7).min(room);
        match self.when_full {
            Some(kind) if count == 0 => {
                self.room = usize::MAX;
                return Err(io::Error::from(kind));
            }
            _ => self.held.extend_from_slice(&buf[..count])?,
        }
        Ok(count)
    }

    fn flush(&mut self) -> io::Result<()> {
        self.flushes = self.flushes.saturating_add(1);
        if self.fails && self.flushes == 1 {
            return Err(io::Error::from(ErrorKind::Other));
        }
        Ok(())
    }
}

const TEXT: &[u8; 22] = b"seven bytes at a write";

/// All bytes are written in as many writes as needed, and flushed once. A write or a flush that fails isn't tried
/// again: a second try would succeed.
#[test]
fn writes_a_beginning(rt: HostRuntime) {
    for (room, when_full, fails, calls, want) in [
        (0, None, false, (1, 0), Err(OutputFault)),
        (2, None, false, (2, 0), Err(OutputFault)),
        (
            2,
            Some(ErrorKind::StorageFull),
            false,
            (2, 0),
            Err(OutputFault),
        ),
        (
            14,
            Some(ErrorKind::Interrupted),
            false,
            (3, 0),
            Err(OutputFault),
        ),
        (22, None, true, (4, 1), Err(OutputFault)),
        (22, None, false, (4, 1), Ok(())),
        (30, Some(ErrorKind::Other), false, (4, 1), Ok(())),
    ] {
        let mut tight = Tight {
            held: Vec::new(rt.alloc()),
            room,
            when_full,
            fails,
            writes: 0,
            flushes: 0,
        };
        assert!(rt; write_out(&mut tight, TEXT) == want);
        assert!(rt; tight.held.as_slice() == &TEXT[..room.min(22)]);
        assert!(rt; (tight.writes, tight.flushes) == calls);
    }
}
