//! Progress in reading a trace, on a terminal.

ghost use Rattle.std.specs.Prelude.{◌≡◌};

use arrayvec::ArrayString;
use std::fmt::Write as TextWrite;
use std::io;
use std::io::{Read, Write};
use std::time::{Clock, Instant};

/// The room for the line, which has at most 24 bytes.
const LINE: usize = 32;

/// The text that clears the line: spaces over all of it.
const CLEARED: &[u8] = b"\r                        \r";

/// A reader, with a line on a terminal that says how many bytes came from it. The line is rewritten once a second, and
/// cleared when the reader is dropped. Without a terminal or a clock, nothing is written.
pub struct Watched<'a, I: Drop, C, E: Write + Drop> {
    input: I,
    clock: &'a C,
    terminal: Option<E>,
    bytes: u64,
    /// When the line was last written, or the first bytes came.
    since: Option<Instant>,
    is_shown: bool,
}

impl<'a, I: Drop, C: Clock, E: Write + Drop> Watched<'a, I, C, E> {
    /// Creates the reader, from which no byte came yet; nothing is written.
    pub fn new(input: I, clock: &'a C, terminal: Option<E>) -> Self {
        Watched {
            input,
            clock,
            terminal,
            bytes: 0,
            since: None,
            is_shown: false,
        }
    }

    /// Whether a second has passed since the line was last written, or the first bytes came.
    fn is_due(&mut self) -> bool
        ensures { self.new.input ≡ self.old.input }
    {
        let Ok(now) = Instant::now(self.clock) else {
            return false;
        };
        if let Some(since) = self.since {
            if now.duration_since(since).as_secs() < 1 {
                return false;
            }
        }
        self.since.replace(now).is_some()
    }

    fn show(&mut self)
        ensures { self.new.input ≡ self.old.input }
    {
        let mut line = ArrayString::<LINE>::new();
        let _ = write!(line, "\r{} MiB read", self.bytes >> 20);
        if let Some(terminal) = &mut self.terminal {
            self.is_shown = terminal.write_all(line.as_bytes()).is_ok();
        }
    }
}

impl<I: Read + Drop, C: Clock, E: Write + Drop> Read for Watched<'_, I, C, E> {
    ghost remaining = { λ watched. I.remaining watched.input };

    fn read(&mut self, buffer: &mut [u8]) -> io::Result<usize> {
        let count = self.input.read(buffer)?;
        self.bytes = self.bytes.saturating_add(count as u64);
        if self.terminal.is_some() && self.is_due() {
            self.show();
        }
        Ok(count)
    }
}

impl<'a, I: Drop, C, E: Write + Drop> Drop for Watched<'a, I, C, E> {
    fn drop(self) {
        let Watched {
            input: _input,
            clock: _,
            terminal,
            bytes: _,
            since: _,
            is_shown,
        } = self;
        if let Some(mut terminal) = terminal {
            if is_shown {
                let _ = terminal.write_all(CLEARED);
            }
        }
    }
}
