//! The formats of logs.

ghost use Rattle.std.specs.Prelude.{◌≡◌, Some};
ghost use Rattle.pmp_import.specs.Formats.{format_named, line_said, source_text};

use crate::debuggers::Debugger;
use crate::qemu::read_qemu;
use crate::said::Said;
use crate::spike::read_spike;
use pmp_text::Refusal;
use std::fmt;

/// The format of a log.
#[derive(Clone, Copy, Debug, PartialEq, Eq)]
pub enum Format {
    /// QEMU's log of trace events.
    Qemu,
    /// The output of gdb for `info registers`.
    Gdb,
    /// The output of OpenOCD for `reg`.
    OpenOcd,
    /// Spike's log of commits.
    Spike,
    /// The output of `pmp dump`.
    Dump,
}

impl Format {
    /// Returns the format that a word names.
    pub fn named(word: &[u8]) -> Option<Format>
        ensures { result ≡ format_named word.now }
    {
        if word == b"qemu".as_slice() {
            Some(Format::Qemu)
        } else if word == b"gdb".as_slice() {
            Some(Format::Gdb)
        } else if word == b"openocd".as_slice() {
            Some(Format::OpenOcd)
        } else if word == b"spike".as_slice() {
            Some(Format::Spike)
        } else if word == b"dump".as_slice() {
            Some(Format::Dump)
        } else {
            None
        }
    }

    /// Returns what a line of such a log says, or why it is refused.
    pub fn read(self, line: &[u8]) -> Result<Said, Refusal>
        ensures { result ≡ line_said self line.now }
    {
        match self {
            Format::Qemu => read_qemu(line),
            Format::Gdb => Debugger::Gdb.read(line),
            Format::OpenOcd => Debugger::OpenOcd.read(line),
            Format::Spike => read_spike(line),
            Format::Dump => Debugger::Dump.read(line),
        }
    }
}

/// Names the source of such a log.
impl fmt::Display for Format {
    ghost output = { λ format. Some (source_text format) };

    fn fmt<W: fmt::Write>(&self, f: &mut fmt::Formatter<W>) -> fmt::Result {
        f.write_str(match self {
            Format::Qemu => "QEMU's trace",
            Format::Gdb => "gdb's registers",
            Format::OpenOcd => "OpenOCD's registers",
            Format::Spike => "Spike's commits",
            Format::Dump => "a dump",
        })
    }
}
