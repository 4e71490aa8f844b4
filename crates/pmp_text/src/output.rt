//! Writing all bytes of an output.

ghost use Rattle.std.specs.Prelude.{OnOk, OnErr};
ghost use Rattle.std.specs.Io.KnownBytes.{Appends};
ghost use Rattle.pmp_text.specs.Bytes.{AppendsBeginning};

use std::io;
use std::io::Write;

/// A write or the flush failed, or a write took no byte.
#[derive(Clone, Copy, Debug, PartialEq, Eq)]
pub struct OutputFault;

impl From<io::Error> for OutputFault {
    fn from(_: io::Error) -> OutputFault {
        OutputFault
    }
}

/// Writes all bytes, and flushes. A failed write is not tried again, so an interruption by a signal is a fault too.
pub fn write_out<W: Write>(writer: &mut W, bytes: &[u8]) -> Result<(), OutputFault>
    ensures ok { OnOk result (Appends (W.contents writer.old) (W.contents writer.new) bytes.now) }
    ensures err { OnErr result (AppendsBeginning (W.contents writer.old) (W.contents writer.new) bytes.now) }
{
    let mut rest = bytes;
    while !rest.is_empty() {
        match writer.write(rest)? {
            0 => return Err(OutputFault),
            count => rest = &rest[count..],
        }
    }
    writer.flush()?;
    Ok(())
}
