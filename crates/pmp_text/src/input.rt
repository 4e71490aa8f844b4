//! Reading all bytes of an input.

ghost use Rattle.std.specs.Prelude.{◌≡◌, ◌<◌, ◌≤◌, length, take, IfErr, IfOk};
ghost use Rattle.std.specs.Io.KnownBytes.{Consumes, IsAtEnd};
ghost use Rattle.pmp_text.specs.Inputs.{CantReadPart, IsReadWhole, input_fault, refusal_of_input};
ghost use Rattle.pmp_text.specs.declared.input.InputFault.TheVariants.{Input, Memory};

use crate::fault::{Fault, Source};
use crate::refusal::Refusal;
use crate::script::MAX_HEADED_SCRIPT;
use std::alloc::{AllocError, Global};
use std::io;
use std::io::Read;

/// The greatest limit that `read_bytes` honors.
pub const MAX_LIMIT: u64 = MAX_HEADED_SCRIPT as u64;

/// The greatest number of bytes that one read requests.
const CHUNK: usize = 8 * 1024;

/// Why an input gives no bytes. What was taken from a reader stays taken.
#[derive(Clone, Copy, Debug, PartialEq, Eq)]
pub enum InputFault {
    /// There are more bytes than asked for: 17.
    TooLong,
    /// The input can't be opened or read: 41.
    Input,
    /// Out of memory: 40.
    Memory,
}

impl InputFault {
    /// Returns the fault of this input as a whole.
    pub fn of(self, source: Source) -> Fault
        ensures { result ≡ input_fault source self }
    {
        match self {
            InputFault::Memory => Fault::from(Refusal::Memory),
            fault => Refusal::from(fault).whole().at_row(source, 0),
        }
    }
}

impl From<InputFault> for Refusal {
    ghost from_gives = { λ fault refusal. refusal ≡ refusal_of_input fault };

    fn from(fault: InputFault) -> Refusal {
        match fault {
            InputFault::TooLong => Refusal::TooLong,
            InputFault::Input => Refusal::Input,
            InputFault::Memory => Refusal::Memory,
        }
    }
}

impl From<AllocError> for InputFault {
    ghost from_gives = { λ _ fault. fault ≡ Memory };

    fn from(_: AllocError) -> InputFault {
        InputFault::Memory
    }
}

impl From<io::Error> for InputFault {
    ghost from_gives = { λ _ fault. fault ≡ Input };

    fn from(_: io::Error) -> InputFault {
        InputFault::Input
    }
}

/// Returns all bytes that the reader has left, which are at most `limit`.
///
/// Returns `TooLong` as soon as one byte more was taken, and takes no later byte. A failed read is not tried again, so
/// an interruption by a signal is `Input` too.
pub fn read_bytes<R: Read>(alloc: Global, reader: &mut R, limit: u64) -> Result<Vec<u8>, InputFault>
    requires { limit ≤ MAX_LIMIT }

    ensures { IsReadWhole limit (R.remaining reader.old) (R.remaining reader.new) result }
{
    let mut bytes = Vec::new(alloc);
    let mut chunk = [0; CHUNK];
    loop {
        let room = limit - bytes.len() as u64;
        let count = read_part(reader, &mut chunk, room)?;
        if count == 0 {
            return Ok(bytes);
        }
        bytes.extend_from_slice(&chunk[..count])?;
    }
}

/// Reads once, and takes at most one byte more than `room`: returns how many bytes came, none only at the end.
fn read_part<R: Read>(reader: &mut R, chunk: &mut [u8], room: u64) -> Result<usize, InputFault>
    requires not_empty { 0 < length chunk.old }
    requires small { room ≤ MAX_LIMIT }

    ensures within { IfOk result (λ count. (count ≤ room) × (count ≤ length chunk.new)) }
    ensures bytes { IfOk result (λ count. Consumes (R.remaining reader.old) (R.remaining reader.new)
        (take count chunk.new)) }
    ensures end { IfOk result (λ count. count ≡ 0 → IsAtEnd (R.remaining reader.new)) }

    ensures failed { IfErr result (CantReadPart room (R.remaining reader.old) (R.remaining reader.new)) }
{
    let most = (chunk.len() as u64).min(room + 1) as usize;
    let count = reader.read(&mut chunk[..most])?;
    if count as u64 > room {
        return Err(InputFault::TooLong);
    }
    Ok(count)
}
