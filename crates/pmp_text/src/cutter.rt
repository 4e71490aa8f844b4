//! The bytes of a reader, cut into pieces that end at line ends.

ghost use Rattle.std.specs.Prelude.{◌≡◌, ◌⊎◌, ◌-◌, ◌<◌, ◌≤◌, IfErr, IfOk, MatchOption, drop, false, length, slice_index};
ghost use Rattle.std.specs.Prelude.{true, vec_len};
ghost use Rattle.std.specs.List.{list_any};
ghost use Rattle.pmp_text.specs.Cutting.{IsCut, IsFilled, IsLineCut};
ghost use Rattle.pmp_text.specs.Lines.{is_line_feed};
ghost use Rattle.pmp_text.specs.Tables.{is_line_end};
ghost use Rattle.pmp_text.specs.declared.input.InputFault.TheVariants.{Input, Memory};

use crate::input::InputFault;
use std::alloc::Global;
use std::io::Read;
use std::mem;

/// The greatest number of bytes that one read requests.
const CHUNK: usize = 64 * 1024;

/// A piece of a reader's bytes.
#[derive(Drop)]
pub enum Cut {
    /// The piece ends at a line end, and more may follow.
    Front(Vec<u8>),
    /// The reader is at its end, and so is the piece.
    Last(Vec<u8>),
}

/// Takes the next piece, of at most `limit` bytes, from the held bytes and the reader.
///
/// The held bytes then begin with the line end that ends the piece, so it is part of both, and only the first piece
/// begins as the whole input does. Returns `TooLong` if the bytes after the first one have no line end.
pub fn cut_piece<R: Read>(
    alloc: Global,
    reader: &mut R,
    held: &mut Vec<u8>,
    limit: usize,
) -> Result<Cut, InputFault>
    requires { vec_len held.old ≤ limit }
    ensures { IsCut limit held.old.items (R.remaining reader.old) (R.remaining reader.new) held.new.items result }
{
    if fill(reader, held, limit)? {
        return Ok(Cut::Last(mem::replace(held, Vec::new(alloc))));
    }
    let end = last_line_end(held).ok_or(InputFault::TooLong)?;
    let rest = Vec::from_slice(alloc, &held[end..])?;
    held.truncate(end + 1);
    Ok(Cut::Front(mem::replace(held, rest)))
}

/// Takes the next whole lines, of at most `limit` bytes, from the held bytes and the reader. Each of them ends with LF,
/// except perhaps the last one at the end of the input.
///
/// The held bytes then begin with the next line. Returns `TooLong` if the first line has `limit` bytes and no LF.
pub fn cut_lines<R: Read>(
    alloc: Global,
    reader: &mut R,
    held: &mut Vec<u8>,
    limit: usize,
) -> Result<Cut, InputFault>
    requires { vec_len held.old ≤ limit }
    ensures { IsLineCut limit held.old.items (R.remaining reader.old) (R.remaining reader.new) held.new.items result }
{
    if fill(reader, held, limit)? {
        return Ok(Cut::Last(mem::replace(held, Vec::new(alloc))));
    }
    let end = line_feed_end(held).ok_or(InputFault::TooLong)?;
    let rest = Vec::from_slice(alloc, &held[end..])?;
    held.truncate(end);
    Ok(Cut::Front(mem::replace(held, rest)))
}

/// Returns the number of bytes up to and including the last LF.
fn line_feed_end(bytes: &[u8]) -> Option<usize>
    ensures { MatchOption result (list_any is_line_feed bytes.now ≡ false)
        (λ end. (0 < end) × (end ≤ length bytes.now) × (slice_index bytes.now (end - 1) ≡ 10)) }
{
    let mut end = bytes.len();
    while end > 0 {
        if bytes[end - 1] == b'\n' {
            return Some(end);
        }
        end -= 1;
    }
    None
}

/// Takes bytes from the reader until `limit` are held or it is at its end, and returns whether it is.
fn fill<R: Read>(reader: &mut R, held: &mut Vec<u8>, limit: usize) -> Result<bool, InputFault>
    requires { vec_len held.old ≤ limit }
    ensures filled { IfOk result
        (IsFilled limit held.old.items (R.remaining reader.old) (R.remaining reader.new) held.new.items) }
    ensures failed { IfErr result (λ fault. (fault ≡ Input) ⊎ (fault ≡ Memory)) }
{
    let mut chunk = [0; CHUNK];
    while held.len() < limit {
        let most = CHUNK.min(limit - held.len());
        let count = reader.read(&mut chunk[..most])?;
        if count == 0 {
            return Ok(true);
        }
        held.extend_from_slice(&chunk[..count])?;
    }
    Ok(false)
}

/// Returns the position of the last line end after the first byte.
fn last_line_end(bytes: &[u8]) -> Option<usize>
    ensures { MatchOption result (list_any is_line_end (drop 1 bytes.now) ≡ false)
        (λ end. (0 < end) × (end < length bytes.now)
        × (is_line_end (slice_index bytes.now end) ≡ true)) }
{
    let mut end = bytes.len();
    while end > 1 {
        end -= 1;
        if matches!(bytes[end], b'\r' | b'\n') {
            return Some(end);
        }
    }
    None
}
