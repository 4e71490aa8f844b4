//! The report of a piece, made in parts by several threads.

ghost use Rattle.std.specs.Prelude.{◌≡◌, ◌≤◌, ◌<◌, IfErr, IfOk, IfSome, None, length, slice_index, true};
ghost use Rattle.std.specs.Thread.{IsSync};
ghost use Rattle.pmp_text.specs.Tables.{is_line_end, records_of};
ghost use Rattle.pmp_audit.specs.LongParts.{AreJoined};
ghost use Rattle.pmp_audit.specs.LongPieces.{IsPieceReported, PieceFails};

use crate::piece::{Piece, PieceReport, report_piece};
use crate::standing::Standing;
use pmp_text::{Fault, Moments, Position};
use std::alloc::{AllocError, Global};
use std::thread;
use std::thread::Threads;

/// How many jobs run at a time, and where their threads and their memory come from.
#[derive(Drop)]
pub struct Jobs<'r, T> {
    pub rt: &'r T,
    pub alloc: Global,
    pub count: usize,
}

/// Reports a piece as [`report_piece`] does, in a part for each job at a time. Each part starts from its likely position.
/// If that turns out wrong, or the part isn't reported, the piece is reported as one part.
#[cycle(parts)]
pub fn report_parts<T: Threads + Sync>(
    jobs: &Jobs<'_, T>,
    piece: Piece<'_, '_>,
) -> Result<PieceReport, Fault>
    requires { piece.standing.faults ≤ piece.standing.place.next }
    ensures ok { IfOk result
        (IsPieceReported piece.entry.script.now (records_of piece.entry.text.now) piece.entry.standing) }
    ensures err { IfErr result
        (PieceFails piece.entry.script.now (records_of piece.entry.text.now) piece.entry.standing) }
{
    let Jobs { rt, alloc, count } = *jobs;
    let Piece {
        script,
        text,
        standing,
    } = piece;
    if count < 2 {
        return report_piece(alloc, piece);
    }
    let Some(end) = middle_line_end(text) else {
        return report_piece(alloc, piece);
    };
    let half = count / 2;
    let low = &text[..=end];
    let high = &text[end..];
    let middle = likely_behind(&script.moments(), standing.place, low);
    let front = move || -> Result<PieceReport, Fault>
        requires { IsSync T.row × (0 < half) × (standing.faults ≤ standing.place.next) }
        ensures { IfOk result (IsPieceReported script.entry.now (records_of low.entry.now) standing) }
    {
        let jobs = Jobs {
            rt,
            alloc,
            count: half,
        };
        let piece = Piece {
            script,
            text: low,
            standing,
        };
        report_parts(&jobs, piece)
    };
    let back = move || -> Result<PieceReport, Fault>
        requires { IsSync T.row × (half < count) × (middle.faults ≤ middle.place.next) }
        ensures { IfOk result (IsPieceReported script.entry.now (records_of high.entry.now) middle) }
    {
        let jobs = Jobs {
            rt,
            alloc,
            count: count - half,
        };
        let piece = Piece {
            script,
            text: high,
            standing: middle,
        };
        report_parts(&jobs, piece)
    };
    let (front, back) = thread::join(rt, front, back);
    match joined(front, middle, back)? {
        Some(both) => Ok(both),
        None => report_piece(alloc, piece),
    }
}

/// Returns the position of the first line end in the second half.
fn middle_line_end(text: &[u8]) -> Option<usize>
    ensures { IfSome result (λ end. (end < length text.now) × (is_line_end (slice_index text.now end) ≡ true)) }
{
    for end in text.len() / 2..text.len() {
        if matches!(text[end], b'\r' | b'\n') {
            return Some(end);
        }
    }
    None
}

/// Returns the likely standing after this text, which is right if each line of the text is a plain row.
fn likely_behind(moments: &Moments<'_>, place: Position, text: &[u8]) -> Standing
    ensures { result ≡ record { place = record result.place { bare = None }; faults = 0 } }
{
    let mut lines: u64 = 0;
    for byte in text {
        lines = lines.wrapping_add(u64::from(*byte == b'\n'));
    }
    Standing {
        place: Position {
            begun: true,
            last: last_after(moments, text),
            next: place.next.saturating_add(lines.saturating_sub(1)),
            bare: None,
        },
        faults: 0,
    }
}

/// Returns how many publications the last line of a text asks for, if it is a plain row.
fn last_after(moments: &Moments<'_>, text: &[u8]) -> Option<u64> {
    let (_, lines) = text.split_last()?;
    let line = lines.iter().rposition(|byte| *byte == b'\n')?;
    let end = lines[line..].iter().position(|byte| *byte == b',')?;
    moments.read_after(&lines[line + 1..line + end]).ok()
}

/// Returns the reports of two parts as one, if both were made, and the second from where the first one ends.
fn joined(
    front: Result<PieceReport, Fault>,
    middle: Standing,
    back: Result<PieceReport, Fault>,
) -> Result<Option<PieceReport>, AllocError>
    ensures { IfOk result (λ joined. IfSome joined (AreJoined front middle back)) }
{
    let (Ok(mut front), Ok(mut back)) = (front, back) else {
        return Ok(None);
    };
    let behind = front.behind.place;
    let likely = Position {
        bare: behind.bare,
        ..middle.place
    };
    if behind != likely {
        return Ok(None);
    }
    let Some(faults) = front.behind.faults.checked_add(back.behind.faults) else {
        return Ok(None);
    };
    front.texts.append(&mut back.texts)?;
    Ok(Some(PieceReport {
        texts: front.texts,
        behind: Standing {
            place: Position {
                bare: behind.bare.or(back.behind.place.bare),
                ..back.behind.place
            },
            faults,
        },
    }))
}
