//! The report of a piece, made while the next piece is read.

ghost use Rattle.std.specs.Prelude.{◌≤◌, IfErr, IfOk, vec_len};
ghost use Rattle.std.specs.Thread.{IsSync};
ghost use Rattle.pmp_text.specs.Cutting.{IsCut};
ghost use Rattle.pmp_text.specs.Tables.{records_of};
ghost use Rattle.pmp_audit.specs.LongPieces.{IsPieceReported, PieceFails};

use crate::long_audit::Pieces;
use crate::long_audit::parts::report_parts;
use crate::piece::{Piece, PieceReport};
use pmp_text::{Cut, Fault, InputFault, cut_piece};
use std::io::Read;
use std::thread;
use std::thread::Threads;

/// Reports a piece, and takes the next one, at the same time if there are several jobs.
pub fn report_and_cut<T: Threads + Sync, R: Read>(
    audit: &Pieces<'_, T>,
    piece: Piece<'_, '_>,
    reader: &mut R,
    held: &mut Vec<u8>,
) -> (Result<PieceReport, Fault>, Result<Cut, InputFault>)
    requires standing { piece.standing.faults ≤ piece.standing.place.next }
    requires held { vec_len held.old ≤ audit.now.limit }
    ensures ok { IfOk result.0
        (IsPieceReported piece.entry.script.now (records_of piece.entry.text.now) piece.entry.standing) }
    ensures err { IfErr result.0
        (PieceFails piece.entry.script.now (records_of piece.entry.text.now) piece.entry.standing) }
    ensures cut { IsCut audit.now.limit held.old.items (R.remaining reader.old) (R.remaining reader.new) held.new.items
        result.1 }
{
    let (jobs, limit) = (&audit.jobs, audit.limit);
    if jobs.count < 2 {
        let report = report_parts(jobs, piece);
        return (report, cut_piece(jobs.alloc, reader, held, limit));
    }
    let mut report = || -> Result<PieceReport, Fault>
        requires { IsSync T.row × (piece.standing.faults ≤ piece.standing.place.next) }
        ensures { IfOk result
            (IsPieceReported piece.entry.script.now (records_of piece.entry.text.now) piece.entry.standing)
            × IfErr result (PieceFails piece.entry.script.now (records_of piece.entry.text.now) piece.entry.standing) }
    { report_parts(jobs, piece) };
    let mut cut = || -> Result<Cut, InputFault>
        requires { vec_len held.now ≤ limit }
        ensures { IsCut limit held.entry.now.items (R.remaining reader.entry.now) (R.remaining reader.exit.now)
            held.exit.now.items result }
    { cut_piece(jobs.alloc, reader, held, limit) };
    thread::join_mut(jobs.rt, &mut report, &mut cut)
}
