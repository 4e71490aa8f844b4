//! The report of a piece of a trace, each row decided as soon as it is read.

ghost use Rattle.std.specs.Prelude.{◌≡◌, ◌≤◌, [], IfErr, IfOk, false};
ghost use Rattle.pmp_text.specs.Moments.{moments_in};
ghost use Rattle.pmp_text.specs.Tables.{records_of};
ghost use Rattle.pmp_audit.specs.LongPieces.{IsPieceReported, PieceFails};

use crate::replay::Replay;
use crate::report::list_row;
use crate::standing::Standing;
use pmp_text::{Fault, ReadScript, RowReader};
use std::alloc::Global;

/// A piece of a trace, the script that it is decided by, and where it begins.
#[derive(Clone, Copy)]
pub struct Piece<'a, 's> {
    pub script: &'a ReadScript<'s>,
    pub text: &'a [u8],
    pub standing: Standing,
}

/// The report of a piece, text by text, and where the next piece begins.
#[derive(Drop)]
pub struct PieceReport {
    pub texts: Vec<Vec<u8>>,
    pub behind: Standing,
}

/// Decides the remaining rows in place, each as soon as it is read.
fn report_rows(
    alloc: Global,
    script: &ReadScript,
    rows: &mut RowReader<'_>,
    standing: Standing,
) -> Result<PieceReport, Fault>
    requires moments { rows.old.moments ≡ moments_in script.now }
    requires place { rows.old.place ≡ standing.place }
    requires header { standing.place.begun ≡ false → rows.old.records ≡ [] }
    requires faults { standing.faults ≤ standing.place.next }
    ensures ok { IfOk result (IsPieceReported script.now rows.old.records standing) }
    ensures err { IfErr result (PieceFails script.now rows.old.records standing) }
{
    let mut replay = Replay::new(script);
    let mut report = Vec::new(alloc);
    let Standing {
        mut place,
        mut faults,
    } = standing;
    while let Some(row) = rows.next()? {
        replay.advance(row.after);
        let decision = replay.decide(&row.access);
        faults += list_row(&mut report, place.next, &row, &decision)?;
        place = rows.place();
    }
    let mut texts = Vec::new(alloc);
    texts.push(report)?;
    Ok(PieceReport {
        texts,
        behind: Standing { place, faults },
    })
}

/// Reads a piece in place, and decides its rows. Besides the report only one record takes memory.
pub fn report_piece(alloc: Global, piece: Piece<'_, '_>) -> Result<PieceReport, Fault>
    requires { piece.standing.faults ≤ piece.standing.place.next }
    ensures ok { IfOk result
        (IsPieceReported piece.entry.script.now (records_of piece.entry.text.now) piece.entry.standing) }
    ensures err { IfErr result
        (PieceFails piece.entry.script.now (records_of piece.entry.text.now) piece.entry.standing) }
{
    let Piece {
        script,
        text,
        standing,
    } = piece;
    let moments = script.moments();
    let mut rows = RowReader::open(alloc, text, &moments, standing.place)?;
    let behind_header = Standing {
        place: rows.place(),
        ..standing
    };
    report_rows(alloc, script, &mut rows, behind_header)
}
