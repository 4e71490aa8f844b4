//! The accesses of a trace of any length, decided and reported piece by piece.

ghost use Rattle.std.specs.Prelude.{◌≡◌, ℕ, List, IfErr, IfOk, IfSome, Ok};
ghost use Rattle.pmp_text.specs.Scripts.{script_meaning};
ghost use Rattle.pmp_audit.specs.Answers.{IsWritten};
ghost use Rattle.pmp_audit.specs.LongAudit.{LongAuditSays, StopsLong};

mod parts;
mod reporting;

use crate::answer::write_texts;
pub use crate::long_audit::parts::Jobs;
use crate::long_audit::parts::report_parts;
use crate::long_audit::reporting::report_and_cut;
use crate::piece::Piece;
use crate::standing::Standing;
use crate::trace_audit::AuditSummary;
use pmp_text::{Cut, Fault, GrowingLog, ReadScript, Refusal, Source, cut_piece, read_script_in};
use std::io::{Read, Write};
use std::thread::Threads;

/// The greatest piece that the program takes at a time, in bytes.
pub const PIECE: usize = 1 << 23;

/// How a trace is audited piece by piece.
#[derive(Drop)]
pub struct Pieces<'r, T> {
    pub jobs: Jobs<'r, T>,
    /// The number of the first row.
    pub first: u64,
    /// The most bytes of a piece.
    pub limit: usize,
}

/// Works as [`audit_whole`](crate::audit_whole), but on a trace of any length, and in memory for two pieces.
///
/// The trace is cut at line ends. Each piece is decided and reported before the second one after it is taken, so any
/// refusal but `Script` may come after rows are written. `TooLong` is returned if a run of bytes only one shorter than
/// a piece has no line end.
///
/// The rows of a piece are read, and then decided, in as many parts at a time as there are jobs, each on a thread of
/// its own if one can be created, while the calling thread takes the next piece; all threads have ended when the call
/// returns. None is started for no job or one.
#[inline(never)]
pub fn audit_long<T: Threads + Sync, R: Read, W: Write>(
    audit: &Pieces<'_, T>,
    script: &[u8],
    reader: &mut R,
    writer: &mut W,
) -> Result<AuditSummary, Fault>
    ensures ok { IfOk result (λ summary. (trace : List ℕ) × IfSome (R.remaining reader.old) (λ those. trace ≡ those)
        × IsWritten (LongAuditSays script.now audit.now.first trace) (W.contents writer.old)
        (W.contents writer.new) summary) }
    ensures err { IfErr result (λ fault. (trace : List ℕ) × IfSome (R.remaining reader.old) (λ those. trace ≡ those)
        × StopsLong audit.now.limit script.now audit.now.first trace (W.contents writer.old)
        (W.contents writer.new) fault) }
{
    let mut log = GrowingLog::new(audit.jobs.alloc);
    let parsed = read_script_in(&mut log, script)?;
    audit_pieces(audit, &parsed, reader, writer)
}

/// Reads, decides and reports piece by piece, independent of the text that the script was read from.
fn audit_pieces<T: Threads + Sync, R: Read, W: Write>(
    audit: &Pieces<'_, T>,
    script: &ReadScript,
    reader: &mut R,
    writer: &mut W,
) -> Result<AuditSummary, Fault>
    ensures ok { (text : List ℕ) → script_meaning text ≡ Ok script.now → IfOk result (λ summary.
        (trace : List ℕ) × IfSome (R.remaining reader.old) (λ those. trace ≡ those)
        × IsWritten (LongAuditSays text audit.now.first trace) (W.contents writer.old)
        (W.contents writer.new) summary) }
    ensures err { (text : List ℕ) → script_meaning text ≡ Ok script.now → IfErr result (λ fault.
        (trace : List ℕ) × IfSome (R.remaining reader.old) (λ those. trace ≡ those)
        × StopsLong audit.now.limit text audit.now.first trace (W.contents writer.old) (W.contents writer.new) fault) }
{
    let alloc = audit.jobs.alloc;
    let mut held = Vec::new(alloc);
    let mut standing = Standing::beginning(audit.first);
    let mut cut = cut_piece(alloc, reader, &mut held, audit.limit);
    for _count in 0..u64::MAX {
        match cut {
            Ok(Cut::Front(text)) => {
                let piece = Piece {
                    script: &*script,
                    text: &text,
                    standing,
                };
                let (report, next) = report_and_cut(audit, piece, reader, &mut held);
                let report = report?;
                write_texts(writer, &report.texts)?;
                standing = report.behind;
                cut = next;
            }
            Ok(Cut::Last(text)) => {
                let piece = Piece {
                    script: &*script,
                    text: &text,
                    standing,
                };
                let report = report_parts(&audit.jobs, piece)?;
                write_texts(writer, &report.texts)?;
                return report.behind.end(audit.first);
            }
            Err(fault) => return Err(fault.of(Source::Trace)),
        }
    }
    Err(Refusal::TooLong.whole().at_row(Source::Trace, 0))
}
