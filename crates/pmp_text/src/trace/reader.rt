//! Reading a whole trace: its rows, or its first fault.

ghost use Rattle.std.specs.Prelude.{◌≡◌, ◌+◌, ◌^◌, ◌<◌, IfOk, None, length, map};
ghost use Rattle.pmp_text.specs.LongTraces.{long_rows_meaning};
ghost use Rattle.pmp_text.specs.Outcomes.{Gives};
ghost use Rattle.pmp_text.specs.TraceFaults.{IsInOrder, afters};
ghost use Rattle.pmp_text.specs.Traces.{row_fields, trace_meaning};

use crate::fault::{Fault, Source};
use crate::moments::Moments;
use crate::refusal::Refusal;
use crate::trace::TraceRow;
use crate::trace::rows::{Position, RowReader};
use std::alloc::Global;

/// The greatest length of a trace, in bytes.
pub const MAX_TRACE: usize = 1 << 24;

/// Returns the remaining rows, which begin with the first row of a trace, else the first fault.
fn read_rows(alloc: Global, left: &mut RowReader<'_>) -> Result<Vec<TraceRow>, Fault>
    requires first { left.old.place.last ≡ None }
    requires numbered { left.old.place.next + length left.old.records < 2 ^ 64 }
    ensures { Gives (λ rows. map row_fields rows.items) result
        (long_rows_meaning left.old.moments left.old.place.next left.old.records) }
{
    let mut rows = Vec::new(alloc);
    while let Some(row) = left.next()? {
        rows.push(row)?;
    }
    Ok(rows)
}

/// Returns the rows of the trace that a text describes, for a script with these moments, else its first fault. The time
/// is linear in the text, and only the rows and one record take memory: if they can't grow, `Memory` is returned
/// instead of any later fault.
pub fn read_trace_by(
    alloc: Global,
    text: &[u8],
    moments: &Moments<'_>,
) -> Result<Vec<TraceRow>, Fault>
    ensures given { Gives (λ rows. map row_fields rows.items) result (trace_meaning moments.now text.now) }
    ensures ordered { IfOk result (λ rows. IsInOrder moments.now.publications 0 (afters (map row_fields rows.items))) }
{
    if text.len() > MAX_TRACE {
        return Err(Refusal::TooLong.whole().at_row(Source::Trace, 0));
    }
    let mut left = RowReader::open(alloc, text, moments, Position::beginning(1))?;
    if left.place().begun {
        read_rows(alloc, &mut left)
    } else {
        Err(Refusal::BadHeader.whole().at_row(Source::Trace, 0))
    }
}
