//! The rows that ask for exactly the publications that are done.

ghost use Rattle.std.specs.Prelude.{◌≡◌};
ghost use Rattle.pmp_audit.specs.Rounds as rounds;

use pmp_text::TraceRow;

/// Returns the rows at the front that ask for exactly `after` publications.
pub(crate) fn asking(rows: &[TraceRow], after: u64) -> &[TraceRow]
    ensures { result.now ≡ rounds.asking after rows.now }
{
    match rows.iter().position(|row| row.after != after) {
        Some(count) => &rows[..count],
        None => rows,
    }
}
