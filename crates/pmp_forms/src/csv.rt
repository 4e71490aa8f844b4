//! Rows as CSV.

ghost use Rattle.std.specs.Prelude.{◌≡◌, ◌++◌, OnOk};
ghost use Rattle.pmp_text.specs.Cells.{csv_text};

use pmp_text::AnswerRow;
use std::alloc::AllocError;

/// Appends rows as lines of CSV.
///
/// The only error is that memory runs out; then some rows may have been appended.
pub fn append_csv(out: &mut Vec<u8>, rows: &[AnswerRow]) -> Result<(), AllocError>
    ensures { OnOk result (out.new.items ≡ out.old.items ++ csv_text rows.now) }
{
    for row in rows {
        row.append_to(out)?;
    }
    Ok(())
}
