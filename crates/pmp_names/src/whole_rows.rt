//! Rows behind the name of a hart, and before the names that their ranges have.

ghost use Rattle.std.specs.Prelude.{◌≡◌, ◌++◌, IfOk, OnOk, map, option_map};
ghost use Rattle.pmp_text.specs.MetNames.{given_names, named};
ghost use Rattle.pmp_names.specs.WholeRows.{met_in, whole, with_hart, with_names};

use pmp_text::{AddressName, AddressNames, AnswerRow, append_met};
use std::alloc::{AllocError, Global};

/// What rows have beside their own cells.
#[derive(Clone, Copy)]
pub struct Beside<'a> {
    pub alloc: Global,
    /// The name of the hart that they are about, if there are several.
    pub hart: Option<&'a str>,
    /// The names that addresses have, if rows are to show those of their ranges.
    pub names: Option<AddressNames<'a>>,
}

/// Appends the names that overlap a row's range, if it has one.
fn append_names(
    out: &mut Vec<u8>,
    names: &[AddressName<'_>],
    row: &AnswerRow,
) -> Result<(), AllocError>
    ensures { OnOk result (out.new.items ≡ out.old.items ++ met_in (map named names.now) row.now) }
{
    if let (Some(first), Some(last)) = (row.first(), row.last()) {
        append_met(out, names, first, last)?;
    }
    Ok(())
}

/// Returns the row with the names that overlap its range as a last cell, if names are given.
fn with_names(row: AnswerRow, names: Option<AddressNames<'_>>) -> Result<AnswerRow, AllocError>
    ensures { IfOk result (λ named. named ≡ with_names (given_names names.entry) row) }
{
    let Some(names) = names else {
        return Ok(row);
    };
    let mut found = Vec::new(names.alloc);
    append_names(&mut found, names.all, &row)?;
    row.with_last(found)
}

/// Returns the row with the name of a hart as its first cell, if there is one.
fn with_hart(alloc: Global, row: AnswerRow, hart: Option<&str>) -> Result<AnswerRow, AllocError>
    ensures { IfOk result (λ placed. placed ≡ with_hart (option_map (λ name. name.now) hart.entry) row) }
{
    match hart {
        Some(name) => row.with_first(Vec::from_slice(alloc, name.as_bytes())?),
        None => Ok(row),
    }
}

/// Appends these rows with what stands beside their own cells.
///
/// If memory runs out, some of them may have been appended.
pub fn append_whole(
    out: &mut Vec<AnswerRow>,
    rows: Vec<AnswerRow>,
    beside: Beside<'_>,
) -> Result<(), AllocError>
    ensures { OnOk result (out.new.items ≡ out.old.items ++ map
        (whole (option_map (λ name. name.now) beside.entry.hart) (given_names beside.entry.names)) rows.items) }
{
    for row in rows {
        let named = with_names(row, beside.names)?;
        let placed = with_hart(beside.alloc, named, beside.hart)?;
        out.push(placed).map_err(|_| AllocError)?;
    }
    Ok(())
}
