//! What cells show.

ghost use Rattle.std.specs.Prelude.{◌≡◌, ◌++◌, IfOk, OnOk, map};
ghost use Rattle.pmp_text.specs.Cells.{cell_value, shown_text};
ghost use Rattle.pmp_text.specs.Columns.{column_value};
ghost use Rattle.pmp_forms.specs.Tables.{number_in, number_under, text_under};

use pmp_text::{AnswerRow, Cell, Column, cell_under};
use std::alloc::{AllocError, Global};

/// Returns what a cell shows.
pub fn shown(alloc: Global, cell: &Cell<Vec<u8>>) -> Result<Vec<u8>, AllocError>
    ensures { IfOk result (λ text. text.items ≡ shown_text (cell_value (λ text. text.items) cell.now)) }
{
    let mut text = Vec::new(alloc);
    cell.borrowed().append_to(&mut text)?;
    Ok(text)
}

/// Returns the number in a cell, if it is one.
pub fn number_in(cell: &Cell<Vec<u8>>) -> Option<u64>
    ensures { result ≡ number_in (cell_value (λ text. text.items) cell.now) }
{
    match cell {
        Cell::Number(number) => Some(*number),
        _ => None,
    }
}

/// Returns the number of a row under the column with this name, if there is one.
pub fn number_under(name: &str, columns: &[Column], row: &AnswerRow) -> Option<u64>
    ensures { result ≡ number_under name.now (map column_value columns.now) row.now.cells }
{
    number_in(cell_under(name, columns, row.cells())?)
}

/// Appends what a row shows under the column with this name, or nothing.
pub fn append_under(
    out: &mut Vec<u8>,
    name: &str,
    columns: &[Column],
    row: &AnswerRow,
) -> Result<(), AllocError>
    ensures { OnOk result
        (out.new.items ≡ out.old.items ++ text_under name.now (map column_value columns.now) row.now.cells) }
{
    match cell_under(name, columns, row.cells()) {
        Some(cell) => cell.borrowed().append_to(out),
        None => Ok(()),
    }
}

/// Returns what a row shows under the column with this name, or nothing.
pub fn text_under(
    alloc: Global,
    name: &str,
    columns: &[Column],
    row: &AnswerRow,
) -> Result<Vec<u8>, AllocError>
    ensures { IfOk result (λ text. text.items ≡ text_under name.now (map column_value columns.now) row.now.cells) }
{
    let mut text = Vec::new(alloc);
    append_under(&mut text, name, columns, row)?;
    Ok(text)
}
