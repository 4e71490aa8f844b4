//! Rows as JSON.

ghost use Rattle.std.specs.Prelude.{◌≡◌, ◌++◌, ◌∷◌, IfOk, OnOk, false, map};
ghost use Rattle.std.specs.List.{flat_map};
ghost use Rattle.serde_json.specs.Data.{string};
ghost use Rattle.serde_json.specs.View.{view};
ghost use Rattle.serde_json.specs.Written.{comma_if, compact_text, has_float, members_text};
ghost use Rattle.pmp_text.specs.Cells.{cell_value};
ghost use Rattle.pmp_text.specs.Columns.{column_name, column_value};
ghost use Rattle.pmp_forms.specs.Json.{datum, json_text, members, object_after, row_object};

use crate::cells::{number_in, shown};
use crate::table::Table;
use pmp_text::{AnswerRow, Cell, Column};
use serde_json::Value;
use std::alloc::{AllocError, Global};

fn append_value(out: &mut Vec<u8>, value: &Value) -> Result<(), AllocError>
    requires { has_float (view value.now) ≡ false }
    ensures { OnOk result (out.new.items ≡ out.old.items ++ compact_text (view value.now)) }
{
    let text = value.to_string(*out.allocator())?;
    Ok(out.extend_from_slice(text.as_bytes())?)
}

/// Returns what a cell says in a column.
fn datum(alloc: Global, column: Column, cell: &Cell<Vec<u8>>) -> Result<Value, AllocError>
    ensures { IfOk result (λ value. view value
        ≡ datum (column_value column) (cell_value (λ text. text.items) cell.now)) }
{
    if !column.is_number() {
        let text = shown(alloc, cell)?;
        return Ok(Value::String(String::from_utf8_lossy(alloc, &text)?));
    }
    match number_in(cell) {
        Some(number) => Ok(Value::from(number)),
        None => Ok(Value::Null),
    }
}

/// Appends a member, behind others or not.
fn append_member(
    out: &mut Vec<u8>,
    is_behind: bool,
    column: Column,
    cell: &Cell<Vec<u8>>,
) -> Result<(), AllocError>
    ensures { OnOk result (out.new.items ≡ out.old.items ++ (comma_if is_behind
        ++ (compact_text (string (column_name (column_value column)))
        ++ 58 ∷ compact_text (datum (column_value column) (cell_value (λ text. text.items) cell.now))))) }
{
    if is_behind {
        out.push(b',')?;
    }
    let name = Value::String(String::from_str(*out.allocator(), column.name())?);
    append_value(out, &name)?;
    out.push(b':')?;
    let value = datum(*out.allocator(), column, cell)?;
    append_value(out, &value)
}

/// Appends the cells under the names of their columns, and `}`.
fn append_members(
    out: &mut Vec<u8>,
    columns: &[Column],
    cells: &[Cell<Vec<u8>>],
) -> Result<(), AllocError>
    ensures { OnOk result (out.new.items ≡ out.old.items ++ members_text false
        (members (map column_value columns.now) (map (cell_value (λ text. text.items)) cells.now))) }
{
    let mut heads = columns;
    let mut rest = cells;
    let mut is_behind = false;
    while let Some((column, other_heads)) = heads.split_first() {
        let Some((cell, other_cells)) = rest.split_first() else {
            return Ok(out.push(b'}')?);
        };
        append_member(out, is_behind, *column, cell)?;
        is_behind = true;
        heads = other_heads;
        rest = other_cells;
    }
    Ok(out.push(b'}')?)
}

fn append_row(out: &mut Vec<u8>, table: Table, row: &AnswerRow) -> Result<(), AllocError>
    ensures { OnOk result (out.new.items ≡ out.old.items ++ row_object table row.now) }
{
    let columns = table.columns(*out.allocator(), row.kind())?;
    out.push(b'{')?;
    append_members(out, &columns, row.cells())
}

/// Appends rows, each after a comma and LF.
fn append_others(out: &mut Vec<u8>, table: Table, rows: &[AnswerRow]) -> Result<(), AllocError>
    ensures { OnOk result (out.new.items ≡ out.old.items ++ flat_map (object_after table) rows.now) }
{
    for row in rows {
        out.extend_from_slice(b",\n")?;
        append_row(out, table, row)?;
    }
    Ok(())
}

/// Appends rows as a JSON array with an object for each row, each on a line of its own.
///
/// The members are the cells under their columns' names, in order: in a column of numbers a number, or null if the cell
/// has none, and otherwise a string. The only error is that memory runs out; then a part may have been appended.
pub fn append_json(out: &mut Vec<u8>, table: Table, rows: &[AnswerRow]) -> Result<(), AllocError>
    ensures { OnOk result (out.new.items ≡ out.old.items ++ json_text table rows.now) }
{
    match rows.split_first() {
        None => Ok(out.extend_from_slice(b"[]\n")?),
        Some((first, others)) => {
            out.extend_from_slice(b"[\n")?;
            append_row(out, table, first)?;
            append_others(out, table, others)?;
            Ok(out.extend_from_slice(b"\n]\n")?)
        }
    }
}
