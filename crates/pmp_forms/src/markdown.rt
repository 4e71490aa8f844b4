//! Rows as tables of Markdown.

ghost use Rattle.std.specs.Prelude.{◌≡◌, ◌++◌, OnOk, codes, map};
ghost use Rattle.pmp_text.specs.Cells.{cell_value, shown_text};
ghost use Rattle.pmp_text.specs.Columns.{column_name, column_value};
ghost use Rattle.pmp_forms.specs.Markdown.{cell, cell_byte, head, head_between, is_markup, line, markdown_text, row_line};
ghost use Rattle.pmp_forms.specs.Markdown.{rows_after};

use crate::cells::shown;
use crate::table::Table;
use pmp_text::{AnswerRow, Cell, Column, RowKind};
use std::alloc::{AllocError, Global};

/// Whether a byte has a meaning in a cell that a backslash takes away.
fn is_markup(byte: u8) -> bool
    ensures { result ≡ is_markup byte }
{
    matches!(
        byte,
        b'|' | b'\\' | b'*' | b'_' | b'`' | b'[' | b']' | b'~' | b'$'
    )
}

fn append_byte(out: &mut Vec<u8>, byte: u8) -> Result<(), AllocError>
    ensures { OnOk result (out.new.items ≡ out.old.items ++ cell_byte byte) }
{
    match byte {
        b'<' => out.extend_from_slice(b"&lt;")?,
        b'&' => out.extend_from_slice(b"&amp;")?,
        b'\n' | b'\r' => out.push(b' ')?,
        _ if is_markup(byte) => out.extend_from_slice(&[b'\\', byte])?,
        _ => out.push(byte)?,
    }
    Ok(())
}

fn append_cell(out: &mut Vec<u8>, text: &[u8]) -> Result<(), AllocError>
    ensures { OnOk result (out.new.items ≡ out.old.items ++ cell text.now) }
{
    out.push(b' ')?;
    for byte in text {
        append_byte(out, *byte)?;
    }
    Ok(out.extend_from_slice(b" |")?)
}

fn append_line(out: &mut Vec<u8>, cells: &[Cell<Vec<u8>>]) -> Result<(), AllocError>
    ensures { OnOk result (out.new.items
        ≡ out.old.items ++ line (map shown_text (map (cell_value (λ text. text.items)) cells.now))) }
{
    out.push(b'|')?;
    for one in cells {
        let text = shown(*out.allocator(), one)?;
        append_cell(out, &text)?;
    }
    Ok(out.push(b'\n')?)
}

fn append_names(out: &mut Vec<u8>, columns: &[Column]) -> Result<(), AllocError>
    ensures { OnOk result
        (out.new.items ≡ out.old.items ++ line (map column_name (map column_value columns.now))) }
{
    out.push(b'|')?;
    for column in columns {
        append_cell(out, column.name().as_bytes())?;
    }
    Ok(out.push(b'\n')?)
}

fn append_rule(out: &mut Vec<u8>, columns: &[Column]) -> Result<(), AllocError>
    ensures { OnOk result
        (out.new.items ≡ out.old.items ++ line (map (λ column. codes "---") (map column_value columns.now))) }
{
    out.push(b'|')?;
    for _column in columns {
        append_cell(out, b"---")?;
    }
    Ok(out.push(b'\n')?)
}

fn append_head(out: &mut Vec<u8>, table: Table, kind: RowKind) -> Result<(), AllocError>
    ensures { OnOk result (out.new.items ≡ out.old.items ++ head table kind) }
{
    let columns = table.columns(*out.allocator(), kind)?;
    append_names(out, &columns)?;
    append_rule(out, &columns)
}

/// Appends a row after one of this kind.
fn append_row(
    out: &mut Vec<u8>,
    table: Table,
    before: RowKind,
    row: &AnswerRow,
) -> Result<(), AllocError>
    ensures { OnOk result
        (out.new.items ≡ out.old.items ++ (head_between table before row.now.kind ++ row_line row.now)) }
{
    if row.kind().number() != before.number() {
        out.push(b'\n')?;
        append_head(out, table, row.kind())?;
    }
    append_line(out, row.cells())
}

/// Appends rows after one of this kind.
fn append_others(
    out: &mut Vec<u8>,
    table: Table,
    kind: RowKind,
    rows: &[AnswerRow],
) -> Result<(), AllocError>
    ensures { OnOk result (out.new.items ≡ out.old.items ++ rows_after table kind rows.now) }
{
    let mut before = kind;
    for row in rows {
        append_row(out, table, before, row)?;
        before = row.kind();
    }
    Ok(())
}

/// Appends rows as a table of GitHub's Markdown. Where rows of another kind begin, so does another table, after an
/// empty line; without rows there is a table without rows.
///
/// The only error is that memory runs out; then a part may have been appended.
pub fn append_markdown(
    out: &mut Vec<u8>,
    table: Table,
    rows: &[AnswerRow],
) -> Result<(), AllocError>
    ensures { OnOk result (out.new.items ≡ out.old.items ++ markdown_text table rows.now) }
{
    match rows.split_first() {
        None => append_head(out, table, table.kind),
        Some((first, others)) => {
            append_head(out, table, first.kind())?;
            append_line(out, first.cells())?;
            append_others(out, table, first.kind(), others)
        }
    }
}
