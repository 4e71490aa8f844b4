//! Rows as lines of CSV.

ghost use Rattle.std.specs.Prelude.{◌≡◌, ◌++◌, OnErr, OnOk, map};
ghost use Rattle.std.specs.Io.{StartsWith};
ghost use Rattle.pmp_text.specs.Cells.{cell_text, cell_value, csv_line};
ghost use Rattle.pmp_text.specs.Reports.{fields_after};

use crate::lines::NoMemory;
use crate::lines::cell::Cell;
use crate::lines::field::append_field;
use crate::sink::Sink;

/// Appends a cell, in quotes if it needs them, or a prefix of it.
fn append_cell<S: Sink>(out: &mut S, cell: &Cell<&[u8]>) -> Result<(), NoMemory>
    ensures ok { OnOk result (S.text out.new
        ≡ S.text out.old ++ cell_text (cell_value (λ text. text.now) cell.now)) }
    ensures err { OnErr result (StartsWith (S.text out.new) (S.text out.old)) }
{
    match *cell {
        Cell::Text(text) => append_field(out, text),
        Cell::Nothing | Cell::Number(_) | Cell::Address(_) | Cell::Value(_) => cell.append_to(out),
        Cell::Rights(_) | Cell::Verdict(_) | Cell::Word(_) | Cell::Plain(_) => cell.append_to(out),
    }
}

/// Appends the cells after the first, each after a comma, and LF, or a prefix of this.
fn append_after<S: Sink>(out: &mut S, cells: &[Cell<&[u8]>]) -> Result<(), NoMemory>
    ensures ok { OnOk result (S.text out.new ≡ S.text out.old
        ++ fields_after (map cell_text (map (cell_value (λ text. text.now)) cells.now))) }
    ensures err { OnErr result (StartsWith (S.text out.new) (S.text out.old)) }
{
    for cell in cells {
        out.append(b",")?;
        append_cell(out, cell)?;
    }
    out.append(b"\n")
}

/// Appends a row of these cells, or nothing.
pub fn append_row<S: Sink>(out: &mut S, cells: &[Cell<&[u8]>]) -> Result<(), NoMemory>
    ensures ok { OnOk result (S.text out.new
        ≡ S.text out.old ++ csv_line (map (cell_value (λ text. text.now)) cells.now)) }
    ensures err { OnErr result (S.text out.new ≡ S.text out.old) }
{
    let before = out.position();
    let written = append_cells(out, cells);
    if written.is_err() {
        out.go_back(before);
    }
    written
}

/// Appends a row of these cells, or a prefix of it.
fn append_cells<S: Sink>(out: &mut S, cells: &[Cell<&[u8]>]) -> Result<(), NoMemory>
    ensures ok { OnOk result (S.text out.new
        ≡ S.text out.old ++ csv_line (map (cell_value (λ text. text.now)) cells.now)) }
    ensures err { OnErr result (StartsWith (S.text out.new) (S.text out.old)) }
{
    match cells.split_first() {
        Some((first, rest)) => {
            append_cell(out, first)?;
            append_after(out, rest)
        }
        None => out.append(b"\n"),
    }
}
