//! The kinds of rows, and their columns.

ghost use Rattle.std.specs.Prelude.{◌≡◌, map, option_map};
ghost use Rattle.pmp_text.specs.Cells.{cell_value};
ghost use Rattle.pmp_text.specs.Columns.{cell_under, column_name, column_value, columns, is_number, kind_number};

use crate::lines::cell::Cell;
use crate::lines::columns;

/// A kind of row.
#[derive(Clone, Copy, Debug, PartialEq, Eq)]
pub enum RowKind {
    /// A run of a map.
    Run,
    Entry,
    /// What an event does to a register, or whether it reads as expected.
    Effect,
    Verdict,
    /// A verdict with a name and a comment.
    LabeledVerdict,
    Finding,
    /// A range in which two register files differ in what they let the modes do.
    Rights,
    /// A range in which two register files differ in how they lock.
    Locks,
    /// Why an access is decided as it is.
    Reason,
    /// The decision on an access.
    Answer,
}

/// A column, by its name. The bytes of a row's range are those from the address under `first` to that under `last`.
#[derive(Clone, Copy, Debug)]
pub enum Column {
    /// Of decimal numbers, or cells without one.
    Number(&'static str),
    /// Of addresses, words, rights, values of registers, or any texts.
    Text(&'static str),
}

impl Column {
    pub fn name(self) -> &'static str
        ensures { result.now ≡ column_name (column_value self) }
    {
        match self {
            Column::Number(name) | Column::Text(name) => name,
        }
    }

    pub fn is_number(self) -> bool
        ensures { result ≡ is_number (column_value self) }
    {
        matches!(self, Column::Number(_))
    }
}

/// Returns the cell under the first column with this name.
pub fn cell_under<'c>(
    name: &str,
    columns: &[Column],
    cells: &'c [Cell<Vec<u8>>],
) -> Option<&'c Cell<Vec<u8>>>
    ensures { option_map (λ cell. cell_value (λ text. text.items) cell.now) result
        ≡ cell_under name.now (map column_value columns.now) (map (cell_value (λ text. text.items)) cells.now) }
{
    let mut heads = columns;
    let mut rest = cells;
    while let (Some((column, other_heads)), Some((cell, other_cells))) = (
        heads.split_first(),
        rest.split_first(),
    ) {
        if column.name() == name {
            return Some(cell);
        }
        heads = other_heads;
        rest = other_cells;
    }
    None
}

impl RowKind {
    /// Returns the columns of such rows.
    pub fn columns(self) -> &'static [Column]
        ensures { map column_value result.now ≡ columns self }
    {
        match self {
            RowKind::Run => columns::RUNS,
            RowKind::Entry => columns::ENTRIES,
            RowKind::Effect => columns::EFFECTS,
            RowKind::Verdict => columns::VERDICTS,
            RowKind::LabeledVerdict => columns::LABELED_VERDICTS,
            RowKind::Finding => columns::FINDINGS,
            RowKind::Rights => columns::RIGHTS,
            RowKind::Locks => columns::LOCKS,
            RowKind::Reason => columns::REASONS,
            RowKind::Answer => columns::ANSWERS,
        }
    }

    /// Returns a number that no other kind has.
    pub fn number(self) -> u8
        ensures { result ≡ kind_number self }
    {
        match self {
            RowKind::Run => 0,
            RowKind::Entry => 1,
            RowKind::Effect => 2,
            RowKind::Verdict => 3,
            RowKind::LabeledVerdict => 4,
            RowKind::Finding => 5,
            RowKind::Rights => 6,
            RowKind::Locks => 7,
            RowKind::Reason => 8,
            RowKind::Answer => 9,
        }
    }
}
