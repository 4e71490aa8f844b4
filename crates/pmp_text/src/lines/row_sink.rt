//! Where rows go, and rows that are kept.

ghost use Rattle.std.specs.Prelude.{◌≡◌, ◌++◌, ◌∷◌, [], IfOk, List, OnErr, OnOk, codes, map, ℕ};
ghost use Rattle.pmp_text.specs.Cells.{RowValue, Word, cell_value, csv_line};
ghost use Rattle.pmp_text.specs.Columns.{address_of, end_under};

use crate::lines::NoMemory;
use crate::lines::cell::Cell;
use crate::lines::csv_rows::append_row;
use crate::lines::row_kind::{RowKind, cell_under};
use crate::sink::Sink;
use arrayvec::ArrayVec;
use std::alloc::{AllocError, Global};
use std::marker::Model;

/// Where rows go: a list that keeps them, or a text.
pub trait RowSink {
    /// These rows were added.
    ghost Adds: { List RowValue → Self → Self → Type 0 };

    ghost place: { Self → ℕ };

    /// Adds a row, or nothing.
    fn add(&mut self, kind: RowKind, cells: &[Cell<&[u8]>]) -> Result<(), NoMemory>
        ensures ok { OnOk result (Adds (record { kind = kind; cells = map (cell_value (λ text. text.now)) cells.now } ∷ [])
            self.old self.new) }
        ensures err { OnErr result (Adds [] self.old self.new) };

    /// Returns where the next row goes.
    fn position(&self) -> usize
        ensures { result ≡ place self.now };

    /// Removes the rows from this position on.
    fn go_back(&mut self, position: usize)
        ensures { (rows : List RowValue) (old : Self) → position ≡ place old → Adds rows old self.old
            → Adds [] old self.new };

    ghost none: { (rows : Self) → Adds [] rows rows };

    ghost both: { (one other : List RowValue) (first second third : Self) → Adds one first second
        → Adds other second third → Adds (one ++ other) first third };
}

/// A row that is kept.
#[derive(Drop)]
pub struct AnswerRow {
    kind: RowKind,
    cells: Vec<Cell<Vec<u8>>>,
}

impl Model for AnswerRow {
    ghost use Rattle.std.specs.Prelude.{map};
    ghost use Rattle.pmp_text.specs.Cells.{RowValue, cell_value};

    ghost Value = { RowValue };

    ghost view = { λ row. record { kind = row.kind; cells = map (cell_value (λ text. text.items)) row.cells.items } };
}

/// Returns the cell with a text of its own.
fn kept(alloc: Global, cell: &Cell<&[u8]>) -> Result<Cell<Vec<u8>>, AllocError>
    ensures { IfOk result (λ own. cell_value (λ text. text.items) own ≡ cell_value (λ text. text.now) cell.now) }
{
    Ok(match *cell {
        Cell::Nothing => Cell::Nothing,
        Cell::Number(number) => Cell::Number(number),
        Cell::Address(address) => Cell::Address(address),
        Cell::Value(value) => Cell::Value(value),
        Cell::Rights(rights) => Cell::Rights(rights),
        Cell::Verdict(verdict) => Cell::Verdict(verdict),
        Cell::Word(word) => Cell::Word(word),
        Cell::Plain(text) => Cell::Plain(Vec::from_slice(alloc, text)?),
        Cell::Text(text) => Cell::Text(Vec::from_slice(alloc, text)?),
    })
}

impl AnswerRow {
    /// Returns a row of these cells.
    pub fn of(alloc: Global, kind: RowKind, cells: &[Cell<&[u8]>]) -> Result<AnswerRow, AllocError>
        ensures { IfOk result (λ row. row ≡ record { kind = kind; cells = map (cell_value (λ text. text.now)) cells.now }) }
    {
        let mut own = Vec::new(alloc);
        for cell in cells {
            own.push(kept(alloc, cell)?).map_err(|_| AllocError)?;
        }
        Ok(AnswerRow { kind, cells: own })
    }

    pub fn kind(&self) -> RowKind
        ensures { result ≡ self.now.kind }
    {
        self.kind
    }

    pub fn cells(&self) -> &[Cell<Vec<u8>>]
        ensures { map (cell_value (λ text. text.items)) result.now ≡ self.now.cells }
    {
        &self.cells
    }

    /// Returns the byte address of the first byte of its range, if it has one.
    pub fn first(&self) -> Option<u64>
        ensures { result ≡ end_under (codes "first") self.now }
    {
        address_of(cell_under("first", self.kind.columns(), &self.cells)?)
    }

    /// Returns the byte address of the last byte of its range, if it has one.
    pub fn last(&self) -> Option<u64>
        ensures { result ≡ end_under (codes "last") self.now }
    {
        address_of(cell_under("last", self.kind.columns(), &self.cells)?)
    }

    /// Appends the row as a line of CSV, or nothing.
    pub fn append_to<S: Sink>(&self, out: &mut S) -> Result<(), NoMemory>
        ensures ok { OnOk result (S.text out.new ≡ S.text out.old ++ csv_line self.now.cells) }
        ensures err { OnErr result (S.text out.new ≡ S.text out.old) }
    {
        let cells = borrowed_cells(*self.cells.allocator(), &self.cells)?;
        append_row(out, &cells)
    }

    /// Returns the row with this text before its cells.
    pub fn with_first(self, text: Vec<u8>) -> Result<AnswerRow, AllocError>
        ensures { IfOk result (λ row. row ≡ record { kind = self.kind; cells = Word text.items ∷ self.cells }) }
    {
        let mut row = self;
        row.cells
            .insert(0, Cell::Plain(text))
            .map_err(|_| AllocError)?;
        Ok(row)
    }

    /// Returns the row with this text after its cells.
    pub fn with_last(self, text: Vec<u8>) -> Result<AnswerRow, AllocError>
        ensures { IfOk result (λ row. row ≡ record { kind = self.kind; cells = self.cells ++ Word text.items ∷ [] }) }
    {
        let mut row = self;
        row.cells.push(Cell::Plain(text)).map_err(|_| AllocError)?;
        Ok(row)
    }
}

/// Returns the same cells, without texts of their own.
fn borrowed_cells<'c>(
    alloc: Global,
    cells: &'c [Cell<Vec<u8>>],
) -> Result<Vec<Cell<&'c [u8]>>, AllocError>
    ensures { IfOk result (λ all. map (cell_value (λ text. text.now)) all.items
        ≡ map (cell_value (λ text. text.items)) cells.now) }
{
    let mut all = Vec::new(alloc);
    for cell in cells {
        all.push(cell.borrowed())?;
    }
    Ok(all)
}

/// Returns the byte address in a cell, if it is one.
fn address_of(cell: &Cell<Vec<u8>>) -> Option<u64>
    ensures { result ≡ address_of (cell_value (λ text. text.items) cell.now) }
{
    match cell {
        Cell::Address(address) => Some(*address),
        _ => None,
    }
}

impl RowSink for Vec<AnswerRow> {
    ghost use Rattle.std.specs.Prelude.{length};
    ghost use Rattle.std.proofs.Common.{sym, ◌∙◌, ap, append_assoc, append-nil};

    ghost Adds = { λ rows before after. after.items ≡ before.items ++ rows };

    ghost place = { λ rows. length rows.items };

    fn add(&mut self, kind: RowKind, cells: &[Cell<&[u8]>]) -> Result<(), NoMemory> {
        let row = AnswerRow::of(*self.allocator(), kind, cells)?;
        self.push(row).map_err(|_| AllocError)?;
        Ok(())
    }

    fn position(&self) -> usize {
        self.len()
    }

    fn go_back(&mut self, position: usize) {
        self.truncate(position);
    }

    ghost none = { λ rows. sym (append-nil rows.items) };

    ghost both = { λ one other first second third start end. end ∙ ap (λ (l : List RowValue). l ++ other) start
        ∙ append_assoc first.items one other };
}

impl RowSink for Vec<u8> {
    ghost use Rattle.std.proofs.Common.{sym, ◌∙◌, append-nil};
    ghost use Rattle.std.specs.Prelude.{length};
    ghost use Rattle.pmp_text.specs.Cells.{csv_text};
    ghost use Rattle.pmp_text.specs.CsvTexts.{both_texts};

    ghost Adds = { λ rows before after. after.items ≡ before.items ++ csv_text rows };

    ghost place = { λ text. length text.items };

    #[tactic(auto, using(crate::specs::CsvTexts::one_text))]
    fn add(&mut self, kind: RowKind, cells: &[Cell<&[u8]>]) -> Result<(), NoMemory> {
        append_row(self, cells)
    }

    fn position(&self) -> usize {
        self.len()
    }

    fn go_back(&mut self, position: usize) {
        self.truncate(position);
    }

    ghost none = { λ text. sym (append-nil text.items) };

    ghost both = { λ one other first second third start end. both_texts one other first.items second.items third.items
        start end };
}

impl<const N: usize> RowSink for ArrayVec<u8, N> {
    ghost use Rattle.std.proofs.Common.{sym, ◌∙◌, append-nil};
    ghost use Rattle.std.specs.Prelude.{length};
    ghost use Rattle.pmp_text.specs.Cells.{csv_text};
    ghost use Rattle.pmp_text.specs.CsvTexts.{both_texts};

    ghost Adds = { λ rows before after. after.items ≡ before.items ++ csv_text rows };

    ghost place = { λ text. length text.items };

    #[tactic(auto, using(crate::specs::CsvTexts::one_text))]
    fn add(&mut self, kind: RowKind, cells: &[Cell<&[u8]>]) -> Result<(), NoMemory> {
        append_row(self, cells)
    }

    fn position(&self) -> usize {
        self.len()
    }

    fn go_back(&mut self, position: usize) {
        self.truncate(position);
    }

    ghost none = { λ text. sym (append-nil text.items) };

    ghost both = { λ one other first second third start end. both_texts one other first.items second.items third.items
        start end };
}
