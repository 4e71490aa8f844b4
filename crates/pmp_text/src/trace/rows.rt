//! The rows of a piece of a trace, one after another, read at the position of the piece.

ghost use Rattle.std.specs.Prelude.{◌≡◌, ◌+◌, ◌^◌, ◌<◌, ◌≤◌, ◌⊎◌, [], IfErr, IfOk, IfSome, None, Ok, Some};
ghost use Rattle.pmp_text.specs.LongTraces.{IsHeaded, beginning, has_begun, piece_fault, row_records};
ghost use Rattle.pmp_text.specs.LongTraces.{too_long_for_rows};
ghost use Rattle.pmp_text.specs.Outcomes.{no_memory};
ghost use Rattle.pmp_text.specs.RowsLeft.{IsNextRow, IsOutOfNumbers, place_after};
ghost use Rattle.pmp_text.specs.Steps.Records.{IsNext};
ghost use Rattle.pmp_text.specs.Tables.{records_of};
ghost use Rattle.pmp_text.specs.Traces.{first_row_fault};

use crate::fault::{Fault, Source};
use crate::flaw::Flaw;
use crate::moments::Moments;
use crate::refusal::Refusal;
use crate::trace::TraceRow;
use crate::trace::plain::{behind_plain_header, plain_line};
use crate::trace::records::Records;
use crate::trace::row_fields::{RowFields, is_header};
use std::alloc::Global;
use std::marker::Model;

/// The position of a piece of a trace.
#[derive(Clone, Copy, PartialEq, Eq)]
pub struct Position {
    /// Whether the header was read.
    pub begun: bool,
    /// How many publications the previous row asks for, if there is one.
    pub last: Option<u64>,
    /// The number of the next row.
    pub next: u64,
    /// The number of the first row whose start is 14 digits without `0x`, if one was read.
    pub bare: Option<u64>,
}

impl Position {
    /// Returns the position where a trace begins whose first row has this number.
    pub fn beginning(first: u64) -> Position
        ensures { result ≡ beginning first }
    {
        Position {
            begun: false,
            last: None,
            next: first,
            bare: None,
        }
    }

    /// Returns the position after one more row. If its number is the last one there is, the trace is too long.
    fn behind(self, row: &TraceRow) -> Result<Position, Fault>
        ensures ok { IfOk result (λ place. (self.next + 1 < 2 ^ 64) × (place ≡ place_after self row.now)) }
        ensures err { IfErr result (λ fault. (fault ≡ too_long_for_rows) × (2 ^ 64 ≤ self.next + 1)) }
    {
        let next = self
            .next
            .checked_add(1)
            .ok_or(Refusal::TooLong.whole().at_row(Source::Trace, 0))?;
        Ok(Position {
            begun: self.begun,
            last: Some(row.after),
            next,
            bare: self.bare.or(row.is_bare.then_some(self.next)),
        })
    }
}

/// What a record says as a row, or what is invalid in it.
type Said = Result<RowFields, Flaw>;

/// The remaining rows of a piece. A contract sees their records, the moments of the script they refer to, and their
/// position.
#[derive(Drop)]
pub struct RowReader<'a> {
    alloc: Global,
    /// The text from the line end before the next row on, while all lines so far were plain.
    lines: Option<&'a [u8]>,
    /// The remaining text once a line isn't plain.
    records: Records<'a>,
    moments: &'a Moments<'a>,
    place: Position,
}

impl<'a> Model for RowReader<'a> {
    ghost use Rattle.std.specs.Prelude.{None, Some};
    ghost use Rattle.pmp_text.specs.RowsLeft.{RowsLeft};
    ghost use Rattle.pmp_text.specs.Steps.Records.{lines_or};

    ghost Value = { RowsLeft };

    ghost view = { λ r. record {
      records = lines_or r.lines r.records.left;
      moments = r.moments.now;
      place = r.place;
    } };
}

/// Returns what the next record says, if there is one.
fn next_said(records: &mut Records<'_>, moments: &Moments<'_>) -> Result<Option<Said>, Fault>
    ensures some { IfOk result (λ found. IfSome found (λ said.
        IsNext moments.now records.old.left said records.new.left)) }
    ensures end { result ≡ Ok None → (records.old.left ≡ []) × (records.new.left ≡ []) }
    ensures failed { IfErr result (λ fault. fault ≡ no_memory) }
{
    if records.read()? {
        Ok(Some(RowFields::read(records.fields(), moments)))
    } else {
        Ok(None)
    }
}

impl<'a> RowReader<'a> {
    /// Returns the rows of a piece at that position, for a script with these moments, else the header's fault.
    ///
    /// A piece that isn't the first one begins with the preceding line end, because a byte-order mark is recognized at
    /// the beginning of a text.
    pub fn open(
        alloc: Global,
        text: &'a [u8],
        moments: &'a Moments<'a>,
        place: Position,
    ) -> Result<RowReader<'a>, Fault>
        ensures header { IfOk result (λ _. IsHeaded place.begun (records_of text.now)) }
        ensures rows { IfOk result (λ rows. rows ≡ record {
          records = row_records place.begun (records_of text.now);
          moments = moments.now;
          place = record place { begun = has_begun place.begun (records_of text.now) };
        }) }
        ensures err { IfErr result (λ fault. (piece_fault moments.now place (records_of text.now) ≡ Some fault)
            ⊎ (fault ≡ no_memory)) }
    {
        let mut rows = RowReader {
            alloc,
            lines: Some(text),
            records: Records::open(alloc, text),
            moments,
            place,
        };
        if place.begun {
            return Ok(rows);
        }
        rows.lines = behind_plain_header(text);
        if rows.lines.is_none() {
            if !rows.records.read()? {
                return Ok(rows);
            }
            if !is_header(rows.records.fields()) {
                return Err(Refusal::BadHeader.whole().at_row(Source::Trace, 0));
            }
        }
        rows.place.begun = true;
        Ok(rows)
    }

    /// Returns the position of the next row.
    pub fn place(&self) -> Position
        ensures { result ≡ self.now.place }
    {
        self.place
    }

    /// Returns what the next record says, if there is one.
    fn next_fields(&mut self) -> Result<Option<Said>, Fault>
        ensures some { IfOk result (λ found. IfSome found (λ said.
            IsNext self.old.moments self.old.records said self.new.records)) }
        ensures end { result ≡ Ok None → (self.old.records ≡ []) × (self.new.records ≡ []) }
        ensures failed { IfErr result (λ fault. fault ≡ no_memory) }
        ensures moments { self.new.moments ≡ self.old.moments }
        ensures place { self.new.place ≡ self.old.place }
    {
        if let Some(text) = self.lines {
            if let Some((words, rest)) = plain_line(text) {
                self.lines = Some(rest);
                return Ok(Some(RowFields::of_words(words, self.moments)));
            }
            self.records.reopen(self.alloc, text);
            self.lines = None;
        }
        next_said(&mut self.records, self.moments)
    }

    /// Returns the next row, if there is one. After an error the state of the rest is unspecified.
    pub fn next(&mut self) -> Result<Option<TraceRow>, Fault>
        ensures row { IfOk result (λ found. IfSome found (λ row. IsNextRow self.old row self.new)) }
        ensures end { result ≡ Ok None → (self.old.records ≡ []) × (self.new ≡ self.old) }
        ensures err { IfErr result (λ fault.
            (first_row_fault self.old.moments self.old.place.last self.old.place.next self.old.records
            ≡ Some fault) ⊎ (fault ≡ no_memory)
            ⊎ ((fault ≡ too_long_for_rows) × IsOutOfNumbers self.old)) }
    {
        let Some(said) = self.next_fields()? else {
            return Ok(None);
        };
        let moments = self.moments;
        let checked = match said {
            Ok(fields) => fields.check(moments.publications, self.place.last),
            Err(flaw) => Err(flaw),
        };
        match checked {
            Ok(row) => {
                self.place = self.place.behind(&row)?;
                Ok(Some(row))
            }
            Err(flaw) => Err(flaw.at_row(Source::Trace, self.place.next)),
        }
    }
}
