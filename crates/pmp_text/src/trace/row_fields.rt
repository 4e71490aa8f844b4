//! The contents of one record of a trace.

ghost use Rattle.std.specs.Prelude.{◌≡◌, ◌∷◌, [], IfOk, IfErr, None, Some, option_map};
ghost use Rattle.std.specs.List.{list_any};
ghost use Rattle.csv.specs.Records.{fields_of};
ghost use Rattle.pmp_text.specs.Steps.Views.{seen_five};
ghost use Rattle.pmp_text.specs.Tables.{is_broken, is_line_end};
ghost use Rattle.pmp_text.specs.Traces.{fields_fault, five_fields, is_header, row_fields, row_in, row_of_fields};

use crate::access_words::{read_kind, read_mode};
use crate::flaw::Flaw;
use crate::moments::Moments;
use crate::numbers::{is_bare, read_word_number};
use crate::refusal::Refusal;
use crate::trace::TraceRow;
use crate::words::is_word;
use csv::ByteRecord;
use pmp_core::{Access, AccessFault, Kind, Mode};

/// What the five fields of a row say.
#[derive(Clone, Copy)]
pub struct RowFields {
    /// How many publications are done.
    pub after: u64,
    pub mode: Mode,
    pub kind: Kind,
    pub start: u64,
    pub length: u64,
    /// Whether the start is 14 digits without `0x`.
    pub is_bare: bool,
}

/// The five fields of a record.
#[derive(Clone, Copy)]
pub struct Words<'a> {
    pub after: &'a [u8],
    pub mode: &'a [u8],
    pub kind: &'a [u8],
    pub start: &'a [u8],
    pub length: &'a [u8],
}

/// Returns the fields of a record that has five.
#[tactic(auto, using(crate::proofs::Fields::by_places))]
fn five_fields(fields: &ByteRecord) -> Option<Words<'_>>
    ensures { option_map seen_five result ≡ five_fields (fields_of fields.now) }
{
    if fields.get(5).is_some() {
        return None;
    }
    Some(Words {
        after: fields.get(0)?,
        mode: fields.get(1)?,
        kind: fields.get(2)?,
        start: fields.get(3)?,
        length: fields.get(4)?,
    })
}

fn has_line_end(field: &[u8]) -> bool
    ensures { result ≡ list_any is_line_end field.now }
{
    field.iter().any(|byte| matches!(*byte, b'\r' | b'\n'))
}

/// Whether a record is the header of the rows.
pub fn is_header(fields: &ByteRecord) -> bool
    ensures { result ≡ is_header (fields_of fields.now) }
{
    let Some(words) = five_fields(fields) else {
        return false;
    };
    is_word(words.after, b"after")
        && is_word(words.mode, b"mode")
        && is_word(words.kind, b"kind")
        && is_word(words.start, b"start")
        && is_word(words.length, b"length")
}

impl Words<'_> {
    /// Whether one of them has a line end, so that the record spans several lines.
    fn have_line_end(self) -> bool
        ensures { result ≡ is_broken (self.entry.after.now ∷ self.entry.mode.now ∷ self.entry.kind.now
            ∷ self.entry.start.now ∷ self.entry.length.now ∷ []) }
    {
        has_line_end(self.after)
            || has_line_end(self.mode)
            || has_line_end(self.kind)
            || has_line_end(self.start)
            || has_line_end(self.length)
    }
}

impl RowFields {
    /// Returns what a record says as a row, or which field is invalid: all of them if the record spans several lines.
    pub fn read(fields: &ByteRecord, moments: &Moments<'_>) -> Result<RowFields, Flaw>
        ensures { result ≡ row_in moments.now (fields_of fields.now) }
    {
        let words = five_fields(fields).ok_or(Refusal::BadRow.whole())?;
        if words.have_line_end() {
            return Err(Refusal::BadRow.whole());
        }
        RowFields::of_words(words, moments)
    }

    /// Returns what the five fields of a record say, or which one is invalid.
    pub fn of_words(words: Words<'_>, moments: &Moments<'_>) -> Result<RowFields, Flaw>
        ensures { result ≡ row_of_fields moments.now (seen_five words.entry) }
    {
        let after = moments
            .read_after(words.after)
            .map_err(|kind| kind.part(0))?;
        Ok(RowFields {
            after,
            mode: read_mode(words.mode).ok_or(Refusal::BadRow.part(1))?,
            kind: read_kind(words.kind).ok_or(Refusal::BadRow.part(2))?,
            start: read_word_number(words.start).ok_or(Refusal::BadRow.part(3))?,
            length: read_word_number(words.length).ok_or(Refusal::BadRow.part(4))?,
            is_bare: is_bare(words.start),
        })
    }

    /// Returns the row, for a script with the given number of publications and after a row that asks for `last`.
    pub fn check(self, publications: u64, last: Option<u64>) -> Result<TraceRow, Flaw>
        ensures ok { IfOk result (λ row. (fields_fault publications last self ≡ None) × (row_fields row ≡ self)) }
        ensures err { IfErr result (λ flaw. fields_fault publications last self ≡ Some flaw) }
    {
        if self.after > publications {
            return Err(Refusal::BadAfter.part(0));
        }
        if last.is_some_and(|last| self.after < last) {
            return Err(Refusal::Order.part(0));
        }
        match Access::new(self.mode, self.kind, self.start, self.length) {
            Ok(access) => Ok(TraceRow {
                after: self.after,
                access,
                is_bare: self.is_bare,
            }),
            Err(AccessFault::BadLength) => Err(Refusal::BadLength.part(4)),
            Err(AccessFault::PastEnd) => Err(Refusal::PastEnd.part(3)),
        }
    }
}
