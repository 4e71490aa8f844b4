//! Texts of fields, with numbers instead of names.

ghost use Rattle.std.specs.Prelude.{◌≡◌, ◌++◌, ◌∷◌, ◌<◌, IfOk, IfSome, List, OnOk, length, map, ℕ};
ghost use Rattle.pmp_names.specs.NumberedTexts.{after, fields_of, is_quoted, numbered_field, numbered_fields, numbered_row};
ghost use Rattle.pmp_names.specs.NumberedTexts.{numbered_text, outside, parts_of, said_below};
ghost use Rattle.pmp_names.specs.Parts.{end_at, rest_of};
ghost use Rattle.pmp_text.specs.MetNames.{Named, named};

use crate::named_address::{read_end, read_place};
use pmp_text::{AddressName, append_line};
use std::alloc::{AllocError, Global};

/// Where a byte stands, by the quotes before it. Only quotes at the beginning of a field open a quoted part.
#[derive(Clone, Copy)]
enum Place {
    /// At the beginning of a field.
    Beginning,
    /// Later in a field, outside quotes.
    Plain,
    Quoted,
    /// Just after the quote that ends a quoted part, or the first of two that stand for one.
    Closed,
}

/// Returns where the byte after this one stands, if this one neither opens nor closes quotes.
fn outside(byte: u8) -> Place
    ensures { result ≡ outside byte }
{
    match byte {
        b',' | b'\n' | b'\r' => Place::Beginning,
        _ => Place::Plain,
    }
}

impl Place {
    fn is_quoted(self) -> bool
        ensures { result ≡ is_quoted self }
    {
        matches!(self, Place::Quoted)
    }

    /// Returns where the byte after this one stands.
    fn after(self, byte: u8) -> Place
        ensures { result ≡ after self byte }
    {
        match self {
            Place::Quoted if byte == b'"' => Place::Closed,
            Place::Quoted => Place::Quoted,
            Place::Beginning | Place::Closed if byte == b'"' => Place::Quoted,
            _ => outside(byte),
        }
    }
}

/// Returns the position of the first separator outside quotes.
fn end_at(text: &[u8], separator: u8) -> Option<usize>
    ensures value { result ≡ end_at separator text.now }
    ensures inside { IfSome result (λ end. end < length text.now) }
{
    let mut place = Place::Beginning;
    for (index, byte) in text.iter().enumerate() {
        if *byte == separator && !place.is_quoted() {
            return Some(index);
        }
        place = place.after(*byte);
    }
    None
}

/// Returns the first part of a text, and the text after its separator, if it has one.
fn split_part(text: &[u8], separator: u8) -> (&[u8], Option<&[u8]>)
    ensures { parts_of separator text.now ≡ result.0.now ∷ rest_of separator result.1 }
{
    match end_at(text, separator) {
        Some(end) => (&text[..end], Some(&text[end + 1..])),
        None => (text, None),
    }
}

/// Returns the address that a name in a field gives below this heading.
fn read_below(names: &[AddressName<'_>], head: &[u8], field: &[u8]) -> Option<u64>
    ensures { result ≡ said_below head.now (map named names.now) field.now }
{
    match head {
        b"last" => read_end(names, field),
        b"start" | b"first" => read_place(names, field),
        _ => None,
    }
}

/// Appends a field, with a number instead of a name.
fn append_field(
    out: &mut Vec<u8>,
    names: &[AddressName<'_>],
    head: &[u8],
    field: &[u8],
) -> Result<(), AllocError>
    ensures { OnOk result (out.new.items ≡ out.old.items ++ numbered_field (map named names.now) head.now field.now) }
{
    match read_below(names, head, field) {
        Some(address) => append_line(out, format_args!("0x{address:x}")),
        None => Ok(out.extend_from_slice(field)?),
    }
}

/// Returns the heading of the next column, and the rest of the header.
fn next_head(heads: &[u8]) -> (&[u8], &[u8])
    ensures { (names : List Named) → (field : List ℕ) → (fields : List (List ℕ))
        → numbered_fields names (fields_of heads.now) (field ∷ fields)
        ≡ numbered_field names result.0.now field ∷ numbered_fields names (fields_of result.1.now) fields }
{
    match split_part(heads, b',') {
        (head, Some(behind)) => (head, behind),
        (head, None) => (head, b""),
    }
}

/// Appends a row below this header, with numbers instead of names.
fn append_row(
    out: &mut Vec<u8>,
    names: &[AddressName<'_>],
    header: &[u8],
    row: &[u8],
) -> Result<(), AllocError>
    ensures { OnOk result (out.new.items ≡ out.old.items ++ numbered_row (map named names.now) header.now row.now) }
{
    let (head, mut heads) = next_head(header);
    let (field, mut rest) = split_part(row, b',');
    append_field(out, names, head, field)?;
    while let Some(behind) = rest {
        let (head, other_heads) = next_head(heads);
        let (field, other_fields) = split_part(behind, b',');
        out.push(b',')?;
        append_field(out, names, head, field)?;
        heads = other_heads;
        rest = other_fields;
    }
    Ok(())
}

/// Returns a text whose first line is the header of the others, with numbers instead of these names in the fields of
/// addresses.
pub fn number_text(
    alloc: Global,
    names: &[AddressName<'_>],
    text: &[u8],
) -> Result<Vec<u8>, AllocError>
    ensures { IfOk result (λ all. all.items ≡ numbered_text (map named names.now) text.now) }
{
    let mut all = Vec::new(alloc);
    let (header, mut rest) = split_part(text, b'\n');
    all.extend_from_slice(header)?;
    while let Some(behind) = rest {
        let (row, rows) = split_part(behind, b'\n');
        all.push(b'\n')?;
        append_row(&mut all, names, header, row)?;
        rest = rows;
    }
    Ok(all)
}
