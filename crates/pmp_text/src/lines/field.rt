//! CSV fields of arbitrary bytes.

ghost use Rattle.std.specs.Prelude.{◌≡◌, ◌++◌, ◌∷◌, [], OnErr, OnOk, codes};
ghost use Rattle.std.specs.Io.{StartsWith};
ghost use Rattle.csv.specs.Writing.{default_writer, escaped, field_text, needs_quotes};

use crate::sink::Sink;
use crate::trace::is_apart;
use std::alloc::AllocError;
use std::slice;

/// Returns a byte as it is written between quotes: a quote is doubled.
#[tactic(auto, unfolding(csv::specs::Writing::escaped))]
fn escaped_byte(byte: &u8) -> &[u8]
    ensures { result.now ≡ escaped default_writer (byte.now ∷ []) }
{
    match *byte {
        b'"' => b"\"\"",
        _ => slice::from_ref(byte),
    }
}

/// Appends the text between the quotes of a field, or a prefix of it.
fn append_escaped<S: Sink>(out: &mut S, field: &[u8]) -> Result<(), AllocError>
    ensures ok { OnOk result (S.text out.new ≡ S.text out.old ++ escaped default_writer field.now) }
    ensures err { OnErr result (StartsWith (S.text out.new) (S.text out.old)) }
{
    for byte in field {
        out.append(escaped_byte(byte))?;
    }
    Ok(())
}

/// Whether a CSV reader would split a field written without quotes.
fn needs_quotes(field: &[u8]) -> bool
    ensures { result ≡ needs_quotes default_writer field.now }
{
    field.iter().any(|byte| is_apart(*byte))
}

/// Appends a field, in quotes if it needs them, or a prefix of it.
pub fn append_field<S: Sink>(out: &mut S, field: &[u8]) -> Result<(), AllocError>
    ensures ok { OnOk result (S.text out.new ≡ S.text out.old ++ field_text default_writer field.now) }
    ensures err { OnErr result (StartsWith (S.text out.new) (S.text out.old)) }
{
    if !needs_quotes(field) {
        return out.append(field);
    }
    out.append(b"\"")?;
    append_escaped(out, field)?;
    out.append(b"\"")
}
