//! Plain lines of a trace: words between commas without quotes, read in place, without `csv`.

ghost use Rattle.std.specs.Prelude.{◌≡◌, ◌∷◌, ◌++◌, IfSome, List, ℕ, false, true};
ghost use Rattle.csv.specs.Quoting.{needs_byte};
ghost use Rattle.csv.specs.Writing.{default_writer, needs_quotes};
ghost use Rattle.pmp_text.specs.Steps.Views.{five_words, seen_five};
ghost use Rattle.pmp_text.specs.Tables.{is_broken, records_of};
ghost use Rattle.pmp_text.specs.Traces.{is_header};

use crate::trace::row_fields::Words;

/// The beginning of a text that names the fields of the rows.
const HEADER: &[u8] = b"after,mode,kind,start,length";

/// Returns the word after this byte and the text after the word, which begins with a comma, a quote or a line end.
fn word_behind(before: u8, text: &[u8]) -> Option<(&[u8], &[u8])>
    ensures { IfSome result (λ cut. (text.now ≡ before ∷ (cut.0.now ++ cut.1.now))
        × (needs_quotes default_writer cut.0.now ≡ false)) }
{
    let (first, text) = text.split_first()?;
    if *first != before {
        return None;
    }
    for end in 0..text.len() {
        if is_apart(text[end]) {
            return Some(text.split_at(end));
        }
    }
    None
}

/// Whether a byte ends a word of a plain line, or can't be part of one.
pub fn is_apart(byte: u8) -> bool
    ensures { result ≡ needs_byte default_writer byte }
{
    byte <= b',' && matches!(byte, b',' | b'"' | b'\r' | b'\n')
}

/// Returns the words of a line between two LF, if it is a plain line of five, and the text from its own LF on.
pub fn plain_line(text: &[u8]) -> Option<(Words<'_>, &[u8])>
    ensures { IfSome result (λ line. (records_of text.now ≡ five_words (seen_five line.0) ∷ records_of line.1.now)
        × (is_broken (five_words (seen_five line.0)) ≡ false)) }
{
    let (after, text) = word_behind(b'\n', text)?;
    let (mode, text) = word_behind(b',', text)?;
    let (kind, text) = word_behind(b',', text)?;
    let (start, text) = word_behind(b',', text)?;
    let (length, text) = word_behind(b',', text)?;
    let (end, _) = text.split_first()?;
    if *end != b'\n' {
        return None;
    }
    let words = Words {
        after,
        mode,
        kind,
        start,
        length,
    };
    Some((words, text))
}

/// Returns the text from the header's LF on, if the header is a plain line.
pub fn behind_plain_header(text: &[u8]) -> Option<&[u8]>
    ensures { IfSome result (λ rest. (header : List (List ℕ)) × (is_header header ≡ true)
        × (records_of text.now ≡ header ∷ records_of rest.now)) }
{
    let rest = text.strip_prefix(HEADER)?;
    let (end, _) = rest.split_first()?;
    if *end != b'\n' {
        return None;
    }
    Some(rest)
}
