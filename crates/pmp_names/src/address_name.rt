//! The names that ranges of addresses can have, and a line that gives one.

ghost use Rattle.std.specs.Prelude.{◌≡◌, option_map, position};
ghost use Rattle.std.specs.List.{list_all};
ghost use Rattle.pmp_names.specs.AddressNames.{begins_as_name, is_name, is_name_byte, is_separator, name_of_fields};
ghost use Rattle.pmp_names.specs.AddressNames.{name_said, split_comma, split_once};
ghost use Rattle.pmp_names.specs.NameLists.{said_so};

use pmp_text::{AddressName, Flaw, Refusal, read_word_number};

/// The greatest length of a name in bytes.
pub const NAME_BYTES: usize = 64;

fn is_name_byte(byte: u8) -> bool
    ensures { result ≡ is_name_byte byte }
{
    (33..=126).contains(&byte) && !matches!(byte, b'"' | b'+' | b',')
}

fn begins_as_name(name: &[u8]) -> bool
    ensures { result ≡ begins_as_name name.now }
{
    name.first().is_some_and(|first| !first.is_ascii_digit())
}

fn are_name_bytes(name: &[u8]) -> bool
    ensures { result ≡ list_all is_name_byte name.now }
{
    name.iter().all(|byte| is_name_byte(*byte))
}

/// Whether it is a name: at most `NAME_BYTES` bytes, the first not a digit, and without `,`, `+` and `"`.
pub fn is_name(name: &[u8]) -> bool
    ensures { result ≡ is_name name.now }
{
    begins_as_name(name) && are_name_bytes(name) && name.len() <= NAME_BYTES
}

fn first_at(line: &[u8], separator: u8) -> Option<usize>
    ensures { result ≡ position (is_separator separator) line.now }
{
    line.iter().position(|byte| *byte == separator)
}

/// Returns the text before the first separator, and the text after it.
fn split_once(line: &[u8], separator: u8) -> Option<(&[u8], &[u8])>
    ensures { option_map (λ parts. (parts.0.now, parts.1.now)) result ≡ split_once separator line.now }
{
    let end = first_at(line, separator)?;
    Some((&line[..end], &line[end + 1..]))
}

/// Returns the text before the first comma, and the text after it.
pub fn split_comma(line: &[u8]) -> Option<(&[u8], &[u8])>
    ensures { option_map (λ parts. (parts.0.now, parts.1.now)) result ≡ split_comma line.now }
{
    split_once(line, b',')
}

/// Returns the name in a line, or what is wrong with it: which of its three fields, or the whole line.
pub fn read_name<'a>(line: &'a [u8]) -> Result<AddressName<'a>, Flaw>
    ensures { said_so result ≡ name_said line.now }
{
    let (first, rest) = split_comma(line).ok_or(Refusal::BadRow.whole())?;
    let (last, name) = split_comma(rest).ok_or(Refusal::BadRow.whole())?;
    name_of_fields(read_word_number(first), read_word_number(last), name)
}

fn name_of_fields<'a>(
    first: Option<u64>,
    last: Option<u64>,
    name: &'a [u8],
) -> Result<AddressName<'a>, Flaw>
    ensures { said_so result ≡ name_of_fields first last name.now }
{
    let first = first.ok_or(Refusal::BadRow.part(0))?;
    let last = last.ok_or(Refusal::BadRow.part(1))?;
    if last < first {
        return Err(Refusal::BadRow.part(1));
    }
    if !is_name(name) {
        return Err(Refusal::BadRow.part(2));
    }
    Ok(AddressName { first, last, name })
}
