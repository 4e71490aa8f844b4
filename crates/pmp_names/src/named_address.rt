//! Addresses that words give by name.

ghost use Rattle.std.specs.Prelude.{◌≡◌, map, option_map, position};
ghost use Rattle.pmp_names.specs.NamedAddresses.{address_said, end_said, find_name, is_plus, place_said};
ghost use Rattle.pmp_text.specs.MetNames.{named};

use pmp_text::{AddressName, read_word_number};

fn plus_at(word: &[u8]) -> Option<usize>
    ensures { result ≡ position is_plus word.now }
{
    word.iter().position(|byte| *byte == b'+')
}

/// Returns the first of these names that matches.
fn find_name<'a>(names: &[AddressName<'a>], name: &[u8]) -> Option<AddressName<'a>>
    ensures { option_map named result ≡ find_name (map named names.now) name.now }
{
    for one in names {
        if one.name == name {
            return Some(*one);
        }
    }
    None
}

/// Returns the address of `NAME`, its first byte, or `NAME+OFFSET`.
pub fn read_place(names: &[AddressName<'_>], word: &[u8]) -> Option<u64>
    ensures { result ≡ place_said (map named names.now) word.now }
{
    match plus_at(word) {
        None => Some(find_name(names, word)?.first),
        Some(plus) => {
            let first = find_name(names, &word[..plus])?.first;
            first.checked_add(read_word_number(&word[plus + 1..])?)
        }
    }
}

/// Returns the address at which a range ends that is given up to `NAME`, its last byte, or `NAME+OFFSET`.
pub fn read_end(names: &[AddressName<'_>], word: &[u8]) -> Option<u64>
    ensures { result ≡ end_said (map named names.now) word.now }
{
    match plus_at(word) {
        None => Some(find_name(names, word)?.last),
        Some(_) => read_place(names, word),
    }
}

/// Returns the address in a word, given as a number or by name.
pub fn read_address(names: &[AddressName<'_>], word: &[u8]) -> Option<u64>
    ensures { result ≡ address_said (map named names.now) word.now }
{
    match read_word_number(word) {
        Some(address) => Some(address),
        None => read_place(names, word),
    }
}
