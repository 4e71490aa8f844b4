//! Numbers as scripts, traces and command lines write them.

ghost use Rattle.std.specs.Prelude.{◌≡◌, ◌+◌, ◌*◌, ◌^◌, ◌<◌, ◌≤◌, MatchOption};
ghost use Rattle.pmp_text.specs.Numbers.{is_bare, numeral, word_number};

use crate::lines::ADDRESS_DIGITS;

/// Returns the number with one more digit at its end, if it is below `2^64`.
#[inline(always)]
fn with_digit(number: u64, radix: u32, digit: u32) -> Option<u64>
    ensures { MatchOption result (2 ^ 64 ≤ number * radix + digit)
        (λ longer. (longer ≡ number * radix + digit) × (longer < 2 ^ 64)) }
{
    number
        .checked_mul(u64::from(radix))?
        .checked_add(u64::from(digit))
}

/// Returns the number that the digits write, if there is at least one and at most `most` of them and the number is
/// below `2^64`.
#[inline(always)]
#[tactic(auto, unfolding(crate::specs::Numbers::numeral, crate::specs::Numbers::is_numeral))]
pub fn read_numeral(digits: &[u8], radix: u32, most: usize) -> Option<u64>
    requires low { 2 ≤ radix }
    requires high { radix ≤ 36 }
    ensures { result ≡ numeral radix most digits.now }
{
    if digits.is_empty() || digits.len() > most {
        return None;
    }
    let mut value = 0u64;
    for byte in digits {
        let digit = char::from(*byte).to_digit(radix)?;
        value = with_digit(value, radix, digit)?;
    }
    Some(value)
}

/// Returns the number that a word writes, if it writes one below `2^64`.
pub fn read_word_number(word: &[u8]) -> Option<u64>
    ensures { result ≡ word_number word.now }
{
    match word.strip_prefix(b"0x") {
        Some(digits) => read_numeral(digits, 16, 16),
        None => read_numeral(word, 10, 20),
    }
}

/// Whether a number has as many digits as an address in rows, but no `0x`: it is read as decimal, though rows write
/// hexadecimal.
pub fn is_bare(word: &[u8]) -> bool
    ensures { result ≡ is_bare word.now }
{
    word.len() == ADDRESS_DIGITS && !word.starts_with(b"0x")
}
