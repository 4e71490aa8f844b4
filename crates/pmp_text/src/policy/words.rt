//! The words in a policy's fields: demands, kinds, modes and ranges.

ghost use Rattle.std.specs.Prelude.{◌≡◌};
ghost use Rattle.pmp_text.specs.Policies.{at_least, demand_named, kinds_named, modes_named, times};
ghost use Rattle.pmp_text.specs.Numbers.{word_number};

use crate::access_words::read_kind;
use crate::numbers::read_word_number;
use crate::policy::{Demand, Kinds, Modes};
use crate::words::is_word;

/// Returns the demand that a word names: `never`, `always` or `held`.
pub fn read_demand(word: &[u8]) -> Option<Demand>
    ensures { result ≡ demand_named word.now }
{
    if is_word(word, b"never") {
        Some(Demand::Never)
    } else if is_word(word, b"always") {
        Some(Demand::Always)
    } else if is_word(word, b"held") {
        Some(Demand::Held)
    } else {
        None
    }
}

/// Returns the kinds that a word names: `any`, or one of the three.
pub fn read_kinds(word: &[u8]) -> Option<Kinds>
    ensures { result ≡ kinds_named word.now }
{
    if is_word(word, b"any") {
        return Some(Kinds::Any);
    }
    read_kind(word).map(Kinds::One)
}

/// Returns how often a letter occurs in a word.
fn times(letter: u8, word: &[u8]) -> usize
    ensures { result ≡ times letter word.now }
{
    word.iter().filter(|byte| **byte == letter).count()
}

/// Returns the modes that a word names: one to three of the letters `M`, `S` and `U`, none of them twice.
pub fn read_modes(word: &[u8]) -> Option<Modes>
    ensures { result ≡ modes_named word.now }
{
    let machine = times(b'M', word);
    let supervisor = times(b'S', word);
    let user = times(b'U', word);
    if machine > 1 || supervisor > 1 || user > 1 {
        return None;
    }
    if word.is_empty() || machine + supervisor + user != word.len() {
        return None;
    }
    Some(Modes {
        machine: machine == 1,
        supervisor: supervisor == 1,
        user: user == 1,
    })
}

/// Returns the number that a word writes, if it is at least `least`.
pub fn read_at_least(least: u64, word: &[u8]) -> Option<u64>
    ensures { result ≡ at_least least (word_number word.now) }
{
    let number = read_word_number(word)?;
    (number >= least).then_some(number)
}
