//! Spike's commit log.

ghost use Rattle.std.specs.Prelude.{◌≡◌, is_some, position};
ghost use Rattle.std.specs.List.{after_first, before_first, list_any};
ghost use Rattle.pmp_text.specs.Lines.{words};
ghost use Rattle.pmp_import.specs.Said.{names_register};
ghost use Rattle.pmp_import.specs.Spike.{commit_told, csr_committed, is_code, is_listing, is_low_line, is_mode};
ghost use Rattle.pmp_import.specs.Spike.{sized_number, spike_said, written_at, written_in};

use crate::said::{How, Said, Told, names_register, read_hex};
use pmp_core::Csr;
use pmp_text::{Refusal, Words, read_numeral, read_register_number};

/// Returns what a line says.
#[tactic(auto, unfolding(crate::specs::Spike::spike_said))]
pub fn read_spike(line: &[u8]) -> Result<Said, Refusal>
    ensures { result ≡ spike_said line.now }
{
    if !names_register(line) || is_listing(Words::new(line)) {
        return Ok(Said::Nothing);
    }
    let told = read_commit(Words::new(line)).ok_or(Refusal::BadEvent)?;
    Ok(Said::Register(told))
}

/// Whether a line is one of those that the option `-l` adds.
#[tactic(auto, unfolding(crate::specs::Spike::is_listing))]
fn is_listing(mut line: Words) -> bool
    ensures { result ≡ is_listing (words line.entry.rest.now) }
{
    let (Some(core), Some(_), Some(word)) = (line.next(), line.next(), line.next()) else {
        return false;
    };
    core == b"core".as_slice() && (word == b">>>>".as_slice() || word.strip_prefix(b"0x").is_some())
}

#[tactic(auto, unfolding(crate::specs::Spike::commit_told))]
fn read_commit(mut line: Words) -> Option<Told>
    ensures { result ≡ commit_told (words line.entry.rest.now) }
{
    let core = line.next()?;
    let number = line.next()?;
    let mode = line.next()?;
    let address = line.next()?;
    let code = line.next()?;
    if core != b"core".as_slice() || !is_mode(mode) || read_code(code).is_none() {
        return None;
    }
    read_written(number, address, line)
}

fn is_mode(word: &[u8]) -> bool
    ensures { result ≡ is_mode word.now }
{
    matches!(word, b"0" | b"1" | b"2" | b"3")
}

/// Returns the code of an instruction.
fn read_code(word: &[u8]) -> Option<u64>
    ensures { is_some result ≡ is_code word.now }
{
    read_hex(word.strip_prefix(b"(")?.strip_suffix(b")")?)
}

/// Returns what a commit at this address writes.
#[tactic(auto, unfolding(crate::specs::Spike::written_at))]
fn read_written(number: &[u8], address: &[u8], written: Words) -> Option<Told>
    ensures { result ≡ written_at number.now address.now (words written.entry.rest.now) }
{
    let hart = read_numeral(number.strip_suffix(b":")?, 10, 20)?;
    let is_rv32 = read_sized(true, address).is_some();
    if !is_rv32 && read_sized(false, address).is_none() {
        return None;
    }
    find_written(hart, is_rv32, written)
}

/// Returns the number written as `0x` and as many digits as a register has.
#[tactic(auto, unfolding(crate::specs::Spike::sized_number))]
fn read_sized(is_rv32: bool, word: &[u8]) -> Option<u64>
    ensures { result ≡ sized_number is_rv32 word.now }
{
    let length = if is_rv32 { 10 } else { 18 };
    if word.len() == length {
        read_hex(word)
    } else {
        None
    }
}

/// Returns the CSR that one of these words names, with the value after it.
#[tactic(auto, unfolding(crate::specs::Spike::written_in))]
fn find_written(hart: u64, is_rv32: bool, mut written: Words) -> Option<Told>
    ensures { result ≡ written_in hart is_rv32 (words written.entry.rest.now) }
{
    let mut word = written.next()?;
    while let Some(value) = written.next() {
        if names_register(word) {
            let register = read_csr(is_rv32, word)?;
            let value = read_sized(is_rv32, value)?;
            if names_more(written) {
                return None;
            }
            return Some(Told {
                hart: Some(hart),
                how: How::Commit,
                register,
                value,
                is_rv32,
            });
        }
        word = value;
    }
    None
}

/// Whether one of these words names a register.
fn names_more(mut rest: Words) -> bool
    ensures { result ≡ list_any names_register (words rest.entry.rest.now) }
{
    while let Some(word) = rest.next() {
        if names_register(word) {
            return true;
        }
    }
    false
}

fn first_low_line(word: &[u8]) -> Option<usize>
    ensures { result ≡ position is_low_line word.now }
{
    word.iter().position(|byte| *byte == b'_')
}

/// Returns the text before the first underscore, and the text after it.
fn split_at_low_line(word: &[u8]) -> (&[u8], &[u8])
    ensures front { result.0.now ≡ before_first is_low_line word.now }
    ensures behind { result.1.now ≡ after_first is_low_line word.now }
{
    match first_low_line(word) {
        Some(end) => (&word[..end], &word[end + 1..]),
        None => (word, &[]),
    }
}

/// Returns a CSR given by its number and its name.
#[tactic(auto, unfolding(crate::specs::Spike::csr_committed))]
fn read_csr(is_rv32: bool, word: &[u8]) -> Option<Csr>
    ensures { result ≡ csr_committed is_rv32 word.now }
{
    let (digits, name) = split_at_low_line(word);
    let number = read_numeral(digits.strip_prefix(b"c")?, 10, 4)?;
    let named = read_register_number(name)?;
    if named != number || number >= 1 << 16 {
        return None;
    }
    Csr::on(is_rv32, number as u16).ok()
}
