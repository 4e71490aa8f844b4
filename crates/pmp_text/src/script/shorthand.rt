//! Shorthand lines: they stand for writes whose values depend on the registers at that point.

ghost use Rattle.std.specs.Prelude.{◌≡◌, ◌<◌, ◌≤◌, IfOk, None};
ghost use Rattle.pmp_text.specs.Lines.{words};
ghost use Rattle.pmp_text.specs.Shorthands.{aligned_place, byte_write, can_stand, entry_line, entry_said, entry_writes};
ghost use Rattle.pmp_text.specs.Shorthands.{lock_said, low_end, matching_bits, matching_said, number_said, off_said};
ghost use Rattle.pmp_text.specs.Shorthands.{place_said, place_words, range_said, rights_said, rule_said, shorthand_of};
ghost use Rattle.pmp_text.specs.Shorthands.{tor_place, writes_of};

use crate::flaw::Flaw;
use crate::lines::registers::cfg_at;
use crate::numbers::read_word_number;
use crate::refusal::Refusal;
use crate::script::kept_value;
use crate::script::statement::read_assignment;
use crate::script::version::Version;
use crate::script::words::Words;
use crate::words::is_word;
use pmp_core::{ADDRESS_LIMIT, AddressMatching, Csr, Event, MAX_ENTRIES, RegFile};

/// A line that stands for writes.
#[derive(Clone, Copy)]
pub enum Shorthand {
    /// The register is written with these bits set, as if by CSRRS.
    SetBits(Csr, u64),
    /// The register is written with these bits cleared, as if by CSRRC.
    ClearBits(Csr, u64),
    /// An entry is written.
    Entry(EntryLine),
}

/// What a line says about an entry.
#[derive(Clone, Copy)]
pub struct EntryLine {
    pub number: u8,
    /// Its byte of a `pmpcfg` register.
    pub configuration: u8,
    /// Where it matches, unless it is off.
    pub place: Option<Place>,
}

/// Where an entry matches.
#[derive(Clone, Copy)]
pub struct Place {
    /// The word address that its `pmpaddr` is written with.
    pub address: u64,
    /// The word address at which the entry before it must end, if its range begins there.
    pub low: Option<u64>,
}

/// The writes of a line.
#[derive(Clone, Copy)]
pub struct Writes {
    /// The write of an entry's address, which comes first.
    pub address: Option<Event>,
    pub last: Event,
}

fn read_number(word: &[u8]) -> Result<u64, Refusal>
    ensures { result ≡ number_said word.now }
{
    read_word_number(word).ok_or(Refusal::BadNumber)
}

/// Returns the number of an entry that some hart has.
fn read_entry_number(word: &[u8]) -> Result<u8, Refusal>
    ensures { result ≡ entry_said word.now }
{
    let number = read_word_number(word).ok_or(Refusal::BadNumber)?;
    if number < MAX_ENTRIES as u64 {
        Ok(number as u8)
    } else {
        Err(Refusal::BadEntry)
    }
}

fn read_matching(word: &[u8]) -> Result<AddressMatching, Refusal>
    ensures { result ≡ matching_said word.now }
{
    match word {
        b"na4" => Ok(AddressMatching::Na4),
        b"napot" => Ok(AddressMatching::Napot),
        b"tor" => Ok(AddressMatching::Tor),
        _ => Err(Refusal::BadLine),
    }
}

/// Returns R, W and X, as rows write rights: R is 1, W is 2, X is 4. `BadLine` if the word isn't of that form.
pub fn read_rights(word: &[u8]) -> Result<u8, Refusal>
    ensures rights { result ≡ rights_said word.now }
    ensures most { IfOk result (λ bits. bits < 8) }
{
    match word {
        b"---" => Ok(0),
        b"r--" => Ok(1),
        b"-w-" => Ok(2),
        b"rw-" => Ok(3),
        b"--x" => Ok(4),
        b"r-x" => Ok(5),
        b"-wx" => Ok(6),
        b"rwx" => Ok(7),
        _ => Err(Refusal::BadLine),
    }
}

/// Returns L, if a last word gives it.
fn read_lock(mut operands: Words) -> Result<u8, Flaw>
    ensures lock { result ≡ lock_said (words operands.entry.rest.now) }
    ensures most { IfOk result (λ bit. bit ≤ 128) }
{
    let Some(word) = operands.next() else {
        return Ok(0);
    };
    if operands.next().is_some() {
        return Err(Refusal::BadLine.part(7));
    }
    is_word(word, b"L")
        .then_some(128)
        .ok_or(Refusal::BadLine.part(6))
}

fn matching_bits(matching: AddressMatching) -> u8
    ensures bits { result ≡ matching_bits matching }
    ensures most { result ≤ 24 }
{
    match matching {
        AddressMatching::Off => 0,
        AddressMatching::Tor => 8,
        AddressMatching::Na4 => 16,
        AddressMatching::Napot => 24,
    }
}

/// Returns the place of `size` bytes at a multiple of `size`.
fn aligned_place(first: u64, size: u64) -> Result<Place, Flaw>
    requires { 4 ≤ size }
    ensures { result ≡ aligned_place first size }
{
    if first % size == 0 && size <= ADDRESS_LIMIT && first <= ADDRESS_LIMIT - size {
        Ok(Place {
            address: first / 4 + (size / 8).saturating_sub(1),
            low: None,
        })
    } else {
        Err(Refusal::BadEntry.part(3))
    }
}

/// Returns the place from where the entry before it ends.
fn tor_place(first: u64, end: u64) -> Result<Place, Flaw>
    ensures { result ≡ tor_place first end }
{
    if end % 4 != 0 || first >= end || end >= ADDRESS_LIMIT {
        return Err(Refusal::BadEntry.part(4));
    }
    if first % 4 != 0 {
        return Err(Refusal::BadEntry.part(3));
    }
    Ok(Place {
        address: end / 4,
        low: Some(first / 4),
    })
}

/// Returns where an entry matches, given its first byte, and its size or the byte after its last.
fn read_place(matching: AddressMatching, first: u64, second: u64) -> Result<Place, Flaw>
    ensures { result ≡ place_said matching first second }
{
    match matching {
        AddressMatching::Tor => tor_place(first, second),
        AddressMatching::Na4 if second == 4 => aligned_place(first, second),
        AddressMatching::Napot if second >= 8 && second.is_power_of_two() => {
            aligned_place(first, second)
        }
        AddressMatching::Na4 | AddressMatching::Napot => Err(Refusal::BadEntry.part(4)),
        AddressMatching::Off => Err(Refusal::BadLine.part(2)),
    }
}

/// Returns where an entry matches, given the words that say it.
#[tactic(auto, unfolding(crate::specs::Shorthands::place_words))]
fn read_place_words(matching: AddressMatching, first: &[u8], second: &[u8]) -> Result<Place, Flaw>
    ensures { result ≡ place_words matching first.now second.now }
{
    let first = read_number(first).map_err(|kind| kind.part(3))?;
    let second = read_number(second).map_err(|kind| kind.part(4))?;
    read_place(matching, first, second)
}

/// Returns which entry a line is about, and its rights with its lock.
#[tactic(auto, unfolding(crate::specs::Shorthands::rule_said))]
fn read_rule(number: &[u8], rights: &[u8], lock: Words) -> Result<(u8, u8), Flaw>
    ensures rule { result ≡ rule_said number.now rights.now (words lock.entry.rest.now) }
    ensures most { IfOk result (λ rule. rule.1 ≤ 135) }
{
    let lock = read_lock(lock)?;
    let rights = read_rights(rights).map_err(|kind| kind.part(5))?;
    let number = read_entry_number(number).map_err(|kind| kind.part(1))?;
    Ok((number, lock + rights))
}

/// Returns what a line says about an entry that isn't off.
fn read_range(number: &[u8], matching: &[u8], mut operands: Words) -> Result<EntryLine, Flaw>
    ensures { result ≡ range_said number.now matching.now (words operands.entry.rest.now) }
{
    let matching = read_matching(matching).map_err(|kind| kind.part(2))?;
    let (Some(first), Some(second), Some(rights)) = (
        operands.next(),
        operands.next(),
        operands.next(),
    ) else {
        return Err(Refusal::BadLine.whole());
    };
    let (number, rule) = read_rule(number, rights, operands)?;
    let place = read_place_words(matching, first, second)?;
    Ok(EntryLine {
        number,
        configuration: rule + matching_bits(matching),
        place: Some(place),
    })
}

/// Returns what a line says about an entry that is off.
fn read_off(number: &[u8], mut operands: Words) -> Result<EntryLine, Flaw>
    ensures { result ≡ off_said number.now (words operands.entry.rest.now) }
{
    if operands.next().is_some() {
        return Err(Refusal::BadLine.part(3));
    }
    let number = read_entry_number(number).map_err(|kind| kind.part(1))?;
    Ok(EntryLine {
        number,
        configuration: 0,
        place: None,
    })
}

/// Returns what a line says about an entry.
fn read_entry(mut operands: Words) -> Result<EntryLine, Flaw>
    ensures { result ≡ entry_line (words operands.entry.rest.now) }
{
    let (Some(number), Some(matching)) = (operands.next(), operands.next()) else {
        return Err(Refusal::BadLine.whole());
    };
    if is_word(matching, b"off") {
        read_off(number, operands)
    } else {
        read_range(number, matching, operands)
    }
}

/// Returns what a shorthand line of version 3 says, if it is one.
#[tactic(auto, unfolding(crate::specs::Shorthands::shorthand_of))]
pub fn read_shorthand(line: &[u8]) -> Option<Result<Shorthand, Flaw>>
    ensures { result ≡ shorthand_of (words line.now) }
{
    let mut words = Words::new(line);
    let word = words.next()?;
    if is_word(word, b"set-bits") {
        let assigned = read_assignment(Version::Headed, words);
        Some(assigned.map(|(csr, value)| Shorthand::SetBits(csr, value)))
    } else if is_word(word, b"clear-bits") {
        let assigned = read_assignment(Version::Headed, words);
        Some(assigned.map(|(csr, value)| Shorthand::ClearBits(csr, value)))
    } else if is_word(word, b"entry") {
        Some(read_entry(words).map(Shorthand::Entry))
    } else {
        None
    }
}

/// Returns the write of an entry's byte, with the other bytes as they read.
fn byte_write(file: &RegFile, number: u8, byte: u8) -> Event
    ensures { result ≡ byte_write file.now number byte }
{
    let hart = file.hart();
    let count = if hart.profile().is_rv32 { 4 } else { 8 };
    let csr = cfg_at(&hart, number / count);
    let mut bytes = file.read(csr).to_le_bytes();
    bytes[usize::from(number % count)] = byte;
    Event::Write(csr, u64::from_le_bytes(bytes))
}

/// Returns the word address at which a top of range begins.
fn low_end(file: &RegFile, number: u8) -> u64
    ensures { result ≡ low_end file.now number }
{
    match number.checked_sub(1) {
        Some(before) => file.hart().tor_address(kept_value(file, Csr::Addr(before))),
        None => 0,
    }
}

/// Whether an entry can match there.
fn can_stand(file: &RegFile, number: u8, place: Place) -> bool
    ensures { result ≡ can_stand file.now number place }
{
    let begins = place.low.is_none_or(|low| low == low_end(file, number));
    begins && !(file.hart().profile().is_rv32 && place.address >= 1 << 32)
}

/// Returns the writes of an entry.
fn entry_writes(file: &RegFile, line: EntryLine) -> Result<Writes, Flaw>
    ensures { result ≡ entry_writes file.now line }
{
    let last = byte_write(file, line.number, line.configuration);
    match line.place {
        None => Ok(one(last)),
        Some(place) if can_stand(file, line.number, place) => Ok(Writes {
            address: Some(Event::Write(Csr::Addr(line.number), place.address)),
            last,
        }),
        Some(_) => Err(Refusal::BadEntry.part(3)),
    }
}

fn one(last: Event) -> Writes
    ensures { result ≡ record { address = None; last = last } }
{
    Writes {
        address: None,
        last,
    }
}

impl Shorthand {
    /// Returns the writes that it stands for in this file.
    pub fn writes(self, file: &RegFile) -> Result<Writes, Flaw>
        ensures { result ≡ writes_of file.now self }
    {
        match self {
            Shorthand::SetBits(csr, value) => Ok(one(Event::Write(csr, file.read(csr) | value))),
            Shorthand::ClearBits(csr, value) => Ok(one(Event::Write(csr, file.read(csr) & !value))),
            Shorthand::Entry(line) => entry_writes(file, line),
        }
    }
}
