//! The hart fields in the head of a script.

ghost use Rattle.std.specs.Prelude.{◌≡◌, ◌<◌, ◌==◌, IfSome, position};
ghost use Rattle.pmp_text.specs.Heads.{field_fault, hart_kind, said_with, same_field, with_field};
ghost use Rattle.pmp_text.specs.declared.script.hart_field.TheConstants.{GRAINS};
ghost use Rattle.pmp_text.specs.Statements.{byte_number, field_named, field_of, grain_number, smepmp_field, xlen_field};

use crate::flaw::Flaw;
use crate::numbers::read_word_number;
use crate::refusal::Refusal;
use crate::words::is_word;
use pmp_core::{HartFault, MAX_ADDRESS_BITS, MAX_ENTRIES, MAX_GRAIN, MIN_ADDRESS_BITS, Profile};

/// The possible grains in bytes: that of G is at index G.
pub const GRAINS: [u64; 11] = [4, 8, 16, 32, 64, 128, 256, 512, 1024, 2048, 4096];

/// One thing that a head says about the hart.
#[derive(Clone, Copy)]
pub enum HartField {
    /// Whether XLEN is 32, and not 64.
    Xlen(bool),
    Entries(u8),
    /// The manual's G.
    Grain(u8),
    /// The number of physical address bits.
    Bits(u8),
    Smepmp(bool),
}

/// Returns a number below 256, or a refusal of this kind if it is larger.
fn read_byte(word: &[u8], kind: Refusal) -> Result<u8, Refusal>
    ensures { result ≡ byte_number kind word.now }
{
    let number = read_word_number(word).ok_or(Refusal::BadNumber)?;
    u8::try_from(number).or(Err(kind))
}

fn place_of_grain(bytes: u64) -> Option<usize>
    ensures place { result ≡ position (λ grain. grain == bytes) GRAINS }
    ensures small { IfSome result (λ place. place < 256) }
{
    GRAINS.iter().position(|grain| *grain == bytes)
}

/// Returns G for a grain in bytes.
fn read_grain(word: &[u8]) -> Result<u8, Refusal>
    ensures { result ≡ grain_number word.now }
{
    let number = read_word_number(word).ok_or(Refusal::BadNumber)?;
    let place = place_of_grain(number).ok_or(Refusal::BadGrain)?;
    Ok(place as u8)
}

fn read_smepmp(word: &[u8]) -> Result<HartField, Refusal>
    ensures { result ≡ smepmp_field word.now }
{
    match word {
        b"yes" => Ok(HartField::Smepmp(true)),
        b"no" => Ok(HartField::Smepmp(false)),
        _ => Err(Refusal::BadLine),
    }
}

fn read_xlen(word: &[u8]) -> Result<HartField, Refusal>
    ensures { result ≡ xlen_field word.now }
{
    match word {
        b"32" => Ok(HartField::Xlen(true)),
        b"64" => Ok(HartField::Xlen(false)),
        _ => Err(Refusal::BadLine),
    }
}

/// Returns what a value means for the field with this name.
fn read_value(name: &[u8], value: &[u8]) -> Option<Result<HartField, Refusal>>
    ensures { result ≡ field_named name.now value.now }
{
    if is_word(name, b"entries") {
        Some(read_byte(value, Refusal::BadEntries).map(HartField::Entries))
    } else if is_word(name, b"grain") {
        Some(read_grain(value).map(HartField::Grain))
    } else if is_word(name, b"bits") {
        Some(read_byte(value, Refusal::BadBits).map(HartField::Bits))
    } else if is_word(name, b"smepmp") {
        Some(read_smepmp(value))
    } else if is_word(name, b"xlen") {
        Some(read_xlen(value))
    } else {
        None
    }
}

/// Returns what a field's name and its value say.
pub fn read_field(name: &[u8], value: &[u8]) -> Result<HartField, Flaw>
    ensures { result ≡ field_of name.now value.now }
{
    let said = read_value(name, value).ok_or(Refusal::BadLine.part(1))?;
    said.map_err(|kind| kind.part(2))
}

impl HartField {
    /// Whether the other is about the same field.
    pub fn is_same(self, other: HartField) -> bool
        ensures { result ≡ same_field self other }
    {
        match (self, other) {
            (HartField::Xlen(_), HartField::Xlen(_)) => true,
            (HartField::Entries(_), HartField::Entries(_)) => true,
            (HartField::Grain(_), HartField::Grain(_)) => true,
            (HartField::Bits(_), HartField::Bits(_)) => true,
            (HartField::Smepmp(_), HartField::Smepmp(_)) => true,
            _ => false,
        }
    }

    /// Returns how a script refuses it, if no hart has this.
    fn fault(self) -> Option<Refusal>
        ensures { result ≡ field_fault self }
    {
        match self {
            HartField::Entries(entries) if usize::from(entries) > MAX_ENTRIES => {
                Some(Refusal::BadEntries)
            }
            HartField::Grain(grain) if grain > MAX_GRAIN => Some(Refusal::BadGrain),
            HartField::Bits(bits) if bits < MIN_ADDRESS_BITS || bits > MAX_ADDRESS_BITS => {
                Some(Refusal::BadBits)
            }
            _ => None,
        }
    }

    /// Returns the profile with this instead of what it had.
    fn put_into(self, said: Profile) -> Profile
        ensures { result ≡ with_field said self }
    {
        match self {
            HartField::Xlen(is_rv32) => Profile { is_rv32, ..said },
            HartField::Entries(entries) => Profile { entries, ..said },
            HartField::Grain(grain) => Profile { grain, ..said },
            HartField::Bits(address_bits) => Profile {
                address_bits,
                ..said
            },
            HartField::Smepmp(has_smepmp) => Profile { has_smepmp, ..said },
        }
    }

    /// Returns the same, if some hart has this.
    pub fn said_over(self, said: Profile) -> Result<Profile, Refusal>
        ensures { result ≡ said_with said self }
    {
        match self.fault() {
            Some(kind) => Err(kind),
            None => Ok(self.put_into(said)),
        }
    }
}

/// Returns how a script refuses a number that no hart has.
pub fn kind_of(fault: HartFault) -> Refusal
    ensures { result ≡ hart_kind fault }
{
    match fault {
        HartFault::Entries => Refusal::BadEntries,
        HartFault::Grain => Refusal::BadGrain,
        HartFault::AddressBits => Refusal::BadBits,
    }
}
