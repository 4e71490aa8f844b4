//! Eight configuration bytes in a word, the lowest for the lowest entry, and what is done to all of them at once.

ghost use Rattle.std.specs.Prelude.{◌≡◌, ◌+◌, ◌<◌, ◌≤◌, ◌==◌, ℕ, if◌then◌else◌, length, nat_lt, slice_index};
ghost use Rattle.pmp_core.specs.declared.configuration.AddressMatching.{AddressMatching};
ghost use Rattle.pmp_core.specs.Bytes.{AreFlags, ArePut, byte};
ghost use Rattle.pmp_core.specs.Configuration.{bit_of, byte_of, configuration_of, is_reserved};
ghost use Rattle.pmp_core.specs.Grain.{is_na4, selectable};
ghost use Rattle.pmp_core.specs.RegisterWrite.{admitted, stored_over, without_reserved};
ghost use Rattle.pmp_core.specs.Rights.{is_barred};

use crate::hart::Hart;
use crate::mseccfg::MseccfgFields;

/// Bit 0 of each byte. A word with no other bits has a flag for each byte.
pub const ONES: u64 = 0x0101_0101_0101_0101;

/// Returns eight bytes from this one on, and zeros past the last.
#[inline(always)]
pub fn eight_from(bytes: &[u8], first: usize) -> u64
    requires long { 8 ≤ length bytes.now }
    requires inside { first < length bytes.now }
    ensures { (j : ℕ) → j < 8 → byte result j ≡ slice_index bytes.now (first + j) }
{
    let from = first.min(bytes.len() - 8);
    let mut eight = [0; 8];
    eight.copy_from_slice(&bytes[from..from + 8]);
    u64::from_le_bytes(eight) >> (8 * (first - from))
}

/// Puts the lowest bytes of a word into a list, so many of them, from this place on.
#[inline(always)]
pub fn put_lowest(bytes: &mut [u8], first: usize, word: u64, count: usize)
    requires few { count ≤ 8 }
    requires inside { 0 < count → first + count ≤ length bytes.old }
    ensures { ArePut bytes.old bytes.new first word count }
{
    let eight = word.to_le_bytes();
    if count == 8 {
        bytes[first..first + 8].copy_from_slice(&eight);
    } else if count > 0 {
        bytes[first..first + count].copy_from_slice(&eight[..count]);
    }
}

/// Returns a flag for each byte that has L.
#[inline(always)]
pub fn locked(word: u64) -> u64
    ensures flags { AreFlags result }
    ensures bytes { (j : ℕ) → j < 8 → byte result j ≡ bit_of (configuration_of (byte word j)).locked }
{
    word >> 7 & ONES
}

/// Returns a flag for each byte that has W without R.
#[inline(always)]
pub fn reserved(word: u64) -> u64
    ensures flags { AreFlags result }
    ensures bytes { (j : ℕ) → j < 8 → byte result j ≡ bit_of (is_reserved (configuration_of (byte word j))) }
{
    word >> 1 & !word & ONES
}

/// Returns a flag for each byte that has L and lets M-mode execute while MML is set.
#[inline(always)]
pub fn barred(word: u64) -> u64
    ensures flags { AreFlags result }
    ensures bytes { (j : ℕ) → j < 8 → let c = configuration_of (byte word j) in
        byte result j ≡ bit_of (is_barred c.locked c.read c.write c.execute) }
{
    word >> 7 & (word >> 2 & !(word >> 1) | word >> 1 & !word) & ONES
}

/// Returns a flag for each byte that selects NA4.
#[inline(always)]
pub fn selects_na4(word: u64) -> u64
    ensures flags { AreFlags result }
    ensures bytes { (j : ℕ) → j < 8 → byte result j ≡ bit_of (is_na4 (configuration_of (byte word j)).matching) }
{
    word >> 4 & !(word >> 3) & ONES
}

/// Returns how many of the bytes select OFF before one that doesn't.
#[inline(always)]
pub fn count_off(word: u64) -> usize
    ensures most { result ≤ 8 }
    ensures off { (j : ℕ) → j < result → (configuration_of (byte word j)).matching ≡ AddressMatching.Off }
{
    (word & 0x18 * ONES).trailing_zeros() as usize / 8
}

/// Returns the bytes of one word that have a flag, and those of the other that have none.
#[inline(always)]
pub fn chosen(flags: u64, one: u64, other: u64) -> u64
    requires { AreFlags flags }
    ensures { (j : ℕ) → j < 8 → byte result j ≡ (if byte flags j == 1 then byte one j else byte other j) }
{
    let all = flags * 255;
    one & all | other & !all
}

/// Returns the lowest bytes, so many of them, and zeros above.
#[inline(always)]
#[tactic(auto, using(crate::proofs::WordBytes::lowest_byte))]
pub fn lowest(word: u64, count: usize) -> u64
    ensures { (j : ℕ) → j < 8 → byte result j ≡ (if nat_lt j count then byte word j else 0) }
{
    if count < 8 {
        word % (1 << (8 * count))
    } else {
        word
    }
}

/// Returns each byte without bits 6 and 5.
#[inline(always)]
pub fn plain(word: u64) -> u64
    ensures { (j : ℕ) → j < 8 → byte result j ≡ byte_of (configuration_of (byte word j)) }
{
    word & 0x9f * ONES
}

/// Returns each byte as it is stored: without rights if its R and W are a reserved combination.
#[inline(always)]
fn without_reserved(word: u64) -> u64
    ensures { (j : ℕ) → j < 8 → byte result j ≡ byte_of (without_reserved (configuration_of (byte word j))) }
{
    chosen(reserved(word), word & 0x98 * ONES, plain(word))
}

/// Returns each byte as it is stored: OFF instead of NA4 if the grain is above four bytes.
#[inline(always)]
fn selectable(word: u64, hart: Hart) -> u64
    ensures { (j : ℕ) → j < 8 → byte result j ≡ byte_of (selectable hart.grain (configuration_of (byte word j))) }
{
    if hart.grain() > 0 {
        chosen(selects_na4(word), word & 0x8f * ONES, plain(word))
    } else {
        plain(word)
    }
}

/// Returns what is stored over configurations that aren't frozen, on a hart that has every address-matching mode.
#[inline(always)]
fn admitted(old: u64, new: u64, mseccfg: &MseccfgFields) -> u64
    requires { (j : ℕ) → j < 8 → byte_of (configuration_of (byte old j)) ≡ byte old j }
    ensures { (j : ℕ) → j < 8 → byte result j ≡ byte_of (admitted mseccfg.now.mml mseccfg.now.rlb
        (configuration_of (byte old j)) (configuration_of (byte new j))) }
{
    if !mseccfg.mml {
        without_reserved(new)
    } else if mseccfg.rlb {
        plain(new)
    } else {
        chosen(barred(new), old, plain(new))
    }
}

/// Returns what is stored if bytes are written over configurations.
#[inline(always)]
pub fn stored_over(hart: Hart, old: u64, bytes: u64, mseccfg: &MseccfgFields) -> u64
    requires { (j : ℕ) → j < 8 → byte_of (configuration_of (byte old j)) ≡ byte old j }
    ensures { (j : ℕ) → j < 8 → byte result j ≡ byte_of (stored_over hart.grain mseccfg.now.mml mseccfg.now.rlb
        (configuration_of (byte old j)) (byte bytes j)) }
{
    let new = selectable(admitted(old, bytes, mseccfg), hart);
    if mseccfg.rlb {
        new
    } else {
        chosen(locked(old), old, new)
    }
}
