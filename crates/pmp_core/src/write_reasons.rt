//! Why a register doesn't read what was written to it.

ghost use Rattle.std.specs.Prelude.{◌≡◌, ℕ, ◌<◌, ◌==◌, nat_lt, not, ◌&&◌, Some, None, false, length, if◌then◌else◌};
ghost use Rattle.pmp_core.specs.declared.csr.Csr.{Csr};
ghost use Rattle.pmp_core.specs.Bytes.{AreFlags, byte};
ghost use Rattle.pmp_core.specs.Configuration.{bit_of, configuration_of};
ghost use Rattle.pmp_core.specs.RegisterValue.{register_value};
ghost use Rattle.pmp_core.specs.RegisterWrite.{is_address_frozen, written};
ghost use Rattle.pmp_core.specs.SavedRegisters.{restored_file};
ghost use Rattle.pmp_core.specs.WriteReasons.{AreMarked, bits_of, has_reason, is_reason, reasons_of};
ghost use Rattle.pmp_core.specs.WriteReasons.{is_absent, has_other_bits};
ghost use Rattle.pmp_core.specs.WriteReasons.{clears_sticky, sets_bypass};

use crate::configuration_word::{barred, chosen, locked, lowest, plain, reserved, selects_na4};
use crate::csr::Csr;
use crate::mseccfg::MseccfgFields;
use crate::registers::Registers;
use crate::saved_registers::SavedRegisters;

/// Why a register doesn't read what was written to it. A write may have several reasons.
#[derive(Clone, Copy, Debug, PartialEq, Eq)]
pub enum WriteReason {
    /// The value isn't zero for an entry, or a register, that the hart doesn't have.
    Absent,
    /// The value has bits that the register doesn't have.
    Bits,
    /// The value would change an entry that is frozen.
    Frozen,
    /// The value would change the low end of a frozen entry's range.
    Tor,
    /// The value has W without R for an entry, and MML is 0.
    Reserved,
    /// The value would add a locked rule by which M-mode executes, while MML is 1 and RLB is 0.
    Lockdown,
    /// The value would clear MML or MMWP.
    Sticky,
    /// The value would set RLB, and some entry is locked.
    Bypass,
    /// The grain is above four bytes, and the value selects NA4, or has address bits below the grain that read
    /// differently.
    Grain,
}

impl WriteReason {
    /// All reasons, in the order in which they are named.
    pub const ALL: [WriteReason; 9] = [
        WriteReason::Absent,
        WriteReason::Bits,
        WriteReason::Frozen,
        WriteReason::Tor,
        WriteReason::Reserved,
        WriteReason::Lockdown,
        WriteReason::Sticky,
        WriteReason::Bypass,
        WriteReason::Grain,
    ];
}

/// A set of reasons.
#[derive(Clone, Copy, Debug, PartialEq, Eq)]
pub struct Reasons(u16);

impl Reasons {
    /// Returns the set of those that hold, of tests in the order of `WriteReason::ALL`.
    #[inline(always)]
    fn of(tests: [bool; 9]) -> Reasons
        ensures bits { result.0 ≡ bits_of tests }
        ensures most { result.0 < 512 }
    {
        let low = u16::from(tests[0]) + 2 * u16::from(tests[1]) + 4 * u16::from(tests[2]);
        let middle = u16::from(tests[3]) + 2 * u16::from(tests[4]) + 4 * u16::from(tests[5]);
        let high = u16::from(tests[6]) + 2 * u16::from(tests[7]) + 4 * u16::from(tests[8]);
        Reasons(low + 8 * middle + 64 * high)
    }

    /// Returns a bit for each reason, the lowest for the first of `WriteReason::ALL`.
    pub fn bits(self) -> u16
        ensures { result ≡ self.0 }
    {
        self.0
    }
}

/// Returns the flags if the hart or `mseccfg` lets what they say be a reason, else none.
#[inline(always)]
fn flags_if(allowed: bool, flags: u64) -> u64
    ensures { result ≡ (if allowed then flags else 0) }
{
    if allowed { flags } else { 0 }
}

/// Whether this byte of a word isn't zero.
fn is_set(word: u64, place: usize) -> bool
    requires { place < 8 }
    ensures { result ≡ not (byte word place == 0) }
{
    word.to_le_bytes()[place] != 0
}

/// The reasons that entries have: of each a word with a byte for each of eight entries from the first one on, which isn't
/// zero if the entry has it.
#[derive(Clone, Copy)]
struct EntryReasons {
    first: usize,
    frozen: u64,
    tor: u64,
    reserved: u64,
    lockdown: u64,
    grain: u64,
}

impl EntryReasons {
    const NONE: EntryReasons = EntryReasons {
        first: 0,
        frozen: 0,
        tor: 0,
        reserved: 0,
        lockdown: 0,
        grain: 0,
    };
}

impl<'a> Registers<'a> {
    /// Returns a flag for each of eight configuration bytes whose entry is frozen.
    #[inline(always)]
    fn frozen_bytes(&self, word: u64) -> u64
        ensures flags { AreFlags result }
        ensures bytes { (j : ℕ) → j < 8 → byte result j
            ≡ bit_of ((configuration_of (byte word j)).locked && not self.now.mseccfg.rlb) }
    {
        if self.fields().rlb { 0 } else { locked(word) }
    }

    /// Returns the reasons that entries have against a configuration register's value. Those that ask what is written
    /// skip the bytes that a lock keeps out.
    #[inline(always)]
    fn configuration_reasons(&self, register: u8, value: u64) -> EntryReasons
        ensures { AreMarked result self.now (Csr.Cfg register) value }
    {
        let _count = self.count();
        let fields = self.fields();
        let old = self.configuration_word(register);
        let frozen = self.frozen_bytes(old);
        let new = chosen(frozen, 0, lowest(value, self.hart().bytes_there(register)));
        EntryReasons {
            first: 4 * usize::from(register),
            frozen: chosen(frozen, value, old) ^ old,
            tor: 0,
            reserved: flags_if(!fields.mml, reserved(new)),
            lockdown: flags_if(fields.is_lockdown(), barred(new)),
            grain: flags_if(self.hart().grain() > 0, selects_na4(new)),
        }
    }

    /// Returns the reasons that entries have against an address register's value: those of its own entry.
    #[inline(always)]
    fn address_reasons(&self, register: u8, value: u64) -> EntryReasons
        requires { register < length self.now.entries }
        ensures { AreMarked result self.now (Csr.Addr register) value }
    {
        let first = usize::from(register);
        let frozen = self.is_frozen(first);
        let is_changed = value != self.reads(first, self.address(first));
        EntryReasons {
            first,
            frozen: u64::from(frozen & is_changed),
            tor: u64::from(!frozen & self.is_address_frozen(first) & is_changed),
            reserved: 0,
            lockdown: 0,
            grain: u64::from(self.reads(first, value) != value),
        }
    }

    /// Returns the reasons that entries have against the value.
    #[inline(always)]
    fn entry_reasons(&self, csr: Csr, value: u64) -> EntryReasons
        ensures { AreMarked result self.now csr value }
    {
        match csr {
            Csr::Cfg(register) => self.configuration_reasons(register, value),
            Csr::Addr(register) => {
                if usize::from(register) < self.count() {
                    self.address_reasons(register, value)
                } else {
                    EntryReasons::NONE
                }
            }
            Csr::Mseccfg => EntryReasons::NONE,
            Csr::Mseccfgh => EntryReasons::NONE,
        }
    }

    /// Whether some reason holds for the entry.
    pub fn has_reason(&self, csr: Csr, value: u64, index: usize) -> bool
        requires { index < length self.now.entries }
        ensures { result ≡ has_reason self.now csr value index }
    {
        let found = self.entry_reasons(csr, value);
        match index.checked_sub(found.first) {
            Some(place) if place < 8 => {
                is_set(found.frozen, place)
                    | is_set(found.tor, place)
                    | is_set(found.reserved, place)
                    | is_set(found.lockdown, place)
                    | is_set(found.grain, place)
            }
            _ => false,
        }
    }

    fn has_mseccfgh(&self) -> bool
        ensures { result ≡ (self.now.profile.has_smepmp && self.now.profile.is_rv32) }
    {
        let profile = self.hart().profile();
        profile.has_smepmp && profile.is_rv32
    }

    /// Whether the value isn't zero for a register, or an entry, that the hart doesn't have.
    fn is_absent(&self, csr: Csr, value: u64) -> bool
        ensures { result ≡ is_absent self.now csr value }
    {
        let _count = self.count();
        match csr {
            Csr::Cfg(register) => lowest(value, self.hart().bytes_there(register)) != value,
            Csr::Addr(register) => value != 0 && usize::from(register) >= self.count(),
            Csr::Mseccfg => value != 0 && !self.hart().has_smepmp(),
            Csr::Mseccfgh => value != 0 && !self.has_mseccfgh(),
        }
    }

    /// Whether the value has bits that the register doesn't have, if the hart has the register.
    fn has_other_bits(&self, csr: Csr, value: u64) -> bool
        ensures { result ≡ has_other_bits self.now.profile csr value }
    {
        match csr {
            Csr::Cfg(_) => plain(value) != value,
            Csr::Addr(_) => value / self.hart().word_addresses() != 0,
            Csr::Mseccfg => self.hart().has_smepmp() && value / 8 != 0,
            Csr::Mseccfgh => value != 0 && self.has_mseccfgh(),
        }
    }

    /// Whether the value would clear MML or MMWP.
    fn clears_sticky(&self, value: u64) -> bool
        ensures { result ≡ clears_sticky self.now.mseccfg Csr.Mseccfg value }
    {
        let fields = self.fields();
        let new = MseccfgFields::from_value(value);
        fields.mml && !new.mml || fields.mmwp && !new.mmwp
    }

    /// Whether the value would set RLB, and some entry is locked.
    fn sets_bypass(&self, value: u64) -> bool
        ensures { result ≡ sets_bypass self.now Csr.Mseccfg value }
    {
        let sets = MseccfgFields::from_value(value).rlb && !self.fields().rlb;
        self.hart().has_smepmp() && sets && self.is_any_locked()
    }

    /// Whether this is a reason why the register wouldn't read the value, if it were written now.
    #[tactic(auto, using(crate::proofs::FlaggedReasons::some_of))]
    pub fn is_reason(&self, reason: WriteReason, csr: Csr, value: u64) -> bool
        ensures { result ≡ is_reason reason self.now csr value }
    {
        match (reason, csr) {
            (WriteReason::Absent, _) => self.is_absent(csr, value),
            (WriteReason::Bits, _) => self.has_other_bits(csr, value),
            (WriteReason::Sticky, Csr::Mseccfg) => self.clears_sticky(value),
            (WriteReason::Bypass, Csr::Mseccfg) => self.sets_bypass(value),
            (WriteReason::Sticky | WriteReason::Bypass, _) => false,
            (WriteReason::Frozen, _) => self.entry_reasons(csr, value).frozen != 0,
            (WriteReason::Tor, _) => self.entry_reasons(csr, value).tor != 0,
            (WriteReason::Reserved, _) => self.entry_reasons(csr, value).reserved != 0,
            (WriteReason::Lockdown, _) => self.entry_reasons(csr, value).lockdown != 0,
            (WriteReason::Grain, _) => self.entry_reasons(csr, value).grain != 0,
        }
    }

    /// Returns why the register wouldn't read the value, if it were written now.
    #[tactic(auto, using(crate::proofs::FlaggedReasons::some_of))]
    pub fn reasons(&self, csr: Csr, value: u64) -> Reasons
        ensures reasons { result ≡ reasons_of self.now csr value }
        ensures most { result.0 < 512 }
    {
        let entries = self.entry_reasons(csr, value);
        Reasons::of([
            self.is_absent(csr, value),
            self.has_other_bits(csr, value),
            entries.frozen != 0,
            entries.tor != 0,
            entries.reserved != 0,
            entries.lockdown != 0,
            self.is_reason(WriteReason::Sticky, csr, value),
            self.is_reason(WriteReason::Bypass, csr, value),
            entries.grain != 0,
        ])
    }

    /// Does the same out of line, by the numbers alone.
    #[inline(always)]
    pub(crate) fn reasons_apart(&self, csr: Csr, value: u64) -> Reasons
        ensures { result ≡ reasons_of self.now csr value }
    {
        self.numbers().reasons(csr, value)
    }

    /// Does the same for an address register that no lock keeps as it is.
    #[inline(always)]
    pub(crate) fn open_address_reasons(&self, register: u8, value: u64) -> Reasons
        requires inside { register < length self.now.entries }
        requires free { is_address_frozen self.now register ≡ false }
        ensures { result ≡ reasons_of self.now (Csr.Addr register) value }
    {
        let index = usize::from(register);
        let has_bits = value / self.hart().word_addresses() != 0;
        let is_too_fine = self.reads(index, value) != value;
        let none = false;
        Reasons::of([
            none,
            has_bits,
            none,
            none,
            none,
            none,
            none,
            none,
            is_too_fine,
        ])
    }

    /// Does the same for any register, given what it reads after the write, which is mostly the value as written.
    #[inline(always)]
    pub(crate) fn reasons_where(&self, csr: Csr, value: u64, reads: u64) -> Reasons
        requires { reads ≡ register_value (written self.now csr value) csr }
        ensures { result ≡ reasons_of self.now csr value }
    {
        let _count = self.count();
        if reads == value {
            Reasons(0)
        } else {
            self.reasons_apart(csr, value)
        }
    }
}

impl SavedRegisters {
    /// Returns why the register wouldn't read the value, if it were written now.
    #[cold]
    #[inline(never)]
    fn reasons(&self, csr: Csr, value: u64) -> Reasons
        ensures { result ≡ reasons_of (restored_file self.now) csr value }
    {
        match Registers::on_standard(self) {
            Some(registers) => registers.reasons(csr, value),
            None => Registers::of(self).reasons(csr, value),
        }
    }
}
