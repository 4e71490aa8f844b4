//! A unit's registers for reading: a view of the plain numbers that keep them.

ghost use Rattle.std.specs.Prelude.{◌≡◌, ◌+◌, ◌/◌, ◌^◌, ◌<◌, ◌≤◌, ℕ, IsTrue, MatchOption, length};
ghost use Rattle.pmp_core.specs.declared.configuration.AddressMatching.{AddressMatching};
ghost use Rattle.pmp_core.specs.declared.csr.Csr.{Csr};
ghost use Rattle.pmp_core.specs.declared.register_write.TheConstants.{ENTRIES_PER_CFG, WORD_ADDRESSES};
ghost use Rattle.pmp_core.specs.Grain.{read_address};
ghost use Rattle.pmp_core.specs.Lock.{lock_of};
ghost use Rattle.pmp_core.specs.RegisterFile.{IsLegal, entry_at, is_frozen, is_held};
ghost use Rattle.pmp_core.specs.Hart.{bytes_in};
ghost use Rattle.pmp_core.specs.RegisterValue.{byte_in, configuration_word, register_value};
ghost use Rattle.pmp_core.specs.RegisterWrite.{is_address_frozen, is_any_locked};
ghost use Rattle.pmp_core.specs.SavedRegisters.{hart_in, restored_file};

use crate::configuration::{AddressMatching, Configuration};
use crate::configuration_word::{count_off, eight_from, lowest, stored_over};
use crate::csr::Csr;
use crate::hart::Hart;
use crate::lock::Lock;
use crate::mseccfg::MseccfgFields;
use crate::register_write::ENTRIES_PER_CFG;
use crate::saved_registers::SavedRegisters;
use crate::size::MAX_ENTRIES;
use std::marker::Model;

/// The registers of a unit, read from the numbers that keep them: each read decodes what it needs and no more. A
/// contract sees them as the `RegisterFile` of `specs/` that the numbers stand for.
#[derive(Drop)]
pub struct Registers<'a> {
    numbers: &'a SavedRegisters,
    /// The hart that `numbers.entries` stands for, decoded once.
    hart: Hart,
}

impl<'a> Model for Registers<'a> {
    ghost use Rattle.std.specs.Prelude.{◌≡◌};
    ghost use Rattle.pmp_core.specs.RegisterFile.{RegisterFile};

    ghost Value = { RegisterFile };

    ghost use Rattle.pmp_core.specs.SavedRegisters.{hart_in, restored_file};

    ghost view = { λ r. restored_file r.numbers.now };

    ghost invariant = { λ r. r.hart ≡ hart_in r.numbers.now };
}

impl<'a> Registers<'a> {
    /// Returns the registers that these numbers keep; any numbers will do.
    #[inline(always)]
    pub fn of(numbers: &'a SavedRegisters) -> Registers<'a>
        ensures { result ≡ restored_file numbers.now }
    {
        Registers::with(numbers, Hart::from_number(numbers.entries))
    }

    /// Returns the same for the hart of the numbers, already decoded.
    #[inline(always)]
    pub(crate) fn with(numbers: &'a SavedRegisters, hart: Hart) -> Registers<'a>
        requires { hart ≡ hart_in numbers.now }
        ensures { result ≡ restored_file numbers.now }
    {
        Registers { numbers, hart }
    }

    /// Returns the same on a standard hart, else none. A branch that has it is compiled for such harts.
    #[inline(always)]
    pub fn on_standard(numbers: &'a SavedRegisters) -> Option<Registers<'a>>
        ensures { MatchOption result (numbers.now.entries / 2 ^ 32 ≡ 1) (λ registers. registers
            ≡ restored_file numbers.now) }
    {
        let hart = Hart::standard(numbers.entries)?;
        Some(Registers::with(numbers, hart))
    }

    /// Returns the numbers that keep them.
    #[inline(always)]
    pub(crate) fn numbers(&self) -> &'a SavedRegisters
        ensures { restored_file result.now ≡ self.now }
    {
        self.numbers
    }

    /// Returns the hart that has them.
    #[inline(always)]
    pub fn hart(&self) -> Hart
        ensures { result ≡ self.now.profile }
    {
        self.hart
    }

    /// Returns the number of entries.
    #[inline(always)]
    pub fn count(&self) -> usize
        ensures count { result ≡ length self.now.entries }
        ensures most { result ≤ MAX_ENTRIES }
        ensures legal { IsLegal self.now }
    {
        usize::from(self.hart.entries())
    }

    /// Returns the fields of `mseccfg`, if the hart has it.
    #[inline(always)]
    pub(crate) fn fields(&self) -> MseccfgFields
        ensures { result ≡ self.now.mseccfg }
    {
        if self.hart.has_smepmp() {
            MseccfgFields::from_value(self.numbers.mseccfg)
        } else {
            MseccfgFields::RESET
        }
    }

    /// Returns the entry's configuration.
    #[inline(always)]
    pub(crate) fn configuration(&self, index: usize) -> Configuration
        requires { index < length self.now.entries }
        ensures { result ≡ (entry_at self.now.entries index).configuration }
    {
        let configuration = Configuration::from_byte(self.numbers.configurations[index]);
        let admitted = if self.fields().mml {
            configuration
        } else {
            configuration.without_reserved()
        };
        admitted.selectable(self.hart)
    }

    /// Returns the entry's configuration, with a reserved combination of R and W left in.
    #[inline(always)]
    fn raw(&self, index: usize) -> Configuration
        requires { index < length self.now.entries }
        ensures locked { result.locked ≡ (entry_at self.now.entries index).configuration.locked }
        ensures matching { result.matching ≡ (entry_at self.now.entries index).configuration.matching }
    {
        Configuration::from_byte(self.numbers.configurations[index]).selectable(self.hart)
    }

    /// Returns how the entry's address register is read.
    #[inline(always)]
    pub fn matching(&self, index: usize) -> AddressMatching
        requires { index < length self.now.entries }
        ensures { result ≡ (entry_at self.now.entries index).configuration.matching }
    {
        self.raw(index).matching()
    }

    /// Returns how many entries from this one on are OFF, itself at least and eight at most.
    #[inline(always)]
    pub fn count_off(&self, first: usize) -> usize
        requires inside { first < length self.now.entries }
        requires off { (entry_at self.now.entries first).configuration.matching ≡ AddressMatching.Off }
        ensures some { 0 < result }
        ensures most { result ≤ 8 }
        ensures off { (i : ℕ) → first ≤ i → i < first + result
            → (entry_at self.now.entries i).configuration.matching ≡ AddressMatching.Off }
    {
        let _count = self.count();
        count_off(eight_from(&self.numbers.configurations, first)).max(1)
    }

    /// Returns the word address that the entry's register keeps. The bits below the grain read as zeros or ones,
    /// depending on the entry's mode.
    #[inline(always)]
    pub fn address(&self, index: usize) -> u64
        requires { index < length self.now.entries }
        ensures kept { result ≡ (entry_at self.now.entries index).address }
        ensures most { result < WORD_ADDRESSES }
    {
        let words = self.hart.word_addresses();
        self.numbers.addresses[index] % words
    }

    /// Returns the bytes of the entries that the configuration register holds, if there are any.
    #[inline(always)]
    pub(crate) fn configuration_word(&self, register: u8) -> u64
        ensures { result ≡ configuration_word self.now register }
    {
        let first = 4 * usize::from(register);
        if first >= self.count() {
            return 0;
        }
        let bytes = eight_from(&self.numbers.configurations, first);
        let unlocked = MseccfgFields {
            rlb: true,
            ..self.fields()
        };
        let word = stored_over(self.hart, 0, bytes, &unlocked);
        lowest(word, self.hart.bytes_there(register))
    }

    /// Returns what the entry's address register reads if it keeps this address.
    #[inline(always)]
    pub(crate) fn reads(&self, index: usize, address: u64) -> u64
        requires { index < length self.now.entries }
        ensures { let matching = (entry_at self.now.entries index).configuration.matching in
            result ≡ read_address self.now.profile.grain matching address }
    {
        if self.hart().grain() == 0 {
            address
        } else {
            self.hart().read_address(self.matching(index), address)
        }
    }

    /// Returns the value of a register.
    #[inline(always)]
    pub fn read(&self, csr: Csr) -> u64
        ensures { result ≡ register_value self.now csr }
    {
        match csr {
            Csr::Cfg(register) => self.configuration_word(register),
            Csr::Addr(register) if usize::from(register) < self.count() => {
                let index = usize::from(register);
                self.reads(index, self.address(index))
            }
            Csr::Mseccfg => self.fields().value(),
            _ => 0,
        }
    }

    /// Whether the entry is frozen: its lock bit is set and RLB is clear.
    #[inline(always)]
    pub(crate) fn is_frozen(&self, index: usize) -> bool
        requires { index < length self.now.entries }
        ensures { result ≡ is_frozen self.now index }
    {
        self.raw(index).is_locked() && !self.fields().rlb
    }

    /// Whether the entry and all before it are frozen. Then no write changes what they refuse, nor what they allow
    /// while MML stays as it is. An entry frozen alone keeps its bytes, but an open one before it may still take them.
    pub fn is_held(&self, index: usize) -> bool
        requires { index < length self.now.entries }
        ensures { result ≡ is_held self.now index }
    {
        let _count = self.count();
        (0..index + 1).all(|entry| self.is_frozen(entry))
    }

    /// Returns how the entry is locked.
    pub fn lock(&self, index: usize) -> Lock
        requires { index < length self.now.entries }
        ensures { result ≡ lock_of self.now index }
    {
        if self.is_frozen(index) {
            Lock::Frozen
        } else if self.raw(index).is_locked() {
            Lock::Bypassed
        } else {
            Lock::Open
        }
    }

    /// Whether writes leave the entry's address register as it is: the entry, or the next if it is TOR, is frozen.
    #[inline(always)]
    pub fn is_address_frozen(&self, index: usize) -> bool
        requires { index < length self.now.entries }
        ensures { result ≡ is_address_frozen self.now index }
    {
        let count = self.count();
        if self.is_frozen(index) {
            return true;
        }
        let next = index + 1;
        next < count && self.is_frozen(next) && self.matching(next) == AddressMatching::Tor
    }

    /// Whether some entry is locked, even one that is OFF.
    pub(crate) fn is_any_locked(&self) -> bool
        ensures { result ≡ is_any_locked self.now.entries }
    {
        for index in 0..self.count() {
            if self.raw(index).is_locked() {
                return true;
            }
        }
        false
    }
}

impl SavedRegisters {
    /// Returns the value of a register. That of an address register is read in place, which takes little room.
    #[inline(always)]
    pub fn read(&self, csr: Csr) -> u64
        ensures { result ≡ register_value (restored_file self.now) csr }
    {
        match csr {
            Csr::Addr(_) => self.read_here(csr),
            _ => self.read_apart(csr),
        }
    }

    /// Does the same, compiled both for a standard hart and for any hart.
    #[inline(always)]
    fn read_here(&self, csr: Csr) -> u64
        ensures { result ≡ register_value (restored_file self.now) csr }
    {
        match Registers::on_standard(self) {
            Some(registers) => registers.read(csr),
            None => Registers::of(self).read(csr),
        }
    }

    #[inline(never)]
    fn read_apart(&self, csr: Csr) -> u64
        ensures { result ≡ register_value (restored_file self.now) csr }
    {
        self.read_here(csr)
    }
}
