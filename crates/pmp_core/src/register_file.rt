//! The register file: the registers of a unit, and how resets and writes change them.

ghost use Rattle.std.specs.Prelude.{◌≡◌, ◌<◌, ◌≤◌, ◌↔◌, IsTrue, length, fold};
ghost use Rattle.pmp_core.specs.RegisterFile.{IsLegal, reset_file, is_frozen};
ghost use Rattle.pmp_core.specs.Matching.{Matches};
ghost use Rattle.pmp_core.specs.Decision.{IsDecision};
ghost use Rattle.pmp_core.specs.Rights.{perms_of, rights, default_rights};
ghost use Rattle.pmp_core.specs.RegisterWrite.{step};
ghost use Rattle.pmp_core.specs.RegisterValue.{register_value};
ghost use Rattle.pmp_core.specs.Ranges.{decision_of};
ghost use Rattle.pmp_core.specs.SavedRegisters.{saved_registers, restored_file};
ghost use Rattle.pmp_core.specs.Hart.{profile_of, size_for};
ghost use Rattle.pmp_core.specs.declared.size.Size.TheVariants.{Sixteen};
ghost use Rattle.pmp_core.specs.declared.access.TheConstants.{ADDRESS_LIMIT};

use crate::access::{Access, Mode};
use crate::csr::Csr;
use crate::decision::Decision;
use crate::event::Event;
use crate::hart::Hart;
use crate::perms::Perms;
use crate::registers::Registers;
use crate::saved_registers::SavedRegisters;
use crate::size::{MAX_ENTRIES, Size};
use std::marker::Model;

/// The number of entries of a unit of `Size::Sixteen`.
pub const ENTRIES: usize = 16;

/// The registers of one unit. A contract sees them as a `RegisterFile` of `specs/`.
#[derive(Clone, Copy, Debug, PartialEq, Eq)]
pub struct RegFile {
    /// As they are saved.
    numbers: SavedRegisters,
}

impl Model for RegFile {
    ghost use Rattle.std.proofs.Common.{ap};
    ghost use Rattle.pmp_core.specs.RegisterFile.{RegisterFile};
    ghost use Rattle.pmp_core.specs.SavedRegisters.{IsCanonical, restored_file, saved_registers};

    ghost Value = { RegisterFile };

    ghost view = { λ f. restored_file f.numbers };

    ghost invariant = { λ f. IsCanonical f.numbers };

    ghost inverse = { λ file. record { numbers = saved_registers file } };

    ghost inverse_ok = { λ f h. ap (λ numbers. record { numbers = numbers }) h };
}

impl RegFile {
    /// Returns the register file of a unit of sixteen entries after reset: all registers are zero.
    pub fn reset() -> RegFile
        ensures { result ≡ reset_file (profile_of Sixteen) }
    {
        RegFile::reset_of(Size::Sixteen)
    }

    /// Returns the register file of a unit of this size after reset, with the widest addresses and Smepmp: all
    /// registers are zero.
    pub fn reset_of(size: Size) -> RegFile
        ensures { result ≡ reset_file (profile_of size) }
    {
        RegFile::reset_on(Hart::of(size))
    }

    /// Returns the register file of this hart after reset: all registers are zero.
    pub fn reset_on(hart: Hart) -> RegFile
        ensures { result ≡ reset_file hart }
    {
        RegFile {
            numbers: SavedRegisters::reset_on(hart),
        }
    }

    /// Returns the unit's registers as plain numbers.
    pub fn save(&self) -> SavedRegisters
        ensures saved { result ≡ saved_registers self.now }
        ensures restored { restored_file result ≡ self.now }
    {
        self.numbers
    }

    /// Returns the unit that any such numbers stand for. Bits that a register lacks are left out, and so are registers
    /// of entries that the unit lacks; if MML is clear, an entry with W and without R has no rights, as a write stores
    /// it (Volume II, 3.7.1).
    pub fn restore(saved: &SavedRegisters) -> RegFile
        ensures { result ≡ restored_file saved.now }
    {
        RegFile {
            numbers: saved.canonical(),
        }
    }

    /// Returns the registers, for questions about one entry or one write.
    pub fn registers(&self) -> Registers<'_>
        ensures same { result ≡ self.now }
        ensures legal { IsLegal self.now }
    {
        Registers::of(&self.numbers)
    }

    /// Returns the hart that has these registers.
    pub fn hart(&self) -> Hart
        ensures { result ≡ self.now.profile }
    {
        self.registers().hart()
    }

    /// Returns how many entries the hart has.
    pub fn entries(&self) -> u8
        ensures count { result ≡ length self.now.entries }
        ensures most { result ≤ MAX_ENTRIES }
    {
        self.registers().count() as u8
    }

    /// Returns the size that has room for the entries: that of `reset_of`, and for a hart with another number of
    /// entries the least size with as many.
    pub fn size(&self) -> Size
        ensures { result ≡ size_for self.now.profile }
    {
        if usize::from(self.hart().entries()) > ENTRIES {
            Size::SixtyFour
        } else {
            Size::Sixteen
        }
    }

    /// Resets the unit, which is rare.
    #[cold]
    #[inline(never)]
    fn reset_again(&mut self)
        ensures reset { self.new ≡ reset_file self.old.profile }
        ensures legal { IsLegal self.new }
        ensures entries { length self.new.entries ≡ length self.old.entries }
    {
        let hart = self.registers().hart();
        *self = RegFile::reset_on(hart);
    }

    /// Takes one event. A reset keeps the hart.
    pub fn step(&mut self, event: Event)
        ensures step { self.new ≡ step self.old event }
        ensures legal { IsLegal self.new }
        ensures entries { length self.new.entries ≡ length self.old.entries }
    {
        match event {
            Event::Write(csr, value) => {
                self.numbers.write(csr, value);
            }
            Event::Reset => self.reset_again(),
        }
    }

    /// Takes the events in order.
    pub fn run_events(&mut self, events: &[Event])
        ensures steps { self.new ≡ fold step self.old events.now }
        ensures entries { length self.new.entries ≡ length self.old.entries }
    {
        for event in events {
            self.step(*event);
        }
    }

    /// Returns the value of a register.
    pub fn read(&self, csr: Csr) -> u64
        ensures { result ≡ register_value self.now csr }
    {
        self.registers().read(csr)
    }

    /// Decides an access, in one pass over the entries.
    pub fn decide(&self, access: &Access) -> Decision
        ensures by_bytes { IsDecision self.now access.now result }
        ensures computed { result ≡ decision_of self.now access.now }
    {
        self.registers().decide(access)
    }

    /// Whether the entry is frozen: its lock bit is set and RLB is clear, so that writes leave it as it is.
    pub fn is_locked(&self, entry: u8) -> bool
        requires { entry < length self.now.entries }
        ensures { result ≡ is_frozen self.now entry }
    {
        self.registers().is_frozen(usize::from(entry))
    }

    /// Returns what the entry's rule allows the mode, if the entry matches every byte of an access.
    pub fn rights(&self, entry: u8, mode: Mode) -> Perms
        requires { entry < length self.now.entries }
        ensures rights { result ≡ perms_of (rights self.now entry mode) }
        ensures legal { IsLegal self.now }
    {
        self.registers().rights(usize::from(entry), mode)
    }

    /// Returns what the mode may do if no entry matches any byte of an access.
    pub fn default_rights(&self, mode: Mode) -> Perms
        ensures rights { result ≡ perms_of (default_rights self.now mode) }
        ensures legal { IsLegal self.now }
    {
        self.registers().default_rights(mode)
    }

    /// Whether the entry matches the byte at this byte address.
    pub fn matches(&self, entry: u8, byte: u64) -> bool
        requires entry { entry < length self.now.entries }
        requires byte { byte < ADDRESS_LIMIT }
        ensures { IsTrue result ↔ Matches self.now entry byte }
    {
        self.registers().range(usize::from(entry)).contains(byte)
    }
}
