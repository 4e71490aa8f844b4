//! The effect of a write to a register.

ghost use Rattle.std.specs.Prelude.{◌≡◌};
ghost use Rattle.pmp_core.specs.declared.csr.Csr.{Csr};
ghost use Rattle.pmp_core.specs.RegisterValue.{configuration_word, register_value};
ghost use Rattle.pmp_core.specs.RegisterWrite.{security_written, written};
ghost use Rattle.pmp_core.specs.SavedRegisters.{hart_in};
ghost use Rattle.pmp_core.specs.Writing.{IsWritten};

use crate::configuration_word::{lowest, put_lowest, stored_over};
use crate::csr::Csr;
use crate::hart::Hart;
use crate::mseccfg::MseccfgFields;
use crate::registers::Registers;
use crate::saved_registers::SavedRegisters;
use crate::write_reasons::Reasons;

/// The greatest number of word addresses: an address register has at most 54 bits.
pub const WORD_ADDRESSES: u64 = 1 << 54;

/// The greatest number of entries that a configuration register has bytes of.
pub const ENTRIES_PER_CFG: usize = 8;

/// The outcome of a write.
#[derive(Clone, Copy, Debug, PartialEq, Eq)]
pub struct Written {
    pub is_changed: bool,
    /// Why the register doesn't read what was written to it.
    pub reasons: Reasons,
}

impl<'a> Registers<'a> {
    /// Returns what the configuration register reads after a write of the value, given what it reads before.
    #[inline(always)]
    fn configurations_after(&self, register: u8, old: u64, value: u64) -> u64
        requires { old ≡ configuration_word self.now register }
        ensures { let csr = Csr.Cfg register in result ≡ register_value (written self.now csr value) csr }
    {
        let _count = self.count();
        let word = stored_over(self.hart(), old, value, &self.fields());
        lowest(word, self.hart().bytes_there(register))
    }

    /// Returns the fields of `mseccfg` after a write of the value, if the hart has it: MML and MMWP are sticky, and a
    /// lock keeps RLB from being set.
    fn fields_after(&self, value: u64) -> MseccfgFields
        ensures { result ≡ security_written self.now value }
    {
        let old = self.fields();
        if !self.hart().has_smepmp() {
            return old;
        }
        let new = MseccfgFields::from_value(value);
        MseccfgFields {
            mml: old.mml || new.mml,
            mmwp: old.mmwp || new.mmwp,
            rlb: new.rlb && (old.rlb || !self.is_any_locked()),
        }
    }
}

impl SavedRegisters {
    /// Writes a configuration register.
    #[inline(always)]
    pub(crate) fn write_configurations(&mut self, hart: Hart, register: u8, value: u64) -> Written
        requires { hart ≡ hart_in self.old }
        ensures { IsWritten self.old self.new (Csr.Cfg register) value result }
    {
        let registers = Registers::with(self, hart);
        let old = registers.configuration_word(register);
        let word = registers.configurations_after(register, old, value);
        let reasons = registers.reasons_where(Csr::Cfg(register), value, word);
        if word == old {
            return Written {
                is_changed: false,
                reasons,
            };
        }
        let first = 4 * usize::from(register);
        let count = hart.bytes_there(register);
        put_lowest(&mut self.configurations, first, word, count);
        Written {
            is_changed: true,
            reasons,
        }
    }

    /// Writes an address register.
    #[inline(always)]
    pub(crate) fn write_address(&mut self, hart: Hart, register: u8, value: u64) -> Written
        requires { hart ≡ hart_in self.old }
        ensures { IsWritten self.old self.new (Csr.Addr register) value result }
    {
        let registers = Registers::with(self, hart);
        let index = usize::from(register);
        if index >= registers.count() || registers.is_address_frozen(index) {
            return Written {
                is_changed: false,
                reasons: registers.reasons_apart(Csr::Addr(register), value),
            };
        }
        let reasons = registers.open_address_reasons(register, value);
        let address = value % registers.hart().word_addresses();
        if registers.address(index) == address {
            return Written {
                is_changed: false,
                reasons,
            };
        }
        self.addresses[index] = address;
        Written {
            is_changed: true,
            reasons,
        }
    }

    /// Writes `mseccfg`. Once MML is set a byte may mean other rights, so each becomes the one that is stored.
    #[inline(always)]
    pub(crate) fn write_mseccfg(&mut self, hart: Hart, value: u64) -> Written
        requires { hart ≡ hart_in self.old }
        ensures { IsWritten self.old self.new Csr.Mseccfg value result }
    {
        let registers = Registers::with(self, hart);
        let old = registers.fields();
        let new = registers.fields_after(value);
        let reads = new.value();
        let reasons = registers.reasons_where(Csr::Mseccfg, value, reads);
        if reads == old.value() {
            return Written {
                is_changed: false,
                reasons,
            };
        }
        if new.mml && !old.mml {
            *self = self.canonical();
        }
        self.mseccfg = reads;
        Written {
            is_changed: true,
            reasons,
        }
    }

    /// Writes `mseccfgh`, which changes nothing.
    pub(crate) fn write_mseccfgh(&mut self, hart: Hart, value: u64) -> Written
        requires { hart ≡ hart_in self.old }
        ensures { IsWritten self.old self.new Csr.Mseccfgh value result }
    {
        let reasons = Registers::with(self, hart).reasons_where(Csr::Mseccfgh, value, 0);
        Written {
            is_changed: false,
            reasons,
        }
    }

    /// Writes a register of this hart, which is known wherever this is inlined.
    #[inline(always)]
    fn write_on(&mut self, hart: Hart, csr: Csr, value: u64) -> Written
        requires { hart ≡ hart_in self.old }
        ensures { IsWritten self.old self.new csr value result }
    {
        match csr {
            Csr::Cfg(register) => self.write_configurations(hart, register, value),
            Csr::Addr(register) => self.write_address(hart, register, value),
            Csr::Mseccfg => self.write_mseccfg(hart, value),
            Csr::Mseccfgh => self.write_mseccfgh(hart, value),
        }
    }

    /// Does the same, compiled both for a standard hart and for any hart.
    #[inline(never)]
    fn write_apart(&mut self, csr: Csr, value: u64) -> Written
        ensures { IsWritten self.old self.new csr value result }
    {
        match Hart::standard(self.entries) {
            Some(hart) => self.write_on(hart, csr, value),
            None => self.write_on(Hart::from_number(self.entries), csr, value),
        }
    }

    /// Writes a register. An address register of a standard hart is written in place, which takes little room.
    #[inline(always)]
    pub fn write(&mut self, csr: Csr, value: u64) -> Written
        ensures { IsWritten self.old self.new csr value result }
    {
        match (csr, Hart::standard(self.entries)) {
            (Csr::Addr(register), Some(hart)) => self.write_address(hart, register, value),
            _ => self.write_apart(csr, value),
        }
    }
}
