//! The unit: its registers, and the tables of its map.

ghost use Rattle.std.specs.Prelude.{◌≡◌, ◌+◌, ◌^◌, ◌<◌, ◌≤◌, IfSome, Err, MatchResult, Ok, Some, false, true};
ghost use Rattle.pmp_core.specs.declared.access.TheConstants.{ADDRESS_LIMIT};
ghost use Rattle.pmp_core.specs.Ranges.{decision_of};
ghost use Rattle.pmp_core.specs.Rights.{perms_of};
ghost use Rattle.pmp_map.specs.Answers.{owned_rights};
ghost use Rattle.pmp_map.specs.Answer.{answer_number};
ghost use Rattle.pmp_map.specs.RangeRights.{AreRangeRights};
ghost use Rattle.pmp_map.specs.Runs.{IsRunAround};
ghost use Rattle.pmp_core.specs.RegisterValue.{register_value};
ghost use Rattle.pmp_c.specs.Status.{IsMoveAnswer, IsWriteAnswer, ends, found_on, register_in, status_number};
ghost use Rattle.pmp_c.specs.Status.{write_number};
ghost use Rattle.pmp_core.specs.Csr.{numbered_on};
ghost use Rattle.pmp_c.specs.Unit.{file_of_unit, IsBuilt, IsUnit};

use crate::numbers::{MOVED, UNCHANGED, csr_of, csr_on, refusal_status, write_status};
use pmp_core::{Access, Csr, CsrFault, Hart, Mode, Perms, Registers, SavedRegisters, Written};
use pmp_map::{Run, Tables, answer_number, owned_run, rights_in};

/// A unit. If all its bytes are zero it is one of sixteen entries after reset, whose map isn't built.
#[repr(C)]
#[derive(Clone, Copy, Debug, PartialEq, Eq)]
pub struct Unit {
    pub registers: SavedRegisters,
    /// Empty from a write until it is rebuilt.
    pub map: Tables,
}

/// Returns the register of this hart with this CSR number.
#[inline(always)]
fn register_on(hart: Hart, number: u32) -> Result<Csr, CsrFault>
    ensures { result ≡ found_on hart (numbered_on hart.is_rv32 number) }
{
    match csr_on(hart, number) {
        Ok(Csr::Mseccfg | Csr::Mseccfgh) if !hart.has_smepmp() => Err(CsrFault::NotPmp),
        found => found,
    }
}

impl Unit {
    fn hart(&self) -> Hart
        ensures { result ≡ (file_of_unit self.now).profile }
    {
        Registers::of(&self.registers).hart()
    }

    /// Returns the register with this CSR number if RV64 has it, and so every hart, except perhaps `mseccfg`.
    #[inline(always)]
    pub fn usual_register(&self, number: u32) -> Option<Csr>
        ensures { IfSome result (λ csr. register_in (file_of_unit self.now) number ≡ Ok csr) }
    {
        match csr_of(number) {
            Ok(Csr::Mseccfg) if !Registers::of(&self.registers).hart().has_smepmp() => None,
            Ok(csr) => Some(csr),
            Err(_) => None,
        }
    }

    /// Returns the status of a write that its registers have taken. If one changed, the map isn't built.
    #[inline(always)]
    pub fn noted(&mut self, written: &Written) -> u32
        ensures number { result ≡ write_number written.now }
        ensures most { result < 2 ^ 31 }
        ensures registers { self.new.registers ≡ self.old.registers }
        ensures unbuilt { written.now.is_changed ≡ true → self.new.map.runs ≡ 0 }
        ensures kept { written.now.is_changed ≡ false → self.new ≡ self.old }
    {
        if written.is_changed {
            self.map.runs = 0;
        }
        write_status(written)
    }

    /// Writes the register. If one changed, the map isn't built.
    #[inline(always)]
    pub fn write(&mut self, csr: Csr, value: u64) -> u32
        ensures { IsWriteAnswer self.old self.new csr value result }
    {
        let written = self.registers.write(csr, value);
        self.noted(&written)
    }

    /// Writes the register with this CSR number, if its hart has it.
    #[cold]
    #[inline(never)]
    pub fn write_on_hart(&mut self, number: u32, value: u64) -> u32
        ensures { MatchResult (register_in (file_of_unit self.old) number)
            (λ csr. IsWriteAnswer self.old self.new csr value result)
            (λ fault. (result ≡ status_number (Err fault)) × (self.new ≡ self.old)) }
    {
        match register_on(self.hart(), number) {
            Ok(csr) => self.write(csr, value),
            Err(fault) => refusal_status(fault),
        }
    }

    /// Writes the register, and the ends of what it moves, if anything.
    #[inline(always)]
    pub fn write_moved(&mut self, csr: Csr, value: u64, first: &mut u64, last: &mut u64) -> u32
        ensures { IsMoveAnswer self.old self.new csr value (ends first.old last.old) (ends first.new last.new) result }
    {
        let (written, moved) = self.registers.write_moved(csr, value);
        let status = self.noted(&written);
        match moved {
            Some(span) => {
                *first = span.first;
                *last = span.last;
                status + MOVED
            }
            None => status,
        }
    }

    /// Does the same for the register with this CSR number, if its hart has it.
    #[cold]
    #[inline(never)]
    pub fn write_moved_on_hart(
        &mut self,
        number: u32,
        value: u64,
        first: &mut u64,
        last: &mut u64,
    ) -> u32
        ensures { MatchResult (register_in (file_of_unit self.old) number)
            (λ csr. IsMoveAnswer self.old self.new csr value (ends first.old last.old) (ends first.new last.new) result)
            (λ fault. (result ≡ status_number (Err fault)) × (self.new ≡ self.old)
            × (ends first.new last.new ≡ ends first.old last.old)) }
    {
        match register_on(self.hart(), number) {
            Ok(csr) => self.write_moved(csr, value, first, last),
            Err(fault) => refusal_status(fault),
        }
    }

    /// Returns the registers of a standard hart, and which of them has this CSR number.
    #[inline(always)]
    pub fn standard_register(&self, number: u32) -> Option<(Registers<'_>, Csr)>
        ensures { let file = file_of_unit self.now in
            IfSome result (λ found. (found.0 ≡ file) × (register_in file number ≡ Ok found.1)) }
    {
        let registers = Registers::on_standard(&self.registers)?;
        match csr_of(number) {
            Ok(Csr::Mseccfg) if !registers.hart().has_smepmp() => None,
            Ok(csr) => Some((registers, csr)),
            Err(_) => None,
        }
    }

    /// Reads the register with this CSR number, if its hart has it.
    #[inline(never)]
    pub fn read_on_hart(&self, number: u32, value: &mut u64) -> u32
        ensures status { result ≡ status_number (register_in (file_of_unit self.now) number) }
        ensures value { MatchResult (register_in (file_of_unit self.now) number)
            (λ csr. value.new ≡ register_value (file_of_unit self.now) csr)
            (λ fault. value.new ≡ value.old) }
    {
        let registers = Registers::of(&self.registers);
        match register_on(registers.hart(), number) {
            Ok(csr) => {
                *value = registers.read(csr);
                UNCHANGED
            }
            Err(fault) => refusal_status(fault),
        }
    }

    /// Builds the map, unless it is built.
    #[inline(never)]
    pub fn build(&mut self)
        ensures { IsBuilt self.old self.new }
    {
        if self.map.runs == 0 {
            self.map.fill(&Registers::of(&self.registers));
        }
    }

    /// Returns the answer by the registers, without the map.
    #[cold]
    #[inline(never)]
    pub fn answer_by_registers(&self, access: &Access) -> u16
        ensures { result ≡ answer_number access.now (decision_of (file_of_unit self.now) access.now) }
    {
        answer_number(access, &self.registers.decide(access))
    }

    /// Returns the answer, by the map if it is built.
    #[inline(always)]
    pub fn answer(&self, access: &Access) -> u16
        ensures { IsUnit self.now → result ≡ answer_number access.now (decision_of (file_of_unit self.now) access.now) }
    {
        if self.map.runs > 0 {
            self.map.answer(access)
        } else {
            self.answer_by_registers(access)
        }
    }

    /// Returns what the mode may do in the whole range, by the registers.
    #[cold]
    #[inline(never)]
    fn rights_by_registers(&self, mode: Mode, start: u64, length: u64) -> Option<Perms>
        requires full { 0 < length }
        requires inside { start + length ≤ ADDRESS_LIMIT }
        ensures { AreRangeRights (file_of_unit self.now) mode start length result }
    {
        match Registers::on_standard(&self.registers) {
            Some(registers) => rights_in(&registers, mode, start, length),
            None => rights_in(&Registers::of(&self.registers), mode, start, length),
        }
    }

    /// Returns what the mode may do in the whole range, by the map if it is built, or none if no one owner has all of
    /// its bytes.
    #[inline(always)]
    pub fn rights(&self, mode: Mode, start: u64, length: u64) -> Option<Perms>
        requires full { 0 < length }
        requires inside { start + length ≤ ADDRESS_LIMIT }
        ensures { IsUnit self.now → AreRangeRights (file_of_unit self.now) mode start length result }
    {
        if self.map.runs > 0 {
            self.map.rights(mode, start, length)
        } else {
            self.rights_by_registers(mode, start, length)
        }
    }

    /// Returns all bytes around this one that have its owner, and what the mode may do there, by the registers.
    #[cold]
    #[inline(never)]
    fn run_by_registers(&self, mode: Mode, byte: u64) -> (Run, Perms)
        requires { byte < ADDRESS_LIMIT }
        ensures run { IsRunAround (file_of_unit self.now) byte result.0 }
        ensures rights { result.1 ≡ perms_of (owned_rights (file_of_unit self.now) result.0.owner mode) }
    {
        match Registers::on_standard(&self.registers) {
            Some(registers) => owned_run(&registers, mode, byte),
            None => owned_run(&Registers::of(&self.registers), mode, byte),
        }
    }

    /// Returns the same, by the map if it is built.
    #[inline(always)]
    pub fn run(&self, mode: Mode, byte: u64) -> (Run, Option<Perms>)
        requires { byte < ADDRESS_LIMIT }
        ensures run { IsUnit self.now → IsRunAround (file_of_unit self.now) byte result.0 }
        ensures rights { IsUnit self.now → result.1
            ≡ Some (perms_of (owned_rights (file_of_unit self.now) result.0.owner mode)) }
    {
        if self.map.runs > 0 {
            (self.map.run_of(byte), self.map.rights(mode, byte, 1))
        } else {
            let (run, rights) = self.run_by_registers(mode, byte);
            (run, Some(rights))
        }
    }
}
