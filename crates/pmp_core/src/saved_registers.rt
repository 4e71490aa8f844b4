//! The registers of a unit as plain numbers.

ghost use Rattle.std.specs.Prelude.{◌≡◌, true};
ghost use Rattle.pmp_core.specs.RegisterFile.{reset_file};
ghost use Rattle.pmp_core.specs.SavedRegisters.{names_hart, restored_file, saved_registers};

use crate::hart::Hart;
use crate::registers::Registers;
use crate::size::MAX_ENTRIES;

/// The registers of a unit, for a snapshot or for memory that isn't Rattle's. `RegFile::restore` and `Registers::of`
/// accept any numbers.
#[repr(C)]
#[derive(Clone, Copy, Debug, PartialEq, Eq)]
pub struct SavedRegisters {
    /// `pmpaddr0` to `pmpaddr63`, word addresses.
    pub addresses: [u64; MAX_ENTRIES],
    /// The configuration byte of each entry.
    pub configurations: [u8; MAX_ENTRIES],
    /// `mseccfg`.
    pub mseccfg: u64,
    /// The hart, as `Hart::number` returns it: 64 is sixty-four entries, and any other number that encodes no hart is
    /// sixteen, with the widest addresses and Smepmp.
    pub entries: u64,
}

impl SavedRegisters {
    /// Returns the registers of this hart after reset.
    pub fn reset_on(hart: Hart) -> SavedRegisters
        ensures saved { result ≡ saved_registers (reset_file hart) }
        ensures restored { restored_file result ≡ reset_file hart }
    {
        SavedRegisters {
            addresses: [0; MAX_ENTRIES],
            configurations: [0; MAX_ENTRIES],
            mseccfg: 0,
            entries: hart.number(),
        }
    }

    /// Returns the numbers that the same registers are saved as: each as it is stored, and zeros past the last entry.
    pub fn canonical(&self) -> SavedRegisters
        ensures saved { result ≡ saved_registers (restored_file self.now) }
        ensures restored { restored_file result ≡ restored_file self.now }
        ensures named { names_hart result.entries ≡ true }
    {
        let registers = Registers::of(self);
        let mut addresses = [0; MAX_ENTRIES];
        let mut configurations = [0; MAX_ENTRIES];
        for place in 0..registers.count() {
            addresses[place] = registers.address(place);
            configurations[place] = registers.configuration(place).byte();
        }
        SavedRegisters {
            addresses,
            configurations,
            mseccfg: registers.fields().value(),
            entries: registers.hart().number(),
        }
    }
}
