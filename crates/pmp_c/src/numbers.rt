//! The numbers that calls take and return.

ghost use Rattle.std.specs.Prelude.{◌≡◌, ◌^◌, ◌<◌, Err};
ghost use Rattle.pmp_core.specs.Csr.{numbered, numbered_on};
ghost use Rattle.pmp_c.specs.RangeRights.{rights_number};
ghost use Rattle.pmp_c.specs.Status.{status_number, write_number};

use pmp_core::{Csr, CsrFault, Hart, Perms, Written};

/// The status of a call that succeeded without changing a register.
pub const UNCHANGED: u32 = 0;

/// The status of a call whose number names no hart.
pub const NO_HART: u32 = 3;

/// The bit of a write that changed a register.
const CHANGED: u32 = 4;

/// The bit of a write that moved bytes.
pub const MOVED: u32 = 8;

/// The factor by which the reasons of a write are multiplied.
const REASONS: u32 = 256;

/// Returns the status of a write.
#[inline(always)]
pub fn write_status(written: &Written) -> u32
    ensures number { result ≡ write_number written.now }
    ensures most { result < 2 ^ 31 }
{
    let reasons = REASONS * u32::from(written.reasons.bits());
    if written.is_changed {
        CHANGED + reasons
    } else {
        UNCHANGED + reasons
    }
}

/// Returns the status of a call that found no register.
pub fn refusal_status(fault: CsrFault) -> u32
    ensures { result ≡ status_number (Err fault) }
{
    match fault {
        CsrFault::OddCfg => 1,
        CsrFault::NotPmp => 2,
    }
}

/// Returns the RV64 register with this CSR number.
pub fn csr_of(number: u32) -> Result<Csr, CsrFault>
    ensures { result ≡ numbered number }
{
    match u16::try_from(number) {
        Ok(short) => Csr::from_number(short),
        Err(_) => Err(CsrFault::NotPmp),
    }
}

/// Returns the register of this hart with this CSR number.
#[inline(always)]
pub fn csr_on(hart: Hart, number: u32) -> Result<Csr, CsrFault>
    ensures { result ≡ numbered_on hart.is_rv32 number }
{
    match u16::try_from(number) {
        Ok(short) => hart.csr(short),
        Err(_) => Err(CsrFault::NotPmp),
    }
}

/// The rights in a range whose bytes don't all have one owner.
const MIXED: u32 = 8;

/// The rights if the numbers name no range.
pub const NO_RANGE: u32 = 16;

/// Returns the rights as a number: R is 1, W is 2, X is 4.
#[inline(always)]
pub fn rights_number(rights: Option<Perms>) -> u32
    ensures { result ≡ rights_number rights }
{
    match rights {
        Some(perms) => u32::from(perms.number()),
        None => MIXED,
    }
}
