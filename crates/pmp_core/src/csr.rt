//! The unit's control and status registers.

ghost use Rattle.std.specs.Prelude.{◌≡◌};
ghost use Rattle.pmp_core.specs.Csr.{numbered, numbered_on};

/// A PMP register (Volume II, 3.7.1), or `mseccfg` (Smepmp). A register that the hart lacks, such as `Cfg(3)` on RV64,
/// reads zero, and writing it changes nothing.
#[derive(Clone, Copy, Debug, PartialEq, Eq)]
pub enum Csr {
    /// `pmpcfg` with this number: eight configuration bytes, or four on RV32.
    Cfg(u8),
    /// `pmpaddr` with this number: a word address, bits 55 to 2 of a byte address, or 33 to 2 on RV32.
    Addr(u8),
    /// `mseccfg`: the bits MML, MMWP and RLB.
    Mseccfg,
    /// `mseccfgh` of RV32, which reads zero.
    Mseccfgh,
}

/// Why a CSR number names no register of the unit.
#[derive(Clone, Copy, Debug, PartialEq, Eq)]
pub enum CsrFault {
    /// An odd `pmpcfg` register, which RV64 doesn't have.
    OddCfg,
    /// Neither a PMP register nor `mseccfg`.
    NotPmp,
}

impl Csr {
    /// Returns the RV64 register with this CSR number.
    pub fn from_number(number: u16) -> Result<Csr, CsrFault>
        ensures { result ≡ numbered number }
    {
        Csr::on(false, number)
    }

    /// Returns the register with this CSR number for an XLEN of 32 or 64.
    #[inline(always)]
    pub fn on(is_rv32: bool, number: u16) -> Result<Csr, CsrFault>
        ensures { result ≡ numbered_on is_rv32 number }
    {
        match number {
            0x3B0..=0x3EF => Ok(Csr::Addr((number - 0x3B0) as u8)),
            0x3A0..=0x3AF if !is_rv32 && number % 2 == 1 => Err(CsrFault::OddCfg),
            0x3A0..=0x3AF => Ok(Csr::Cfg((number - 0x3A0) as u8)),
            0x747 => Ok(Csr::Mseccfg),
            _ if is_rv32 && number == 0x757 => Ok(Csr::Mseccfgh),
            _ => Err(CsrFault::NotPmp),
        }
    }
}
