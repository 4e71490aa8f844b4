//! The names of registers, reading and writing.

ghost use Rattle.std.specs.Prelude.{◌≡◌, ◌≤◌, IfSome, Some};
ghost use Rattle.pmp_text.specs.Names.{plain_number, register_name, register_number, register_named};

use crate::numbers::read_numeral;
use crate::refusal::Refusal;
use crate::words::is_word;
use pmp_core::{Csr, CsrFault};
use std::fmt;

const FIRST_CFG: u64 = 0x3A0;

const FIRST_ADDR: u64 = 0x3B0;

const MSECCFG: u64 = 0x747;

const MSECCFGH: u64 = 0x757;

/// Returns the number that the digits write in decimal without leading zeros, if it is at most `most`.
#[tactic(auto, unfolding(crate::specs::Names::plain_number))]
pub fn read_plain_number(digits: &[u8], most: u64) -> Option<u64>
    ensures number { result ≡ plain_number most digits.now }
    ensures limit { IfSome result (λ number. number ≤ most) }
{
    if digits.len() == 2 && digits[0] == b'0' {
        return None;
    }
    let number = read_numeral(digits, 10, 2)?;
    (number <= most).then_some(number)
}

/// Returns the number of the register that a word names.
#[tactic(auto, unfolding(crate::specs::Names::register_number))]
pub fn read_register_number(word: &[u8]) -> Option<u64>
    ensures { result ≡ register_number word.now }
{
    if is_word(word, b"mseccfg") {
        return Some(MSECCFG);
    }
    if is_word(word, b"mseccfgh") {
        return Some(MSECCFGH);
    }
    if let Some(digits) = word.strip_prefix(b"pmpcfg") {
        return Some(FIRST_CFG + read_plain_number(digits, 15)?);
    }
    if let Some(digits) = word.strip_prefix(b"pmpaddr") {
        return Some(FIRST_ADDR + read_plain_number(digits, 63)?);
    }
    read_numeral(word.strip_prefix(b"0x")?, 16, 16)
}

/// Returns the register that a word names, for an XLEN of 32 or 64.
pub fn read_register(is_rv32: bool, word: &[u8]) -> Result<Csr, Refusal>
    ensures { result ≡ register_named is_rv32 word.now }
{
    let number = read_register_number(word).ok_or(Refusal::BadName)?;
    let number = u16::try_from(number).or(Err(Refusal::BadName))?;
    Csr::on(is_rv32, number).map_err(|fault| match fault {
        CsrFault::OddCfg => Refusal::OddCfg,
        CsrFault::NotPmp => Refusal::BadName,
    })
}

/// A register's name in scripts and dumps.
#[derive(Clone, Copy)]
pub struct RegisterName(pub Csr);

impl fmt::Display for RegisterName {
    ghost output = { λ name. Some (register_name name.0) };

    fn fmt<W: fmt::Write>(&self, f: &mut fmt::Formatter<W>) -> fmt::Result {
        match self.0 {
            Csr::Cfg(number) => write!(f, "pmpcfg{number}"),
            Csr::Addr(number) => write!(f, "pmpaddr{number}"),
            Csr::Mseccfg => write!(f, "mseccfg"),
            Csr::Mseccfgh => write!(f, "mseccfgh"),
        }
    }
}
