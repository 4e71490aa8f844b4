//! The registers and values that the hart of a script has.

ghost use Rattle.std.specs.Prelude.{◌≡◌};
ghost use Rattle.pmp_text.specs.Heads.{event_flaw, first_of, foreign_at, foreign_expectation, foreign_kind, foreign_line};
ghost use Rattle.pmp_text.specs.Heads.{write_flaw};

use crate::expectation::Expectation;
use crate::fault::Fault;
use crate::flaw::Flaw;
use crate::refusal::Refusal;
use crate::script::head::HeadLine;
use crate::script::statement::HeadStatement;
use crate::script::version::Version;
use pmp_core::{Csr, Event};

/// Returns how a register that no hart of this XLEN has is refused.
fn foreign_kind(is_rv32: bool, csr: Csr) -> Option<Refusal>
    ensures { result ≡ foreign_kind is_rv32 csr }
{
    match csr {
        Csr::Cfg(register) if !is_rv32 && register % 2 == 1 => Some(Refusal::OddCfg),
        Csr::Mseccfgh if !is_rv32 => Some(Refusal::BadName),
        _ => None,
    }
}

/// Returns the same, at the line that names it.
fn foreign_at(is_rv32: bool, line: u64, csr: Csr) -> Option<Fault>
    ensures { result ≡ foreign_at is_rv32 line csr }
{
    let kind = foreign_kind(is_rv32, csr)?;
    Some(kind.part(1).at_line(line))
}

fn foreign_line(is_rv32: bool, line: &HeadLine) -> Option<Fault>
    ensures { result ≡ foreign_line is_rv32 line.now }
{
    match line.statement {
        HeadStatement::Hart(_) => None,
        HeadStatement::Set(csr, _) => foreign_at(is_rv32, line.line, csr),
    }
}

/// Returns the fault of the first line of a head that sets such a register.
pub fn first_foreign_line(is_rv32: bool, lines: &[HeadLine]) -> Option<Fault>
    ensures { result ≡ first_of (foreign_line is_rv32) lines.now }
{
    for line in lines {
        if let Some(fault) = foreign_line(is_rv32, line) {
            return Some(fault);
        }
    }
    None
}

fn foreign_expectation(is_rv32: bool, expected: &Expectation) -> Option<Fault>
    ensures { result ≡ foreign_expectation is_rv32 expected.now }
{
    foreign_at(is_rv32, expected.line, expected.register)
}

/// Returns the fault of the first line that expects something of such a register.
pub fn first_foreign_expectation(is_rv32: bool, expected: &[Expectation]) -> Option<Fault>
    ensures { result ≡ first_of (foreign_expectation is_rv32) expected.now }
{
    for one in expected {
        if let Some(fault) = foreign_expectation(is_rv32, one) {
            return Some(fault);
        }
    }
    None
}

/// Returns what is wrong with a write: its register, or on RV32 a value of more than 32 bits.
fn write_flaw(is_rv32: bool, csr: Csr, value: u64) -> Option<Flaw>
    ensures { result ≡ write_flaw is_rv32 csr value }
{
    match foreign_kind(is_rv32, csr) {
        Some(kind) => Some(kind.part(1)),
        None if is_rv32 && value >= 1 << 32 => Some(Refusal::BadNumber.part(2)),
        None => None,
    }
}

/// Returns what is wrong with an event on such a hart.
pub fn event_flaw(version: Version, is_rv32: bool, event: Event) -> Option<Flaw>
    ensures { result ≡ event_flaw version is_rv32 event }
{
    match (version, event) {
        (Version::Headed, Event::Write(csr, value)) => write_flaw(is_rv32, csr, value),
        _ => None,
    }
}
