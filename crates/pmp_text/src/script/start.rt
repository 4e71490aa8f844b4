//! The initial registers of a script with a head.

ghost use Rattle.std.specs.Prelude.{◌≡◌, ◌+◌, ◌≤◌, IfErr, IfOk, None, Some, find, fold, option_map, unwrap_or};
ghost use Rattle.pmp_text.specs.Heads.{bits_fault, first_not_held, hart_said, is_kept, kept_value, says_bits, started};
ghost use Rattle.pmp_text.specs.Heads.{fault_on, start_on, with_bits, with_bytes, with_register, with_set};
ghost use Rattle.pmp_text.specs.Longhand.{file_said};
ghost use Rattle.pmp_text.specs.Steps.Reading.{IsHead};

use crate::expectation::Expectation;
use crate::fault::Fault;
use crate::refusal::Refusal;
use crate::script::hart_field::{HartField, kind_of};
use crate::script::hart_registers::{first_foreign_expectation, first_foreign_line};
use crate::script::head::{Head, HeadLine};
use crate::script::statement::HeadStatement;
use pmp_core::{
    Csr, Hart, MAX_ADDRESS_BITS, MAX_ENTRIES, MID_ADDRESS_BITS, Profile, RegFile, SavedRegisters,
};

/// Puts `count` bytes of a value, lowest first, over those of the entries from `first` on.
fn set_bytes(saved: &mut SavedRegisters, first: usize, count: usize, value: u64)
    requires value { count ≤ 8 }
    requires entries { first + count ≤ MAX_ENTRIES }
    ensures { saved.new
        ≡ record saved.old { configurations = with_bytes saved.old.configurations first count value } }
{
    saved.configurations[first..first + count].copy_from_slice(&value.to_le_bytes()[..count]);
}

/// Puts a value into a register of this hart, if there is one.
fn set_register(hart: &Hart, saved: &mut SavedRegisters, register: Csr, value: u64)
    ensures { saved.new ≡ with_register hart.now saved.old register value }
{
    match register {
        Csr::Cfg(number) if number < 16 => {
            set_bytes(saved, 4 * usize::from(number), hart.bytes_in(number), value);
        }
        Csr::Addr(number) if usize::from(number) < MAX_ENTRIES => {
            saved.addresses[usize::from(number)] = value;
        }
        Csr::Mseccfg => saved.mseccfg = value,
        _ => {}
    }
}

/// Does what a line of the head says about a register.
fn set_line(hart: &Hart, saved: &mut SavedRegisters, statement: HeadStatement)
    ensures { saved.new ≡ with_set hart.now saved.old statement }
{
    if let HeadStatement::Set(register, value) = statement {
        set_register(hart, saved, register, value);
    }
}

/// Does what lines of the head say about registers.
fn set_lines(hart: &Hart, saved: &mut SavedRegisters, lines: &[HeadLine])
    ensures { saved.new ≡ fold (λ saved line. with_set hart.now saved line.statement) saved.old lines.now }
{
    for line in lines {
        set_line(hart, saved, line.statement);
    }
}

/// Returns all that a register keeps.
pub fn kept_value(file: &RegFile, register: Csr) -> u64
    ensures { result ≡ kept_value file.now register }
{
    match register {
        Csr::Addr(number) if number < file.entries() => {
            file.registers().address(usize::from(number))
        }
        Csr::Addr(_) => 0,
        _ => file.read(register),
    }
}

fn is_kept(file: &RegFile, statement: HeadStatement) -> bool
    ensures { result ≡ is_kept file.now statement }
{
    match statement {
        HeadStatement::Hart(_) => true,
        HeadStatement::Set(register, value) => kept_value(file, register) == value,
    }
}

/// Returns the line of the first value that its register doesn't keep.
fn first_not_held(file: &RegFile, lines: &[HeadLine]) -> Option<u64>
    ensures { result ≡ first_not_held file.now lines.now }
{
    let line = lines.iter().find(|line| !is_kept(file, line.statement))?;
    Some(line.line)
}

fn says_bits(statement: HeadStatement) -> bool
    ensures { result ≡ says_bits statement }
{
    matches!(statement, HeadStatement::Hart(HartField::Bits(_)))
}

/// Returns the line that gives the number of address bits, or 0.
fn line_of_bits(lines: &[HeadLine]) -> u64
    ensures { result ≡ unwrap_or (option_map (λ line. line.line) (find (λ line. says_bits line.statement) lines.now)) 0 }
{
    let line = lines.iter().find(|line| says_bits(line.statement));
    line.map_or(0, |line| line.line)
}

/// Returns what is said about a hart, with as many address bits as its XLEN allows if none are given.
fn with_bits(said: Profile) -> Profile
    ensures { result ≡ with_bits said }
{
    if said.address_bits > 0 {
        return said;
    }
    let address_bits = if said.is_rv32 {
        MID_ADDRESS_BITS
    } else {
        MAX_ADDRESS_BITS
    };
    Profile {
        address_bits,
        ..said
    }
}

/// Returns the hart that a head describes, if there is one.
#[tactic(auto, unfolding(crate::specs::Heads::bits_fault))]
fn hart_of(head: &Head) -> Result<Hart, Fault>
    requires { IsHead head.now }
    ensures ok { let lines = head.now.lines.items in
        IfOk result (λ hart. (bits_fault lines ≡ None) × (hart ≡ hart_said lines)) }
    ensures err { IfErr result (λ fault. bits_fault head.now.lines.items ≡ Some fault) }
{
    match Hart::new(with_bits(head.said())) {
        Ok(hart) => Ok(hart),
        Err(fault) => Err(kind_of(fault).part(2).at_line(line_of_bits(head.lines()))),
    }
}

/// Returns the register file of this hart that the lines of a head describe.
fn start_on(hart: Hart, lines: &[HeadLine]) -> RegFile
    ensures { result ≡ start_on hart lines.now }
{
    let mut saved = RegFile::reset_on(hart).save();
    set_lines(&hart, &mut saved, lines);
    RegFile::restore(&saved)
}

/// Returns the register file that a head describes so far, or that of the usual hart if there is no such hart.
pub(super) fn file_said(head: &Head) -> RegFile
    requires { IsHead head.now }
    ensures { result ≡ file_said head.now.lines.items }
{
    match hart_of(head) {
        Ok(hart) => start_on(hart, head.lines()),
        Err(_) => RegFile::reset(),
    }
}

/// Returns the fault that the whole head has on this file.
#[tactic(auto, unfolding(crate::specs::Heads::fault_on))]
fn fault_on(file: &RegFile, lines: &[HeadLine], expected: &[Expectation]) -> Option<Fault>
    ensures { result ≡ fault_on file.now lines.now expected.now }
{
    let is_rv32 = file.hart().profile().is_rv32;
    first_foreign_line(is_rv32, lines)
        .or(first_foreign_expectation(is_rv32, expected))
        .or(first_not_held(file, lines).map(|line| Refusal::NotHeld.part(2).at_line(line)))
}

/// Returns the register file that a head describes, if its hart has what the head and the expectations name, and its
/// registers keep the values that they are set to.
pub fn start(head: &Head, expected: &[Expectation]) -> Result<RegFile, Fault>
    requires { IsHead head.now }
    ensures { result ≡ started head.now.lines.items expected.now }
{
    let file = start_on(hart_of(head)?, head.lines());
    match fault_on(&file, head.lines(), expected) {
        Some(fault) => Err(fault),
        None => Ok(file),
    }
}
