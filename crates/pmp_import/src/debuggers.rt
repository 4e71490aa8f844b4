//! Registers as shown by debuggers.

ghost use Rattle.std.specs.Prelude.{◌≡◌, ◌<◌, ◌∷◌, codes, length, IfSome, MatchOption};
ghost use Rattle.pmp_text.specs.Numbers.{numeral};
ghost use Rattle.pmp_import.specs.Said.{and_then, behind};
ghost use Rattle.pmp_text.specs.Lines.{words};
ghost use Rattle.pmp_import.specs.Debuggers.{csr_named, debugger_said, dump_shown, gdb_shown, is_decimal, is_prompt};
ghost use Rattle.pmp_import.specs.Debuggers.{is_typed, openocd_shown, shown, shown_by, size_shown, sized_shown};
ghost use Rattle.pmp_import.specs.Debuggers.{thread_said, behind_prompts};

use crate::said::{How, Said, Told, is_of_rv32, names_register, read_hex};
use pmp_core::Csr;
use pmp_text::{Refusal, Words, read_numeral, read_register};

/// The program that shows registers, one on each line.
#[derive(Clone, Copy, Debug, PartialEq, Eq)]
pub enum Debugger {
    /// gdb, with `info registers`, for all harts with `thread apply all`.
    Gdb,
    /// OpenOCD, with `reg`.
    OpenOcd,
    /// `pmp dump`.
    Dump,
}

impl Debugger {
    /// Returns what a line says.
    #[tactic(auto, unfolding(crate::specs::Debuggers::debugger_said))]
    pub fn read(self, line: &[u8]) -> Result<Said, Refusal>
        ensures { result ≡ debugger_said self line.now }
    {
        if !names_register(line) {
            return read_thread(Words::new(line));
        }
        match self.read_shown(Words::new(behind_prompts(line))) {
            Some(told) => Ok(Said::Register(told)),
            None if is_typed(line) => Ok(Said::Nothing),
            None => Err(Refusal::BadEvent),
        }
    }

    /// Returns what a line's words show.
    fn read_shown(self, shown: Words) -> Option<Told>
        ensures { result ≡ shown_by self (words shown.entry.rest.now) }
    {
        match self {
            Debugger::Gdb => read_gdb(shown),
            Debugger::OpenOcd => read_openocd(shown),
            Debugger::Dump => read_dump(shown),
        }
    }
}

/// Returns the register with this name.
#[tactic(auto, unfolding(crate::specs::Debuggers::csr_named))]
fn read_csr(is_rv32: bool, name: &[u8]) -> Option<Csr>
    ensures { result ≡ csr_named is_rv32 name.now }
{
    if !names_register(name) {
        return None;
    }
    read_register(is_rv32, name).ok()
}

/// Returns a register that is shown with this value, for a hart whose XLEN may be known to be 32.
#[tactic(auto, unfolding(crate::specs::Debuggers::shown))]
fn shown(is_of_32: bool, register: Option<Csr>, value: &[u8]) -> Option<Told>
    ensures { result ≡ shown is_of_32 register value.now }
{
    let register = register?;
    let value = read_hex(value)?;
    Some(Told {
        hart: None,
        how: How::Show,
        register,
        value,
        is_rv32: is_of_32 || is_of_rv32(register),
    })
}

fn is_decimal(word: &[u8]) -> bool
    ensures { result ≡ is_decimal word.now }
{
    word.iter()
        .all(|byte| char::from(*byte).is_digit(10) || *byte == b'-')
}

#[tactic(auto, unfolding(crate::specs::Debuggers::gdb_shown))]
fn read_gdb(mut line: Words) -> Option<Told>
    ensures { result ≡ gdb_shown (words line.entry.rest.now) }
{
    let name = line.next()?;
    let value = line.next()?;
    if let Some(decimal) = line.next() {
        if line.next().is_some() || !is_decimal(decimal) {
            return None;
        }
    }
    shown(false, read_csr(true, name), value)
}

#[tactic(auto, unfolding(crate::specs::Debuggers::dump_shown))]
fn read_dump(mut line: Words) -> Option<Told>
    ensures { result ≡ dump_shown (words line.entry.rest.now) }
{
    let name = line.next()?;
    let value = line.next()?;
    if line.next().is_some() {
        return None;
    }
    shown(false, read_csr(true, name), value)
}

/// Returns a register with its size.
#[tactic(auto, unfolding(crate::specs::Debuggers::sized_shown))]
fn read_sized(name: &[u8], size: &[u8], value: &[u8]) -> Option<Told>
    ensures { result ≡ sized_shown name.now size.now value.now }
{
    if size == b"(/64):".as_slice() {
        shown(false, read_csr(false, name), value)
    } else if size == b"(/32):".as_slice() {
        shown(true, read_csr(true, name), value)
    } else {
        None
    }
}

/// Returns a register with its size, whose name was read.
#[tactic(auto, unfolding(crate::specs::Debuggers::size_shown))]
fn read_behind<'a>(name: &'a [u8], mut line: Words<'a>) -> Option<Told>
    ensures { result ≡ size_shown (name.entry.now ∷ words line.entry.rest.now) }
{
    let size = line.next()?;
    let value = line.next()?;
    if let Some(dirty) = line.next() {
        if line.next().is_some() || dirty != b"(dirty)".as_slice() {
            return None;
        }
    }
    read_sized(name, size, value)
}

#[tactic(auto, unfolding(crate::specs::Debuggers::openocd_shown, crate::specs::Debuggers::size_shown))]
fn read_openocd(mut line: Words) -> Option<Told>
    ensures { result ≡ openocd_shown (words line.entry.rest.now) }
{
    let word = line.next()?;
    if !word.starts_with(b"(") {
        return read_behind(word, line);
    }
    let name = line.next()?;
    read_behind(name, line)
}

fn is_prompt(word: &[u8]) -> bool
    ensures { result ≡ is_prompt word.now }
{
    word == b"(gdb)".as_slice() || word == b">".as_slice()
}

/// Returns the text after a prompt at the beginning of a line.
fn behind_prompt(line: &[u8]) -> Option<&[u8]>
    ensures shorter { IfSome result (λ rest. length (words rest.now) < length (words line.now)) }
    ensures same { MatchOption result (behind_prompts (words line.now) ≡ words line.now)
        (λ rest. behind_prompts (words line.now) ≡ behind_prompts (words rest.now)) }
{
    let mut words = Words::new(line);
    is_prompt(words.next()?).then_some(words.rest())
}

/// Returns the text after a line's prompts.
fn behind_prompts(line: &[u8]) -> &[u8]
    ensures { words result.now ≡ behind_prompts (words line.now) }
{
    let mut rest = line;
    while let Some(behind) = behind_prompt(rest) {
        rest = behind;
    }
    rest
}

/// Whether a line is typed input, or says that a register isn't known.
fn is_typed(line: &[u8]) -> bool
    ensures { result ≡ is_typed (words line.now) }
{
    let first = Words::new(line).next();
    first.is_some_and(|word| is_prompt(word) || word == b"Invalid".as_slice())
}

/// Returns the heading of a thread, which is a hart, or nothing.
#[tactic(auto, unfolding(crate::specs::Debuggers::thread_said))]
fn read_thread(mut line: Words) -> Result<Said, Refusal>
    ensures { result ≡ thread_said (words line.entry.rest.now) }
{
    let (Some(word), Some(_), Some(opening)) = (line.next(), line.next(), line.next()) else {
        return Ok(Said::Nothing);
    };
    let (Some(_), Some(cpu)) = (line.next(), line.next()) else {
        return Ok(Said::Nothing);
    };
    if word != b"Thread".as_slice() || opening != b"(Thread".as_slice() {
        return Ok(Said::Nothing);
    }
    let hart = read_cpu(cpu).ok_or(Refusal::BadEvent)?;
    Ok(Said::Hart(hart))
}

fn read_cpu(word: &[u8]) -> Option<u64>
    ensures { result ≡ and_then (behind (codes "(CPU#") word.now) (numeral 10 20) }
{
    read_numeral(word.strip_prefix(b"(CPU#")?, 10, 20)
}
