//! QEMU's log of trace events.

ghost use Rattle.std.specs.Prelude.{◌≡◌, not, position};
ghost use Rattle.pmp_text.specs.Lines.{words};
ghost use Rattle.pmp_import.specs.Qemu.{csr_called, event_told, is_stamp, name_end, names_event, qemu_said};
ghost use Rattle.pmp_import.specs.Qemu.{unstamped, verb_named};

use crate::said::{How, Said, Told, is_of_rv32, occurs, read_hex};
use pmp_core::Csr;
use pmp_text::{Refusal, Words, read_numeral, read_plain_number};

/// Returns what a line says. An event's name may follow a stamp of the process and the time.
#[tactic(auto, unfolding(crate::specs::Qemu::qemu_said))]
pub fn read_qemu(line: &[u8]) -> Result<Said, Refusal>
    ensures { result ≡ qemu_said line.now }
{
    let event = unstamped(line);
    if event.strip_prefix(b"resettable_reset_").is_some() {
        return Ok(Said::Reset);
    }
    match read_event(Words::new(event)) {
        Some(told) => Ok(Said::Register(told)),
        None if names_event(line) => Err(Refusal::BadEvent),
        None => Ok(Said::Nothing),
    }
}

fn is_stamp(byte: u8) -> bool
    ensures { result ≡ is_stamp byte }
{
    matches!(
        byte,
        b'0'..=b'9' | b'-' | b':' | b'.' | b'@' | b'T' | b'Z' | b' '
    )
}

fn first_unstamped(line: &[u8]) -> Option<usize>
    ensures { result ≡ position (λ byte. not (is_stamp byte)) line.now }
{
    line.iter().position(|byte| !is_stamp(*byte))
}

/// Returns the text after a line's stamp.
#[tactic(auto, unfolding(crate::specs::Qemu::unstamped))]
fn unstamped(line: &[u8]) -> &[u8]
    ensures { result.now ≡ unstamped line.now }
{
    match first_unstamped(line) {
        Some(start) => &line[start..],
        None => &[],
    }
}

#[tactic(auto, unfolding(crate::specs::Qemu::names_event))]
fn names_event(line: &[u8]) -> bool
    ensures { result ≡ names_event line.now }
{
    occurs(b"pmpcfg_csr_", line) || occurs(b"pmpaddr_csr_", line) || occurs(b"mseccfg_csr_", line)
}

/// Returns what the words of an event report, if they are those of a write or a read.
#[tactic(auto, unfolding(crate::specs::Qemu::event_told, crate::specs::Qemu::access_of))]
fn read_event(mut event: Words) -> Option<Told>
    ensures { result ≡ event_told (words event.entry.rest.now) }
{
    let name = event.next()?;
    let hart = event.next()?;
    let number = event.next()?;
    let verb = event.next()?;
    let register = event.next()?;
    let label = event.next()?;
    let value = event.next()?;
    if event.next().is_some() || hart != b"hart".as_slice() || label != b"val:".as_slice() {
        return None;
    }
    let how = read_verb(verb)?;
    let kind = name.strip_suffix(name_end(how))?;
    let register = read_csr(kind, register.strip_suffix(b",")?)?;
    let hart = read_numeral(number.strip_suffix(b":")?, 10, 20)?;
    let value = read_hex(value)?;
    Some(Told {
        hart: Some(hart),
        how,
        register,
        value,
        is_rv32: is_of_rv32(register),
    })
}

#[tactic(auto, unfolding(crate::specs::Qemu::verb_named))]
fn read_verb(verb: &[u8]) -> Option<How>
    ensures { result ≡ verb_named verb.now }
{
    match verb {
        b"write" => Some(How::Write),
        b"read" => Some(How::Read),
        _ => None,
    }
}

/// Returns the end of the name of an event of this kind.
fn name_end(how: How) -> &'static [u8]
    ensures { result.now ≡ name_end how }
{
    match how {
        How::Write => b"_csr_write",
        _ => b"_csr_read",
    }
}

/// Returns the register that has this name in an event about this kind of registers.
#[tactic(auto, unfolding(crate::specs::Qemu::csr_called))]
fn read_csr(kind: &[u8], register: &[u8]) -> Option<Csr>
    ensures { result ≡ csr_called kind.now register.now }
{
    if kind == b"pmpcfg".as_slice() {
        let number = read_plain_number(register.strip_prefix(b"reg")?, 15)?;
        Some(Csr::Cfg(number as u8))
    } else if kind == b"pmpaddr".as_slice() {
        let number = read_plain_number(register.strip_prefix(b"addr")?, 63)?;
        Some(Csr::Addr(number as u8))
    } else if kind == b"mseccfg".as_slice() && register == b"mseccfg".as_slice() {
        Some(Csr::Mseccfg)
    } else {
        None
    }
}
