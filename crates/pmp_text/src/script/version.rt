//! Versions of scripts.

ghost use Rattle.std.specs.Prelude.{◌≡◌, IfErr, IfOk, None, Some};
ghost use Rattle.pmp_text.specs.Lines.{words};
ghost use Rattle.pmp_text.specs.ScriptLines.{version_flaw, version_named, version_numbered};
ghost use Rattle.pmp_text.specs.Statements.{has_rv32};

use crate::flaw::Flaw;
use crate::refusal::Refusal;
use crate::script::words::Words;
use crate::words::is_word;
use pmp_core::Size;

/// A version of scripts.
#[derive(Clone, Copy)]
pub enum Version {
    /// Version 1 or 2: for the usual hart of this size.
    Sized(Size),
    /// Version 3: a head describes the hart and what its registers have before the first event.
    Headed,
}

impl Version {
    /// Whether a line may name a register that only RV32 has.
    pub fn has_rv32(self) -> bool
        ensures { result ≡ has_rv32 self }
    {
        matches!(self, Version::Headed)
    }
}

/// Returns the version with this number.
fn version_numbered(number: &[u8]) -> Option<Version>
    ensures { result ≡ version_numbered number.now }
{
    match number {
        b"1" => Some(Version::Sized(Size::Sixteen)),
        b"2" => Some(Version::Sized(Size::SixtyFour)),
        b"3" => Some(Version::Headed),
        _ => None,
    }
}

/// Returns the version that a script's first line names.
#[tactic(auto, unfolding(crate::specs::ScriptLines::version_named))]
pub fn read_version(line: &[u8]) -> Result<Version, Flaw>
    ensures ok { IfOk result (λ version. version_named (words line.now) ≡ Some version) }
    ensures err { IfErr result (λ flaw.
        (version_named (words line.now) ≡ None) × (flaw ≡ version_flaw (words line.now))) }
{
    let mut words = Words::new(line);
    let name = words.next();
    if name.is_some_and(|name| !is_word(name, b"pmp")) {
        return Err(Refusal::BadVersion.part(0));
    }
    let Some(number) = words.next() else {
        return Err(Refusal::BadVersion.whole());
    };
    let version = version_numbered(number).ok_or(Refusal::BadVersion.part(1))?;
    match words.next() {
        Some(_) => Err(Refusal::BadVersion.part(2)),
        None => Ok(version),
    }
}
