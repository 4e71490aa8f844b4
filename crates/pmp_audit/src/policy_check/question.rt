//! The question that a row of a policy asks about the bytes of one owner.

ghost use Rattle.std.specs.Prelude.{◌≡◌, ◌<◌, ℕ, IfSome, Option, length};
ghost use Rattle.pmp_core.specs.RegisterFile.{RegisterFile};
ghost use Rattle.pmp_core.specs.Rights.{Rights, perms_of};
ghost use Rattle.pmp_map.specs.Answers.{rights_by};
ghost use Rattle.pmp_audit.specs.PolicyQuestions.{finds_in, finds_kind, finds_mode, finds_owned, is_yes};

use pmp_core::{Kind, Mode, Perms, Registers};
use pmp_map::{ModeRights, is_held};
use pmp_text::{Demand, Kinds, PolicyRow};

/// The question that a row of a policy asks about a byte of its range.
#[derive(Clone, Copy)]
pub enum Question {
    /// Whether the row's demand is broken.
    IsBroken,
    /// Whether the byte isn't held.
    IsNotHeld,
}

/// Whether the kind is one of these, and is allowed if `allowed` is true, or refused if it is false.
fn finds_kind(allowed: bool, rights: Perms, kinds: Kinds, kind: Kind) -> bool
    ensures { (given : Rights) → rights ≡ perms_of given → result ≡ finds_kind allowed given kinds kind }
{
    kinds.has(kind) && rights.allows(kind) == allowed
}

/// Whether one of these kinds is allowed if `allowed` is true, or refused if it is false.
fn finds_in(allowed: bool, rights: Perms, kinds: Kinds) -> bool
    ensures { (given : Rights) → rights ≡ perms_of given → result ≡ finds_in allowed given kinds }
{
    finds_kind(allowed, rights, kinds, Kind::Fetch)
        || finds_kind(allowed, rights, kinds, Kind::Load)
        || finds_kind(allowed, rights, kinds, Kind::Store)
}

/// Whether the mode is one of the row's, and these rights open, or close, bytes to it for one of the row's kinds.
#[tactic(auto, using(pmp_map::proofs::KeptRights::rights_kept))]
fn finds_mode(allowed: bool, rights: &ModeRights, row: &PolicyRow, mode: Mode) -> bool
    ensures { (file : RegisterFile) (owner : Option ℕ) → rights.now ≡ rights_by file owner
        → result ≡ finds_mode allowed file owner row.now mode }
{
    row.modes.has(mode) && finds_in(allowed, rights.of(mode), row.kinds)
}

/// Whether the owner's bytes are open, or closed, to one of the row's modes for one of its kinds.
fn finds_owned(allowed: bool, registers: &Registers<'_>, owner: Option<u8>, row: &PolicyRow) -> bool
    requires { IfSome owner (λ entry. entry < length registers.now.entries) }
    ensures { result ≡ finds_owned allowed registers.now owner row.now }
{
    let rights = ModeRights::of_owner(registers, owner);
    finds_mode(allowed, &rights, row, Mode::M)
        || finds_mode(allowed, &rights, row, Mode::S)
        || finds_mode(allowed, &rights, row, Mode::U)
}

impl Question {
    /// Returns the answer for the bytes of this owner.
    pub fn is_yes(self, registers: &Registers<'_>, owner: Option<u8>, row: &PolicyRow) -> bool
        requires { IfSome owner (λ entry. entry < length registers.now.entries) }
        ensures { result ≡ is_yes self registers.now owner row.now }
    {
        match self {
            Question::IsBroken => finds_owned(row.demand != Demand::Always, registers, owner, row),
            Question::IsNotHeld => !is_held(registers, owner),
        }
    }
}
