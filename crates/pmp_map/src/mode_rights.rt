//! The rights that the owner of a byte gives each mode.

ghost use Rattle.std.specs.Prelude.{◌≡◌, ◌<◌, IfSome, length};
ghost use Rattle.pmp_core.specs.Rights.{perms_of};
ghost use Rattle.pmp_map.specs.Answers.{kept_rights, owned_rights, rights_by, whole_cause};

use pmp_core::{Cause, Mode, Perms, Registers};

/// Returns what decides an access whose bytes all have this owner.
pub fn whole_cause(owner: Option<u8>) -> Cause
    ensures { result ≡ whole_cause owner }
{
    owner.map_or(Cause::NoMatch, Cause::Rule)
}

/// Returns what the owner of a byte gives the mode, or what the mode may do without an owner.
#[inline(always)]
pub fn owned_rights(registers: &Registers<'_>, owner: Option<u8>, mode: Mode) -> Perms
    requires { IfSome owner (λ entry. entry < length registers.now.entries) }
    ensures { result ≡ perms_of (owned_rights registers.now owner mode) }
{
    match owner {
        Some(entry) => registers.rights(usize::from(entry), mode),
        None => registers.default_rights(mode),
    }
}

/// What a register file lets the modes do with a byte.
#[derive(Clone, Copy, Debug, PartialEq, Eq)]
pub struct ModeRights {
    /// What M-mode may do.
    pub machine: Perms,
    /// What S-mode and U-mode may do, which have the same rights.
    pub others: Perms,
}

impl ModeRights {
    /// Returns the rights where this entry owns the byte, or none does.
    #[inline]
    pub fn of_owner(registers: &Registers<'_>, owner: Option<u8>) -> ModeRights
        requires { IfSome owner (λ entry. entry < length registers.now.entries) }
        ensures { result ≡ rights_by registers.now owner }
    {
        ModeRights {
            machine: owned_rights(registers, owner, Mode::M),
            others: owned_rights(registers, owner, Mode::U),
        }
    }

    /// Returns what the mode may do.
    pub fn of(&self, mode: Mode) -> Perms
        ensures { result ≡ kept_rights self.now mode }
    {
        if mode == Mode::M {
            self.machine
        } else {
            self.others
        }
    }
}
