//! What two register files say about the same bytes.

ghost use Rattle.std.specs.Prelude.{◌≡◌, ◌<◌, IfSome, length};
ghost use Rattle.pmp_map.specs.ComparedRuns.{compared_by};

use crate::byte_lock::ByteLock;
use crate::mode_rights::ModeRights;
use pmp_core::Registers;

/// The aspect by which two register files are compared.
#[derive(Clone, Copy, Debug, PartialEq, Eq)]
pub enum Aspect {
    /// What they let the modes do.
    Rights,
    /// How they lock.
    Locks,
}

/// What an old register file says about bytes, and what a new one says.
#[derive(Clone, Copy, Debug, PartialEq, Eq)]
pub enum Compared {
    Rights(ModeRights, ModeRights),
    Locks(ByteLock, ByteLock),
}

impl Compared {
    /// Compares bytes owned by these entries, if any, in the old and the new file.
    pub fn of_owners(
        aspect: Aspect,
        old: &Registers<'_>,
        old_owner: Option<u8>,
        new: &Registers<'_>,
        new_owner: Option<u8>,
    ) -> Compared
        requires old { IfSome old_owner (λ entry. entry < length old.now.entries) }
        requires new { IfSome new_owner (λ entry. entry < length new.now.entries) }
        ensures { result ≡ compared_by aspect old.now old_owner new.now new_owner }
    {
        match aspect {
            Aspect::Rights => Compared::Rights(
                ModeRights::of_owner(old, old_owner),
                ModeRights::of_owner(new, new_owner),
            ),
            Aspect::Locks => Compared::Locks(
                ByteLock::of_owner(old, old_owner),
                ByteLock::of_owner(new, new_owner),
            ),
        }
    }
}
