//! Why a call to a shared unit is refused.

ghost use Rattle.std.specs.Prelude.{◌≡◌};

use std::alloc::{AllocError, AllocFailed};

#[derive(Clone, Copy, Debug, PartialEq, Eq)]
pub enum ShareFault {
    /// The unit's `PLACES` for checkers and notices are all taken, or the shared structure refuses one.
    NoPlace,
    /// The batch would go past a limit of the unit, in events or in batches.
    Full,
    /// More memory was refused.
    Memory,
}

impl From<AllocError> for ShareFault {
    ghost use Rattle.pmp_share.specs.declared.fault.ShareFault.TheVariants.{Memory};

    ghost from_gives = { λ _ fault. fault ≡ Memory };

    fn from(_error: AllocError) -> ShareFault {
        ShareFault::Memory
    }
}

impl<T: Drop> From<AllocFailed<T>> for ShareFault {
    ghost use Rattle.pmp_share.specs.declared.fault.ShareFault.TheVariants.{Memory};

    ghost from_gives = { λ _ fault. fault ≡ Memory };

    fn from(_failed: AllocFailed<T>) -> ShareFault {
        ShareFault::Memory
    }
}
