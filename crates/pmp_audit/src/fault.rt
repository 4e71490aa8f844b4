//! The faults of a unit that several threads share.

ghost use Rattle.std.specs.Prelude.{◌≡◌};
ghost use Rattle.pmp_audit.specs.Fault.{fault_of_share, moved_on};

use pmp_share::{Moved, ShareFault};
use pmp_text::{Fault, Place, Refusal};

pub fn fault_of_share(fault: ShareFault) -> Fault
    ensures { result ≡ fault_of_share fault }
{
    match fault {
        ShareFault::NoPlace => Fault::from(Refusal::NoPlace),
        ShareFault::Full => Fault::from(Refusal::Full),
        ShareFault::Memory => Fault::from(Refusal::Memory),
    }
}

/// Returns the fault of a worker that saw more events than it was told of.
pub fn moved_on(moved: Moved) -> Fault
    ensures { result ≡ moved_on moved.seen }
{
    Fault {
        refusal: Refusal::Moved,
        place: Place::Events(moved.seen),
    }
}
