//! The ranges of bytes that each of two register files treats alike.

ghost use Rattle.std.specs.Prelude.{◌≡◌, ◌<◌, ◌≤◌, ℕ, IsTrue};
ghost use Rattle.pmp_core.specs.declared.access.TheConstants.{ADDRESS_LIMIT};
ghost use Rattle.pmp_map.specs.ComparedRuns.{IsCompared, IsComparedRun};

use crate::around::run_around;
use crate::compared::{Aspect, Compared};
use pmp_core::{ADDRESS_LIMIT, Registers};

/// Contiguous bytes that each of two register files treats alike.
#[derive(Clone, Copy, Debug, PartialEq, Eq)]
pub struct ComparedRun {
    /// The byte address of its first byte.
    pub first: u64,
    /// The byte address of its last byte.
    pub last: u64,
    /// What the files say about each of them.
    pub both: Compared,
}

impl ComparedRun {
    /// Whether both files say the same here as there.
    fn is_alike(&self, other: &ComparedRun) -> bool
        ensures yes { IsTrue result → self.now.both ≡ other.now.both }
        ensures no { self.now.both ≡ other.now.both → IsTrue result }
    {
        self.both == other.both
    }
}

/// Returns the bytes from `first` on that have one owner in the old file and one in the new.
fn owned_from(aspect: Aspect, old: &Registers<'_>, new: &Registers<'_>, first: u64) -> ComparedRun
    requires { first < ADDRESS_LIMIT }
    ensures begins { result.first ≡ first }
    ensures proper { first ≤ result.last }
    ensures below { result.last < ADDRESS_LIMIT }
    ensures both { (byte : ℕ) → first ≤ byte → byte ≤ result.last
        → IsCompared aspect old.now new.now byte result.both }
{
    let before = run_around(old, first);
    let after = run_around(new, first);
    ComparedRun {
        first,
        last: before.last.min(after.last),
        both: Compared::of_owners(aspect, old, before.owner, new, after.owner),
    }
}

/// Returns the longest range of bytes from the byte address `first` on that each file treats alike. The files may be of
/// different harts. The next range begins after its last byte, up to `2^56 - 1`.
pub fn compared_run_from(
    aspect: Aspect,
    old: &Registers<'_>,
    new: &Registers<'_>,
    first: u64,
) -> ComparedRun
    requires { first < ADDRESS_LIMIT }
    ensures begins { result.first ≡ first }
    ensures longest { IsComparedRun aspect old.now new.now result }
{
    let mut run = owned_from(aspect, old, new, first);
    while run.last + 1 < ADDRESS_LIMIT {
        let next = owned_from(aspect, old, new, run.last + 1);
        if !next.is_alike(&run) {
            return run;
        }
        run.last = next.last;
    }
    run
}
