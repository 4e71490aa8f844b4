//! Ranges of bytes that a single write opens to S and U, though they are closed before and after its publication.

ghost use Rattle.std.specs.Prelude.{◌≡◌, ◌<◌, ◌≤◌, ℕ, IsTrue};
ghost use Rattle.pmp_core.specs.declared.access.TheConstants.{ADDRESS_LIMIT};
ghost use Rattle.pmp_lint.specs.OpenBetween.{IsOpened, IsStretch, opens, opens_kind};

use pmp_core::{ADDRESS_LIMIT, Kind, Perms, Registers};
use pmp_map::{ModeRights, run_around};

/// Contiguous bytes that are all opened, or none of which is.
#[derive(Clone, Copy, Debug, PartialEq, Eq)]
pub struct Stretch {
    /// The byte address of its first byte.
    pub first: u64,
    /// The byte address of its last byte.
    pub last: u64,
    pub is_opened: bool,
}

/// The registers before a publication, after a write of it, and after the publication.
#[derive(Clone, Copy)]
pub struct Between<'a> {
    pub before: &'a Registers<'a>,
    pub during: &'a Registers<'a>,
    pub after: &'a Registers<'a>,
}

fn opens_kind(before: Perms, during: Perms, after: Perms, kind: Kind) -> bool
    ensures { result ≡ opens_kind before during after kind }
{
    during.allows(kind) && (!before.allows(kind) && !after.allows(kind))
}

fn opens(before: Perms, during: Perms, after: Perms) -> bool
    ensures { result ≡ opens before during after }
{
    opens_kind(before, during, after, Kind::Load)
        || opens_kind(before, during, after, Kind::Store)
        || opens_kind(before, during, after, Kind::Fetch)
}

impl Stretch {
    /// Whether the bytes of both are opened, or those of neither.
    fn is_like(&self, other: &Stretch) -> bool
        ensures yes { IsTrue result → self.now.is_opened ≡ other.now.is_opened }
        ensures no { self.now.is_opened ≡ other.now.is_opened → IsTrue result }
    {
        self.is_opened == other.is_opened
    }
}

impl<'a> Between<'a> {
    /// Returns the bytes from `first` on that have one owner in each of the three.
    fn owned_from(&self, first: u64) -> Stretch
        requires { first < ADDRESS_LIMIT }
        ensures begins { result.first ≡ first }
        ensures proper { first ≤ result.last }
        ensures below { result.last < ADDRESS_LIMIT }
        ensures alike { (byte : ℕ) → first ≤ byte → byte ≤ result.last
            → IsOpened self.now.before.now self.now.during.now self.now.after.now byte result.is_opened }
    {
        let before = run_around(self.before, first);
        let during = run_around(self.during, first);
        let after = run_around(self.after, first);
        let earlier = ModeRights::of_owner(self.before, before.owner);
        let meanwhile = ModeRights::of_owner(self.during, during.owner);
        let later = ModeRights::of_owner(self.after, after.owner);
        Stretch {
            first,
            last: before.last.min(during.last).min(after.last),
            is_opened: opens(earlier.others, meanwhile.others, later.others),
        }
    }

    /// Returns the longest range from `first` on whose bytes are all opened, or none of which is.
    pub fn stretch_from(&self, first: u64) -> Stretch
        requires { first < ADDRESS_LIMIT }
        ensures begins { result.first ≡ first }
        ensures longest { IsStretch self.now.before.now self.now.during.now self.now.after.now result }
    {
        let mut stretch = self.owned_from(first);
        while stretch.last + 1 < ADDRESS_LIMIT {
            let next = self.owned_from(stretch.last + 1);
            if !next.is_like(&stretch) {
                return stretch;
            }
            stretch.last = next.last;
        }
        stretch
    }
}
