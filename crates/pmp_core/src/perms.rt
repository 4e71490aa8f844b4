//! Sets of rights.

ghost use Rattle.std.specs.Prelude.{⊤, ◌≡◌, ◌/◌, ◌%◌, ◌==◌, [], ◌∷◌, codes};
ghost use Rattle.pmp_core.specs.Rights.{Rights, perms_of, allows};
ghost use Rattle.pmp_core.specs.Perms.{right_of};

use crate::access::Kind;
use bitflags::{Flag, Flags, bitflag_items};

/// What a rule allows: R to load, W to store, X to fetch.
#[derive(Clone, Copy, Debug, PartialEq, Eq)]
pub struct Perms(u8);

bitflag_items! {
    impl Perms: u8 {
        const R = 1;
        const W = 2;
        const X = 4;
    }
}

impl Flags for Perms {
    type Bits = u8;

    ghost exact = { ⊤ };

    ghost table = { (codes "R", 1) ∷ (codes "W", 2) ∷ (codes "X", 4) ∷ [] };

    ghost set_of = { λ set. set.0 };

    fn flags<'a>() -> &'a [Flag<Perms>] {
        Perms::FLAGS
    }

    fn bits(&self) -> u8 {
        self.0
    }

    fn from_bits_retain(bits: u8) -> Perms {
        Perms(bits)
    }
}

impl Perms {
    pub const NONE: Perms = Perms(0);

    pub const RW: Perms = Perms(3);

    pub const RX: Perms = Perms(5);

    pub const RWX: Perms = Perms(7);

    /// Returns the set of these rights.
    #[inline(always)]
    pub fn of(read: bool, write: bool, execute: bool) -> Perms
        ensures { let rights : Rights = record { read = read; write = write; execute = execute } in
            result ≡ perms_of rights }
    {
        Perms(u8::from(read) + 2 * u8::from(write) + 4 * u8::from(execute))
    }

    /// Returns the sum of its rights: R is 1, W is 2, X is 4.
    pub fn number(self) -> u8
        ensures { result ≡ self.0 }
    {
        self.0
    }

    /// Returns the right that an access of this kind needs.
    pub fn of_kind(kind: Kind) -> Perms
        ensures { result ≡ right_of kind }
    {
        match kind {
            Kind::Fetch => Perms::X,
            Kind::Load => Perms::R,
            Kind::Store => Perms::W,
        }
    }

    /// Whether it has the right that an access of this kind needs.
    pub fn allows(self, kind: Kind) -> bool
        ensures by_bit { result ≡ (self.0 / (right_of kind).0 % 2 == 1) }
        ensures by_rights { (rights : Rights) → self ≡ perms_of rights → result ≡ allows rights kind }
    {
        self.contains(Perms::of_kind(kind))
    }
}
